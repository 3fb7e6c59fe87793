ghost use Rattle.line_round_trip.specs.Decoding.{LinesAreDecodedBack};

use dex_maker::tables_are_short;

/// Where there is a file of a listing, the units of each method's code are, by the decoder's definitions, the method's
/// lines: each the instruction of its format with the line's opcode, registers, literal, index and target, or the
/// payload, and nothing else.
pub fn lines_are_decoded_back()
    ensures { LinesAreDecodedBack }
{
    tables_are_short();
}

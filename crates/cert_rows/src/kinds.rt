//! Kinds of rows by their numbers.
ghost use Rattle.std.specs.Prelude.{◌≡◌, ◌<◌, ◌≤◌};
ghost use Rattle.cert_rows.specs.Reading.{Reads};
ghost use Rattle.cert_rows.specs.Rows.{kind_at, kind_from};

use crate::RowFault;
use crate::numbers::byte_from;
use fact_rows::Kind;

/// The kinds in the order of their numbers.
static KINDS: [Kind; 25] = [
    Kind::Reached,
    Kind::Points,
    Kind::Taint,
    Kind::Cell,
    Kind::Back,
    Kind::StaticPoints,
    Kind::StaticTaint,
    Kind::Calls,
    Kind::CalledBy,
    Kind::Effect,
    Kind::MethodEffect,
    Kind::ExitPoints,
    Kind::ExitTaint,
    Kind::Live,
    Kind::CompTaint,
    Kind::Handed,
    Kind::HandedTaint,
    Kind::Arrive,
    Kind::Unknown,
    Kind::Uses,
    Kind::Label,
    Kind::StaticLabel,
    Kind::CellLabel,
    Kind::Holds,
    Kind::ExitLabel,
];

#[tactic(auto, unfolding(crate::specs::Rows::kind_at))]
fn kind_at(number: u8) -> Kind
    requires low { 0 < number }
    requires high { number ≤ 25 }
    ensures { result ≡ kind_at number }
{
    KINDS[number as usize - 1]
}

#[tactic(auto, unfolding(crate::specs::Rows::kind_from), using(vet_base::proofs::Scripts::run_bind))]
pub fn kind_from(bytes: &[u8]) -> Result<(Kind, &[u8]), RowFault>
    ensures { Reads (λ x. (x.0, x.1.now)) result (kind_from bytes.now) }
{
    let (number, rest) = byte_from(bytes)?;
    if number == 0 || number > 25 {
        return Err(RowFault::Bad);
    }
    Ok((kind_at(number), rest))
}

//! A sink before another, which lets past what is kept.
ghost use Rattle.std.specs.Prelude.{◌≡◌};
ghost use Rattle.kept_rules.specs.Kept.{is_kept, is_kept_row, through};

use fact_rows::Row;
use rule_ground::{Conclusion, Sink};

/// The rule that names what a step makes.
const FILLING: u8 = 6;

/// A sink before another.
#[derive(Drop)]
pub struct KeptSink<'a, S> {
    pub out: &'a mut S,
}

/// Whether the row is of a kind that names no register and no label.
fn is_kept_row(row: &Row) -> bool
    ensures { result ≡ is_kept_row row.now }
{
    match row {
        Row::Reached(_)
        | Row::Cell(_, _, _)
        | Row::Back(_, _, _)
        | Row::StaticPoints(_, _)
        | Row::Calls(_, _)
        | Row::CalledBy(_, _)
        | Row::ExitPoints(_, _, _)
        | Row::Live(_, _)
        | Row::Handed(_)
        | Row::Unknown(_, _)
        | Row::Uses(_, _) => true,
        _ => false,
    }
}

/// Whether the conclusion is let past.
fn is_kept(found: &Conclusion) -> bool
    ensures { result ≡ is_kept found.now }
{
    is_kept_row(&found.row) && found.rule != FILLING
}

impl<'a, S: Sink> Sink for KeptSink<'a, S> {
    type Refusal = S::Refusal;

    ghost then = { λ k found. through S.then k found };

    fn put(&mut self, found: Conclusion) -> Result<(), S::Refusal> {
        if is_kept(&found) {
            self.out.put(found)
        } else {
            Ok(())
        }
    }
}

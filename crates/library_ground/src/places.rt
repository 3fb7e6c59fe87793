//! The positions of a call, one after the other.
ghost use Rattle.std.specs.Prelude.{◌≡◌, ◌≤◌, ◌∷◌, [], ℕ, None, List, MatchOption};
ghost use Rattle.std.specs.Prelude.{OnOk, if◌then◌else◌, drop, fold, length};
ghost use Rattle.app_machine.specs.Names.{is_wide};
ghost use Rattle.rule_ground.specs.declared.conclusion.Conclusion.{Conclusion as ConclusionOf};
ghost use Rattle.library_ground.specs.CallRow.{shown_call};
ghost use Rattle.library_ground.specs.Places.{at_places, places_left};

use crate::LibraryCall;
use app_parts::{is_static_call, is_wide};
use rule_ground::Sink;
use vet_base::Name;

/// What is concluded of a position and its first register.
pub trait AtPlace {
    /// What the code needs of that on which it stands.
    ghost ready: { Self → Type 0 };

    ghost gives: { Self → ℕ → ℕ → List ConclusionOf };

    fn give<S: Sink>(&self, position: usize, register: u32, out: &mut S) -> Result<(), S::Refusal>
        requires { ready self.now }
        ensures { OnOk result (out.new ≡ fold S.then out.old (gives self.now position register)) };
}

/// The positions that are left: that of the receiver, and those of arguments of these types in the registers.
#[derive(Clone, Copy)]
struct Places<'a> {
    receiver: Option<u32>,
    types: &'a [Name],
    registers: &'a [u32],
}

/// What is left behind the first register of a value of the type.
fn behind<'a>(kind: &Name, registers: &'a [u32]) -> &'a [u32]
    ensures { result.now ≡ (if is_wide kind.now then drop 1 registers.now else registers.now) }
{
    if is_wide(kind) {
        without_first(registers)
    } else {
        registers
    }
}

fn without_first(registers: &[u32]) -> &[u32]
    ensures { result.now ≡ drop 1 registers.now }
{
    match registers.split_first() {
        Some((_, rest)) => rest,
        None => registers,
    }
}

impl<'a> Places<'a> {
    #[tactic(auto, unfolding(app_machine::specs::Library::positions), using(crate::proofs::Fewer::few_places))]
    fn of(call: &LibraryCall<'a>) -> Places<'a>
        ensures left { places_left result ≡ (shown_call call.now).places }
        ensures few { length (places_left result) ≤ length call.now.args.now }
    {
        let types = call.at.proto.params.as_slice();
        if is_static_call(call.kind) {
            return Places {
                receiver: None,
                types,
                registers: call.args,
            };
        }
        match call.args.split_first() {
            None => Places {
                receiver: None,
                types: &[],
                registers: &[],
            },
            Some((receiver, registers)) => Places {
                receiver: Some(*receiver),
                types,
                registers,
            },
        }
    }

    /// The first register of the next position.
    fn next(&mut self) -> Option<u32>
        ensures { MatchOption result (places_left self.old ≡ []) (λ x. places_left self.old
            ≡ x ∷ places_left self.new) }
    {
        match self.receiver {
            Some(register) => {
                self.receiver = None;
                Some(register)
            }
            None => self.next_argument(),
        }
    }

    #[tactic(auto, using(crate::proofs::Fewer::no_types, crate::proofs::Fewer::no_registers, crate::proofs::Fewer::one_more))]
    fn next_argument(&mut self) -> Option<u32>
        requires { self.old.receiver ≡ None }
        ensures { MatchOption result (places_left self.old ≡ []) (λ x. places_left self.old
            ≡ x ∷ places_left self.new) }
    {
        let (kind, types) = self.types.split_first()?;
        let (first, rest) = self.registers.split_first()?;
        self.types = types;
        self.registers = behind(kind, rest);
        Some(*first)
    }
}

/// What is concluded of each position of the call.
pub fn for_each_place<J: AtPlace, S: Sink>(
    call: &LibraryCall<'_>,
    with: &J,
    out: &mut S,
) -> Result<(), S::Refusal>
    requires { J.ready with.now }
    ensures { OnOk result (out.new ≡ fold S.then out.old
        (at_places (J.gives with.now) 0 (shown_call call.now).places)) }
{
    let mut places = Places::of(call);
    for position in 0..call.args.len() {
        match places.next() {
            None => return Ok(()),
            Some(register) => with.give(position, register, out)?,
        }
    }
    Ok(())
}

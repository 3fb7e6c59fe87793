ghost use Rattle.std.specs.Prelude.{◌≡◌, ◌↔◌, ◌+◌, ◌<◌, ◌≤◌, ◌++◌, ◌∷◌, [], IfOk, IsTrue, List, OnOk, map, true};
ghost use Rattle.dex_tables.specs.declared.dex.RawTry.{RawTry};
ghost use Rattle.dex_code.specs.Find.{Ascend};
ghost use Rattle.dex_code.specs.Handlers.{AddsCatches, catches_beside, IsParted};
ghost use Rattle.dex_code.specs.Lines.{Line};
ghost use Rattle.dex_code.specs.Next.{addresses, catches_of, covered, covering, covers, in_order};

use crate::insn::Insn;
use crate::order::put_in_order;
use dex_tables::RawTry;
use std::alloc::{AllocError, Global};
use vet_base::{Memory, Shared};

/// Whether a try covers a pc.
fn is_covered(item: &RawTry, pc: u32) -> bool
    ensures { result ≡ covers item.now pc }
{
    item.start <= pc && u64::from(pc) < u64::from(item.start) + u64::from(item.count)
}

/// Adds the addresses of a try's handlers, the catch-all included.
#[tactic(auto, unfolding(crate::specs::Next::addresses))]
fn push_addresses(found: &mut Vec<u32>, item: &RawTry) -> Result<(), AllocError>
    ensures { OnOk result (found.new.items ≡ found.old.items ++ addresses item.now) }
{
    for handler in item.handlers.as_slice() {
        found.push(handler.1)?;
    }
    if let Some(address) = item.catch_all {
        found.push(address)?;
    }
    Ok(())
}

/// Adds the addresses of a try where it covers the pc.
fn push_covered(found: &mut Vec<u32>, item: &RawTry, pc: u32) -> Result<(), AllocError>
    ensures { OnOk result (found.new.items ≡ found.old.items ++ covered item.now pc) }
{
    if is_covered(item, pc) {
        push_addresses(found, item)?;
    }
    Ok(())
}

/// Adds the addresses of the tries that cover a pc.
fn push_covering(found: &mut Vec<u32>, tries: &[&RawTry], pc: u32) -> Result<(), AllocError>
    ensures { OnOk result (found.new.items ≡ found.old.items ++ covering (map (λ t. t.now) tries.now) pc) }
{
    for &item in tries {
        push_covered(found, item, pc)?;
    }
    Ok(())
}

/// More addresses beside these, in order. Where there are no more, the list is shared.
#[tactic(auto, using(crate::proofs::Covering::none_more))]
fn merged(alloc: Global, shared: &Shared<u32>, mut more: Vec<u32>) -> Result<Shared<u32>, Memory>
    requires { in_order shared.now ≡ shared.now }
    ensures { IfOk result (λ s. s ≡ in_order (more.items ++ shared.now)) }
{
    if more.is_empty() {
        return shared.copy();
    }
    more.extend_from_slice(shared.as_slice())?;
    put_in_order(&mut more);
    Shared::from_vec(alloc, more)
}

/// The handlers of one pc.
#[tactic(auto, unfolding(crate::specs::Handlers::catches_beside), using(crate::proofs::Ordered::in_order_swapped))]
fn catches_here(
    alloc: Global,
    shared: &Shared<u32>,
    tries: &[&RawTry],
    pc: u32,
) -> Result<Shared<u32>, Memory>
    requires { in_order shared.now ≡ shared.now }
    ensures { IfOk result (λ s. s ≡ catches_beside shared.now (map (λ t. t.now) tries.now) pc) }
{
    let mut more = Vec::new(alloc);
    push_covering(&mut more, tries, pc)?;
    merged(alloc, shared, more)
}

/// Adds the handlers of each line, one line after the other.
fn push_each(
    alloc: Global,
    shared: &Shared<u32>,
    tries: &[&RawTry],
    lines: &[(u32, Insn)],
    found: &mut Vec<Shared<u32>>,
) -> Result<(), Memory>
    requires { in_order shared.now ≡ shared.now }
    ensures { OnOk result (AddsCatches shared.now (map (λ t. t.now) tries.now) lines.now found.old.items
        found.new.items) }
{
    for line in lines {
        found.push(catches_here(alloc, shared, tries, line.0)?)?;
    }
    Ok(())
}

/// Adds the same list for each line.
fn push_copies(
    shared: &Shared<u32>,
    lines: &[(u32, Insn)],
    found: &mut Vec<Shared<u32>>,
) -> Result<(), Memory>
    ensures { OnOk result (found.new.items ≡ found.old.items ++ map (λ (line : Line). shared.now) lines.now) }
{
    for _ in lines {
        found.push(shared.copy()?)?;
    }
    Ok(())
}

/// Whether a try covers two pcs, and so each between them.
fn covers_both(item: &RawTry, first: u32, last: u32) -> bool
    ensures { IsTrue result ↔ (covers item.now first ≡ true × covers item.now last ≡ true) }
{
    is_covered(item, first) && is_covered(item, last)
}

/// Whether a try begins up to the last pc and ends behind the first: any other covers none of them.
fn meets(item: &RawTry, first: u32, last: u32) -> bool
    ensures { IsTrue result ↔ (item.now.start ≤ last × first < item.now.start + item.now.count) }
{
    item.start <= last && u64::from(first) < u64::from(item.start) + u64::from(item.count)
}

/// Of the pcs from the first to the last: shares the addresses
/// of a try that covers all, and leaves one that may cover some.
fn part_one<'a>(
    shared: &mut Vec<u32>,
    left: &mut Vec<&'a RawTry>,
    item: &'a RawTry,
    first: u32,
    last: u32,
) -> Result<(), AllocError>
    ensures { OnOk result ((tries : List RawTry) → IsParted first last tries shared.old.items
        (map (λ t. t.now) left.old.items) → IsParted first last (tries ++ item.now ∷ []) shared.new.items
        (map (λ t. t.now) left.new.items)) }
{
    if covers_both(item, first, last) {
        push_addresses(shared, item)?;
    } else if meets(item, first, last) {
        left.push(item)?;
    }
    Ok(())
}

/// The addresses that the tries give all pcs from the first to the last, and the tries that may cover only some.
fn parted<'a>(
    alloc: Global,
    tries: &[&'a RawTry],
    first: u32,
    last: u32,
) -> Result<(Vec<u32>, Vec<&'a RawTry>), AllocError>
    ensures { IfOk result (λ r. IsParted first last (map (λ t. t.now) tries.now) r.0.items
        (map (λ t. t.now) r.1.items)) }
{
    let mut shared = Vec::new(alloc);
    let mut left = Vec::new(alloc);
    for &item in tries {
        part_one(&mut shared, &mut left, item, first, last)?;
    }
    Ok((shared, left))
}

/// Adds the handlers of each line, by halving the lines: what covers a whole part is shared, and only tries that begin
/// or end within it are looked at again.
fn fill(
    alloc: Global,
    shared: &Shared<u32>,
    tries: &[&RawTry],
    lines: &[(u32, Insn)],
    found: &mut Vec<Shared<u32>>,
) -> Result<(), Memory>
    requires rise { Ascend lines.now }
    requires order { in_order shared.now ≡ shared.now }
    ensures { OnOk result (AddsCatches shared.now (map (λ t. t.now) tries.now) lines.now found.old.items
        found.new.items) }
{
    if tries.is_empty() {
        return push_copies(shared, lines, found);
    }
    if lines.len() < 2 {
        return push_each(alloc, shared, tries, lines, found);
    }
    let (more, left) = parted(alloc, tries, lines[0].0, lines[lines.len() - 1].0)?;
    let (lower, upper) = lines.split_at(lines.len() / 2);
    let all = merged(alloc, shared, more)?;
    fill(alloc, &all, &left, lower, found)?;
    fill(alloc, &all, &left, upper, found)
}

/// Each try by reference.
fn references(alloc: Global, tries: &[RawTry]) -> Result<Vec<&RawTry>, AllocError>
    ensures { IfOk result (λ v. map (λ t. t.now) v.items ≡ tries.now) }
{
    tries.iter().collect(alloc)
}

/// The addresses of the handlers that cover each line, each once,
/// ascending. Lines that a try covers together share their list.
pub fn catches_of_lines(
    alloc: Global,
    tries: &[RawTry],
    lines: &[(u32, Insn)],
) -> Result<Vec<Shared<u32>>, Memory>
    requires { Ascend lines.now }
    ensures { IfOk result (λ v. v.items ≡ map (λ (line : Line). catches_of tries.now line.0) lines.now) }
{
    let all = references(alloc, tries)?;
    let none = Shared::new();
    let mut found = Vec::new(alloc);
    fill(alloc, &none, &all, lines, &mut found)?;
    Ok(found)
}

//! How many classes instructions ask for the fields that they name.

use app_model::Class;
use dex_code::{Insn, Naming};
use dex_tables::Dex;
use link_code::Coded;
use link_hierarchy::order_of;
use link_listing::{Classes, name_cost, spend, type_at};
use std::alloc::Global;
use std::collections::BTreeMap;
use vet_base::{Memory, Name};

/// The bytes that the names of all classes asked for fields may come to, each counted as often as it may be asked, and
/// with 64 more: some 20 million classes.
const ASKED: u64 = 2_147_483_648;

/// What a look-up that finds nothing asks from a class on: along superclasses, as for an instance field, and through
/// the interfaces too, as for a static one. An interface counts once for each way to it, so that is counted from above.
#[derive(Clone, Copy)]
struct Climb {
    upward: u64,
    everywhere: u64,
}

type Climbs = BTreeMap<Name, Climb>;

fn climb_from(climbs: &Climbs, name: &Name) -> Climb {
    match climbs.get(name) {
        Some(climb) => *climb,
        None => Climb {
            upward: name_cost(name),
            everywhere: name_cost(name),
        },
    }
}

fn climb_of(climbs: &Climbs, name: &Name, class: &Class) -> Climb {
    let own = name_cost(name);
    let mut climb = Climb {
        upward: own,
        everywhere: own,
    };
    if let Some(superclass) = &class.superclass {
        let above = climb_from(climbs, superclass);
        climb.upward = climb.upward.saturating_add(above.upward);
        climb.everywhere = climb.everywhere.saturating_add(above.everywhere);
    }
    for interface in class.interfaces.as_slice() {
        let above = climb_from(climbs, interface);
        climb.everywhere = climb.everywhere.saturating_add(above.everywhere);
    }
    climb
}

/// The climb from each class.
fn climbs_of(alloc: Global, classes: &Classes) -> Result<Climbs, Memory> {
    let mut climbs = BTreeMap::new(alloc);
    for name in &order_of(alloc, classes)? {
        if let Some(class) = classes.get(name) {
            let climb = climb_of(&climbs, name, class);
            climbs.insert(name.copy()?, climb)?;
        }
    }
    Ok(climbs)
}

/// The climb from the class of each field that a file names.
fn climbs_named(alloc: Global, climbs: &Climbs, dex: &Dex) -> Result<Vec<Climb>, Memory> {
    let mut named = Vec::new(alloc);
    for row in dex.fields.as_slice() {
        let class = type_at(alloc, dex, row.class)?;
        named.push(climb_from(climbs, &class))?;
    }
    Ok(named)
}

fn climb_cost(named: &[Climb], insn: &Insn) -> u64 {
    match insn.naming() {
        Naming::InstanceField(i) => match named.get(i as usize) {
            Some(climb) => climb.upward,
            None => 0,
        },
        Naming::StaticField(i) => match named.get(i as usize) {
            Some(climb) => climb.everywhere,
            None => 0,
        },
        _ => 0,
    }
}

/// Answers want of memory where instructions may ask more classes for their fields than `ASKED`.
pub(crate) fn check_climbs(
    alloc: Global,
    dexes: &[Dex],
    classes: &Classes,
    coded: &[Coded],
) -> Result<(), Memory> {
    let climbs = climbs_of(alloc, classes)?;
    let mut named = Vec::new(alloc);
    for dex in dexes {
        named.push(climbs_named(alloc, &climbs, dex)?)?;
    }
    let mut left = ASKED;
    for method in coded {
        if let Some(named) = named.get(method.dex) {
            for (_, insn) in method.decoded.lines.as_slice() {
                spend(&mut left, climb_cost(named, insn))?;
            }
        }
    }
    Ok(())
}

use access_path::Path;
use fact_rows::{Activation, Ctx, Field, Kind, Node, Parts, Row, Site, Table};
use sorted_table::SortedVec;
use std::alloc::Global;
use std::mem::size_of;
use std::test::Fail;
use vet_base::{KeyId, Memory};

/// Adds the rows of 3,000 components, the last one first; whether each was new.
fn add_falling(table: &mut Table) -> Result<bool, Memory> {
    let mut is_new = true;
    for i in 0..3_000 {
        is_new = table.add(Row::Live(2_999 - i, 0))? && is_new;
    }
    Ok(is_new)
}

/// The first place whose row is not that of the component of this number.
fn first_other(table: &Table) -> Option<usize> {
    for (place, component) in (0..3_000).enumerate() {
        if place < table.len() && *table.row(place) != Row::Live(component, 0) {
            return Some(place);
        }
    }
    None
}

/// Whether the rows were new, how many there are, and where they do not rise.
fn falling(alloc: Global) -> Result<(bool, usize, Option<usize>), Memory> {
    let mut table = Table::new(alloc);
    let is_new = add_falling(&mut table)?;
    Ok((is_new, table.len(), first_other(&table)))
}

#[test]
fn rows_added_from_the_last_on_stand_from_the_first_on(rt: HostRuntime) -> Result<(), Fail> {
    assert_eq!(rt; falling(rt.alloc())?, (true, 3_000, None));
    Ok(())
}

/// Rows of several kinds that come in no order, some of them twice.
fn some_row(i: u32) -> Row {
    let ctx = if i % 2 == 0 {
        Ctx::Call(i % 7, i % 3)
    } else {
        Ctx::Call2(i % 7, i % 3, i % 5, i % 2)
    };
    let node = Node {
        by: Activation { ctx, method: i % 5 },
        pc: i % 11,
    };
    match i % 4 {
        0 => Row::Points(node, i % 13, Site::Shared(i % 17)),
        1 => Row::Cell(Site::At(node), KeyId(i % 13), Site::Component(i % 17)),
        2 => Row::Taint(node, i % 13, Path::empty(), 0),
        _ => Row::Live(i % 23, 1),
    }
}

/// Adds rows to both; the number of the first row that they do not look for and add alike.
fn fill(table: &mut Table, plain: &mut SortedVec<Row>) -> Result<Option<u32>, Memory> {
    for i in 0..6_000u32 {
        let row = some_row(i.wrapping_mul(2_654_435_761));
        let is_known = table.has(&row) == plain.has(&row);
        let is_new = table.add(row)?;
        if plain.add(row)? != is_new || !is_known {
            return Ok(Some(i));
        }
    }
    Ok(None)
}

/// The first place whose rows differ.
fn other_row(table: &Table, plain: &SortedVec<Row>) -> Option<usize> {
    for place in 0..plain.len() {
        if place < table.len() && table.row(place) != plain.row(place) {
            return Some(place);
        }
    }
    None
}

/// The first of 200 rows under whose fields they do not find the same range.
fn other_range(table: &Table, plain: &SortedVec<Row>) -> Option<u32> {
    for i in 0..200u32 {
        let head = some_row(i).parts();
        if table.range(&head) != plain.range(&head) {
            return Some(i);
        }
    }
    None
}

/// Whether the table and the vector have as many rows, and the first difference of adding, of rows and of ranges.
type Likeness = (bool, Option<u32>, Option<usize>, Option<u32>);

fn likeness(alloc: Global) -> Result<Likeness, Memory> {
    let mut table = Table::new(alloc);
    let mut plain = SortedVec::new(alloc);
    let added = fill(&mut table, &mut plain)?;
    let is_as_long = table.len() == plain.len();
    let row = other_row(&table, &plain);
    let range = other_range(&table, &plain);
    Ok((is_as_long, added, row, range))
}

#[test]
fn the_table_and_the_vector_agree(rt: HostRuntime) -> Result<(), Fail> {
    assert_eq!(rt; likeness(rt.alloc())?, (true, None, None, None));
    Ok(())
}

fn add_lives(table: &mut Table) -> Result<(), Memory> {
    for component in 0..3 {
        table.add(Row::Live(component, 0))?;
        table.add(Row::Live(component, 2))?;
    }
    table.add(Row::Handed(Site::Component(1)))?;
    Ok(())
}

fn live(component: u32) -> Parts {
    Parts::one(Kind::Live, Field::Component(component))
}

/// Where the rows of two components and of three kinds stand.
fn ranges_of_lives(alloc: Global) -> Result<[(usize, usize); 5], Memory> {
    let mut table = Table::new(alloc);
    add_lives(&mut table)?;
    Ok([
        table.range(&live(1)),
        table.range(&live(7)),
        table.range(&Parts::of(Kind::Live)),
        table.range(&Parts::of(Kind::Handed)),
        table.range(&Parts::of(Kind::Calls)),
    ])
}

#[test]
fn rows_are_found_by_kind_and_first_field(rt: HostRuntime) -> Result<(), Fail> {
    let wanted = [(2, 4), (6, 6), (0, 6), (6, 7), (0, 0)];
    assert_eq!(rt; ranges_of_lives(rt.alloc())?, wanted);
    Ok(())
}

const BY: Activation = Activation {
    ctx: Ctx::Call2(1, 2, 3, 4),
    method: 5,
};

const NODE: Node = Node { by: BY, pc: 6 };

fn add_four_kinds(table: &mut Table, i: u8, j: u8) -> Result<(), Memory> {
    let site = Site::Component(u32::from(j));
    let key = KeyId(u32::from(i));
    table.add(Row::Points(NODE, u32::from(i), site))?;
    table.add(Row::Cell(site, key, Site::Shared(0)))?;
    table.add(Row::Effect(NODE, site, Path::empty(), i))?;
    table.add(Row::ExitTaint(BY, j, Path::empty(), i))?;
    Ok(())
}

fn add_each_twice(table: &mut Table) -> Result<(), Memory> {
    for i in 0..3 {
        for j in 0..2 {
            add_four_kinds(table, i, j)?;
        }
    }
    Ok(())
}

/// Where the rows of four kinds with two fields, and of one with one, stand.
fn ranges_by_two_fields(alloc: Global) -> Result<[(usize, usize); 5], Memory> {
    let mut table = Table::new(alloc);
    add_each_twice(&mut table)?;
    let at = Field::Node(NODE);
    let site = Field::Site(Site::Component(1));
    let by = Field::Activation(BY);
    Ok([
        table.range(&Parts::two(Kind::Points, at, Field::Register(NODE, 1))),
        table.range(&Parts::two(Kind::Cell, site, Field::Key(KeyId(2)))),
        table.range(&Parts::two(Kind::Effect, at, site)),
        table.range(&Parts::two(Kind::ExitTaint, by, Field::Exit(0))),
        table.range(&Parts::one(Kind::Effect, at)),
    ])
}

#[test]
fn rows_are_found_by_kind_and_two_fields(rt: HostRuntime) -> Result<(), Fail> {
    let wanted = [(2, 4), (11, 12), (15, 18), (18, 21), (12, 18)];
    assert_eq!(rt; ranges_by_two_fields(rt.alloc())?, wanted);
    Ok(())
}

#[test]
fn a_row_takes_ninety_six_bytes(rt: HostRuntime) {
    assert_eq!(rt; size_of::<Row>(), 96);
}

//! What samples say.
use crate::names::text_of;
use app_machine::{Gives, Layouts, LibClass, Lists, Summary};
use office_forms::{read_layouts, read_lists, read_office};
use std::alloc::{AllocError, Global};
use std::{fs, io};
use store_office::Office;
use vet_base::Name;

/// Prints each row of the lists in a file.
pub fn print_lists(rt: &HostRuntime, name: &str) -> io::Result<()> {
    let text = fs::read_to_string(rt, name)?;
    match read_lists(rt.alloc(), text.as_bytes()) {
        Ok(read) => print_rows(rt, &read.lists),
        Err(_) => println!(rt; "{name}: not read"),
    }
}

fn print_rows(rt: &HostRuntime, lists: &Lists) -> io::Result<()> {
    println!(rt; "rows {}", lists.rows)?;
    print_names(rt, "categories", lists.categories.as_slice())?;
    for class in lists.classes.as_slice() {
        print_class(rt, class)?;
    }
    for shared in lists.shared.as_slice() {
        println!(rt; "shared {} {}", text_of(&shared.0), text_of(&shared.1))?;
    }
    for method in lists.methods.as_slice() {
        print_method(rt, method)?;
    }
    println!(rt; "callbacks {}", lists.callbacks.len())
}

fn print_class(rt: &HostRuntime, class: &LibClass) -> io::Result<()> {
    let above = texts(rt.alloc(), class.above.as_slice())?;
    println!(rt; "class{above}, default {:?}", class.fallback)
}

fn print_method(rt: &HostRuntime, method: &Summary) -> io::Result<()> {
    let row = row_of(rt.alloc(), method)?;
    println!(rt; "{row}")
}

/// Prints a word and the names.
fn print_names(rt: &HostRuntime, word: &str, names: &[Name]) -> io::Result<()> {
    let texts = texts(rt.alloc(), names)?;
    println!(rt; "{word}{texts}")
}

/// Prints the clicks and the classes of the layouts in a file.
pub fn print_layouts(rt: &HostRuntime, name: &str) -> io::Result<()> {
    let text = fs::read_to_string(rt, name)?;
    match read_layouts(rt.alloc(), text.as_bytes()) {
        Ok(layouts) => print_elements(rt, &layouts),
        Err(_) => println!(rt; "{name}: not read"),
    }
}

fn print_elements(rt: &HostRuntime, layouts: &Layouts) -> io::Result<()> {
    print_names(rt, "clicks", layouts.clicks.as_slice())?;
    print_names(rt, "classes", layouts.classes.as_slice())
}

/// Prints what an office file says, with each party's name, role and token.
pub fn print_office(rt: &HostRuntime, name: &str) -> io::Result<()> {
    let text = fs::read_to_string(rt, name)?;
    match read_office(rt.alloc(), text.as_bytes()) {
        Ok(office) => print_parties(rt, &office),
        Err(_) => println!(rt; "{name}: not read"),
    }
}

fn print_parties(rt: &HostRuntime, office: &Office) -> io::Result<()> {
    println!(rt;
        "port {}, workers {}, appeal days {}",
        office.port, office.workers, office.appeal_days
    )?;
    for party in office.parties.as_slice() {
        let token = text_of(&party.token);
        println!(rt; "{:?} {} {token}", party.role, text_of(&party.name))?;
    }
    Ok(())
}

/// The names, each behind a space.
fn texts(alloc: Global, names: &[Name]) -> Result<String, AllocError> {
    let mut line = String::new(alloc);
    for name in names {
        line.push_str(" ")?;
        line.push_str(text_of(name))?;
    }
    Ok(line)
}

/// What the lists say of a method: its result, where its arguments go, and its labels.
fn row_of(alloc: Global, row: &Summary) -> Result<String, AllocError> {
    let mut line = signature_of(alloc, row)?;
    let result = result_of(alloc, &row.gives)?;
    let puts = row.puts.as_slice();
    let stores = row.stores.as_slice();
    let copies = row.copies.as_slice();
    let source = row.source;
    write!(
        line,
        " {result}, puts {puts:?} stores {stores:?} copies {copies:?} source {source:?}"
    )?;
    if let Some((category, positions)) = &row.sink {
        let positions = positions.as_slice();
        write!(line, " sink {category} {positions:?}")?;
    }
    if row.reflective {
        line.push_str(" reflective")?;
    }
    Ok(line)
}

fn signature_of(alloc: Global, row: &Summary) -> Result<String, AllocError> {
    let mut line = String::new(alloc);
    line.push_str(if row.is_static { "static " } else { "" })?;
    line.push_str(text_of(&row.class))?;
    line.push_str("->")?;
    line.push_str(text_of(&row.name))?;
    line.push_str("(")?;
    for param in row.proto.params.as_slice() {
        line.push_str(text_of(param))?;
    }
    line.push_str(")")?;
    line.push_str(text_of(&row.proto.ret))?;
    Ok(line)
}

fn result_of(alloc: Global, gives: &Gives) -> Result<String, AllocError> {
    match gives {
        Gives::Blank => format!(in alloc; "blank"),
        Gives::Same(position) => format!(in alloc; "same {position}"),
        Gives::Taken(position) => format!(in alloc; "taken {position}"),
        Gives::Joined(positions) => {
            let positions = positions.as_slice();
            format!(in alloc; "joined {positions:?}")
        }
        Gives::Shared(number) => format!(in alloc; "shared {number}"),
        Gives::Handed => format!(in alloc; "handed"),
    }
}

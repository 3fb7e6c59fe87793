//! What is printed of a refusal: the part and the reason.

ghost use Rattle.std.specs.Prelude.{◌≡◌, ◌++◌, codes, string_bytes, OnOk};
ghost use Rattle.std.specs.Fmt.{decimal};
ghost use Rattle.printed_text.specs.Printed.{escaped};
ghost use Rattle.verdict_report.specs.Reasons.{dex_name, part_name, form_reason, dex_reason};
ghost use Rattle.verdict_report.specs.Reasons.{code_reason, member_name, link_reason, reason_text};

use crate::printed::put_method;
use app_link::LinkFault;
use dex_code::CodeFault;
use dex_reader::DexFault;
use office_forms::FormFault;
use printed_text::{put, put_name, put_number};
use std::alloc::{AllocError, Global};
use verdict::{Part, Reason};
use vet_base::{Memory, Name};

type Text = Vec<u8>;

#[tactic(auto, unfolding(crate::specs::Reasons::dex_name, crate::specs::Reasons::first_dex_name, crate::specs::Reasons::numbered_dex_name))]
fn push_dex_name(alloc: Global, name: &mut String, i: u32) -> Result<(), AllocError>
    ensures { OnOk result (string_bytes name.new ≡ string_bytes name.old ++ dex_name i) }
{
    if i == 0 {
        return name.push_str("classes.dex");
    }
    let number = u64::from(i) + 1;
    let file = format!(in alloc; "classes{number}.dex")?;
    name.push_str(file.as_str())
}

/// Adds the name of the part's file, or `app`, at the end. After want of memory a part of it may be there.
#[tactic(auto, unfolding(crate::specs::Reasons::part_name))]
pub fn push_part_name(alloc: Global, name: &mut String, part: Part) -> Result<(), AllocError>
    ensures { OnOk result (string_bytes name.new ≡ string_bytes name.old ++ part_name part) }
{
    match part {
        Part::Manifest => name.push_str("manifest.toml"),
        Part::Layouts => name.push_str("layouts.toml"),
        Part::Declaration => name.push_str("declaration.toml"),
        Part::Lists => name.push_str("lists.toml"),
        Part::Dex(i) => push_dex_name(alloc, name, i),
        Part::App => name.push_str("app"),
    }
}

/// Adds the name of the part's file to a text.
pub fn put_part(alloc: Global, text: &mut Text, part: Part) -> Result<(), Memory>
    ensures { OnOk result (text.new.items ≡ text.old.items ++ part_name part) }
{
    let mut name = String::new(alloc);
    push_part_name(alloc, &mut name, part)?;
    put(text, name.as_bytes())
}

/// Adds a word and a name.
fn put_named(text: &mut Text, word: &[u8], name: &Name) -> Result<(), Memory>
    ensures { OnOk result (text.new.items ≡ text.old.items ++ word.now ++ escaped name.now) }
{
    put(text, word)?;
    put_name(text, name.as_bytes())
}

/// Adds why a form is refused, at the end, as a report says it. After want of memory a part of it may be there.
#[tactic(auto, unfolding(crate::specs::Reasons::form_reason))]
pub fn put_form_reason(text: &mut Vec<u8>, fault: &FormFault) -> Result<(), Memory>
    ensures { OnOk result (text.new.items ≡ text.old.items ++ form_reason fault.now) }
{
    match fault {
        FormFault::NotToml => put(text, b"not toml".as_slice()),
        FormFault::Missing(key) => put_named(text, b"missing ".as_slice(), key),
        FormFault::Wrong(key) => put_named(text, b"wrong ".as_slice(), key),
        FormFault::Unknown(key) => put_named(text, b"unknown ".as_slice(), key),
        FormFault::Range(key) => put_named(text, b"range ".as_slice(), key),
        FormFault::Twice(name) => put_named(text, b"twice ".as_slice(), name),
        FormFault::Memory => put(text, b"memory".as_slice()),
    }
}

#[tactic(auto, unfolding(crate::specs::Reasons::dex_reason))]
fn put_dex_reason(alloc: Global, text: &mut Text, fault: &DexFault) -> Result<(), Memory>
    ensures { OnOk result (text.new.items ≡ text.old.items ++ dex_reason fault.now) }
{
    match fault {
        DexFault::Magic => put(text, b"magic".as_slice()),
        DexFault::Header(field) => {
            put(text, b"header ".as_slice())?;
            put_name(text, field.as_bytes())
        }
        DexFault::Outside(at) => {
            put(text, b"outside at ".as_slice())?;
            put_number(alloc, text, *at as usize)
        }
        DexFault::Index(table, row) => {
            put(text, b"index in ".as_slice())?;
            put_name(text, table.as_bytes())?;
            put(text, b" row ".as_slice())?;
            put_number(alloc, text, *row as usize)
        }
        DexFault::Text(at) => {
            put(text, b"text at ".as_slice())?;
            put_number(alloc, text, *at as usize)
        }
        DexFault::Leb(at) => {
            put(text, b"leb at ".as_slice())?;
            put_number(alloc, text, *at as usize)
        }
        DexFault::TooMany(table) => {
            put(text, b"too many ".as_slice())?;
            put_name(text, table.as_bytes())
        }
        DexFault::Memory => put(text, b"memory".as_slice()),
    }
}

/// Adds a word and a number.
fn put_numbered(alloc: Global, text: &mut Text, word: &[u8], n: u32) -> Result<(), Memory>
    ensures { OnOk result (text.new.items ≡ text.old.items ++ word.now ++ decimal n) }
{
    put(text, word)?;
    put_number(alloc, text, n as usize)
}

#[tactic(auto, unfolding(crate::specs::Reasons::code_reason))]
fn put_code_reason(alloc: Global, text: &mut Text, fault: &CodeFault) -> Result<(), Memory>
    ensures { OnOk result (text.new.items ≡ text.old.items ++ code_reason fault.now) }
{
    match fault {
        CodeFault::Opcode(pc) => put_numbered(alloc, text, b"opcode at ".as_slice(), *pc),
        CodeFault::Cut(pc) => put_numbered(alloc, text, b"cut at ".as_slice(), *pc),
        CodeFault::Target(pc) => put_numbered(alloc, text, b"target at ".as_slice(), *pc),
        CodeFault::Register(pc) => put_numbered(alloc, text, b"register at ".as_slice(), *pc),
        CodeFault::Payload(pc) => put_numbered(alloc, text, b"payload at ".as_slice(), *pc),
        CodeFault::Tries(number) => put_numbered(alloc, text, b"tries ".as_slice(), *number),
        CodeFault::FallsOff(pc) => put_numbered(alloc, text, b"falls off at ".as_slice(), *pc),
        CodeFault::Index(pc) => put_numbered(alloc, text, b"index at ".as_slice(), *pc),
        CodeFault::Memory => put(text, b"memory".as_slice()),
    }
}

/// Adds a word, a class and the name of a member of it.
#[tactic(auto, unfolding(crate::specs::Reasons::member_name))]
fn put_member(text: &mut Text, word: &[u8], class: &Name, member: &Name) -> Result<(), Memory>
    ensures { OnOk result (text.new.items ≡ text.old.items ++ word.now ++ member_name class.now member.now) }
{
    put(text, word)?;
    put_name(text, class.as_bytes())?;
    put(text, b"->".as_slice())?;
    put_name(text, member.as_bytes())
}

#[tactic(auto, unfolding(crate::specs::Reasons::link_reason))]
fn put_link_reason(alloc: Global, text: &mut Text, fault: &LinkFault) -> Result<(), Memory>
    ensures { OnOk result (text.new.items ≡ text.old.items ++ link_reason fault.now) }
{
    match fault {
        LinkFault::TwoClasses(class) => put_named(text, b"two classes ".as_slice(), class),
        LinkFault::TwoMembers(class, member) => {
            put_member(text, b"two members ".as_slice(), class, member)
        }
        LinkFault::NoClass(class) => put_named(text, b"no class ".as_slice(), class),
        LinkFault::Circle(class) => put_named(text, b"circle ".as_slice(), class),
        LinkFault::Code(method, fault) => {
            put(text, b"code ".as_slice())?;
            put_method(text, method)?;
            put(text, b": ".as_slice())?;
            put_code_reason(alloc, text, fault)
        }
        LinkFault::TooMany(what) => put_named(text, b"too many ".as_slice(), what),
        LinkFault::Memory => put(text, b"memory".as_slice()),
    }
}

/// Adds the reason of a refusal.
#[tactic(auto, unfolding(crate::specs::Reasons::reason_text))]
pub fn put_reason(alloc: Global, text: &mut Text, reason: &Reason) -> Result<(), Memory>
    ensures { OnOk result (text.new.items ≡ text.old.items ++ reason_text reason.now) }
{
    match reason {
        Reason::Absent => put(text, b"absent".as_slice()),
        Reason::TooLong(limit) => {
            put(text, b"longer than ".as_slice())?;
            put_number(alloc, text, *limit as usize)
        }
        Reason::Form(fault) => put_form_reason(text, fault),
        Reason::Dex(fault) => put_dex_reason(alloc, text, fault),
        Reason::Link(fault) => put_link_reason(alloc, text, fault),
    }
}

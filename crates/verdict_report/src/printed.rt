//! What is printed: methods, places, and the lines of a report. Each function adds its text at the end; after want of
//! memory a part of it may be there.

ghost use Rattle.std.specs.Prelude.{◌≡◌, ◌++◌, codes, take, OnOk};
ghost use Rattle.app_machine.specs.Names.{joined, descriptor_of};
ghost use Rattle.printed_text.specs.Printed.{escaped};
ghost use Rattle.verdict_report.specs.Printed.{method_text, place_text, finding_line, place_line};
ghost use Rattle.verdict_report.specs.Printed.{class_line, method_line, counted_line};

use app_model::{MethodRef, Proto};
use printed_text::{put, put_name, put_number};
use std::alloc::Global;
use verdict::{Finding, MethodName, Place};
use vet_base::{Memory, Name};

type Text = Vec<u8>;

fn put_types(text: &mut Text, types: &[Name]) -> Result<(), Memory>
    ensures { OnOk result (text.new.items ≡ text.old.items ++ escaped (joined types.now)) }
{
    for kind in types {
        put_name(text, kind.as_bytes())?;
    }
    Ok(())
}

/// Adds the descriptor of a method, escaped.
fn put_descriptor(text: &mut Text, proto: &Proto) -> Result<(), Memory>
    ensures { OnOk result (text.new.items ≡ text.old.items ++ escaped (descriptor_of proto.now)) }
{
    put_name(text, b"(".as_slice())?;
    put_types(text, proto.params.as_slice())?;
    put_name(text, b")".as_slice())?;
    put_name(text, proto.ret.as_bytes())?;
    Ok(())
}

/// Adds a method: its class, name and descriptor.
#[tactic(auto, unfolding(crate::specs::Printed::method_text))]
pub fn put_method(text: &mut Text, at: &MethodRef) -> Result<(), Memory>
    ensures { OnOk result (text.new.items ≡ text.old.items ++ method_text at.now) }
{
    put_name(text, at.class.as_bytes())?;
    put(text, b"->".as_slice())?;
    put_name(text, at.name.as_bytes())?;
    put_descriptor(text, &at.proto)
}

/// Adds an instruction: its method, and its address there.
#[tactic(auto, unfolding(crate::specs::Printed::place_text))]
fn put_place(alloc: Global, text: &mut Text, place: &Place) -> Result<(), Memory>
    ensures { OnOk result (text.new.items ≡ text.old.items ++ place_text place.now) }
{
    put_method(text, &place.at)?;
    put(text, b" @".as_slice())?;
    put_number(alloc, text, place.pc as usize)
}

/// Adds the line of a finding.
#[tactic(auto, unfolding(crate::specs::Printed::finding_line))]
pub fn put_finding(alloc: Global, text: &mut Text, finding: &Finding) -> Result<(), Memory>
    ensures { OnOk result (text.new.items ≡ text.old.items ++ finding_line finding.now) }
{
    put_name(text, finding.source.as_bytes())?;
    put(text, b" -> ".as_slice())?;
    put_name(text, finding.sink.as_bytes())?;
    put(text, b" at ".as_slice())?;
    put_place(alloc, text, &finding.at)?;
    put(text, b"\n".as_slice())
}

/// Adds the line of a cause that stands at an instruction.
#[tactic(auto, unfolding(crate::specs::Printed::place_line))]
pub fn put_place_line(
    alloc: Global,
    text: &mut Text,
    word: &[u8],
    place: &Place,
) -> Result<(), Memory>
    ensures { OnOk result (text.new.items ≡ text.old.items ++ place_line word.now place.now) }
{
    put(text, word)?;
    put_place(alloc, text, place)?;
    put(text, b"\n".as_slice())
}

/// Adds the line of a cause that names a class.
#[tactic(auto, unfolding(crate::specs::Printed::class_line))]
pub fn put_class_line(text: &mut Text, word: &[u8], class: &Name) -> Result<(), Memory>
    ensures { OnOk result (text.new.items ≡ text.old.items ++ class_line word.now class.now) }
{
    put(text, word)?;
    put_name(text, class.as_bytes())?;
    put(text, b"\n".as_slice())
}

/// Adds the line of a cause that names a method.
#[tactic(auto, unfolding(crate::specs::Printed::method_line))]
pub fn put_method_line(text: &mut Text, word: &[u8], method: &MethodName) -> Result<(), Memory>
    ensures { OnOk result (text.new.items ≡ text.old.items ++ method_line word.now method.now) }
{
    put(text, word)?;
    put_name(text, method.class.as_bytes())?;
    put(text, b"->".as_slice())?;
    put_name(text, method.name.as_bytes())?;
    put_name(text, method.descriptor.as_bytes())?;
    put(text, b"\n".as_slice())
}

/// Adds a word of the report with a number.
#[tactic(auto, unfolding(crate::specs::Printed::counted_line))]
pub fn put_counted(alloc: Global, text: &mut Text, word: &[u8], n: usize) -> Result<(), Memory>
    ensures { OnOk result (text.new.items ≡ text.old.items ++ counted_line word.now n) }
{
    put(text, word)?;
    put_number(alloc, text, n)?;
    put(text, b"\n".as_slice())
}

//! A listing as text, a line for each class, member and instruction.
use crate::names::text_of;
use dex_maker::{ListedClass, ListedCode, ListedLine, ListedMethod, Listing, Operand};
use std::io::{self, Write};
use vet_base::Name;

fn write_descriptor<W: Write>(out: &mut W, params: &[Name], ret: &Name) -> io::Result<()> {
    write!(out, ":(")?;
    for kind in params {
        write!(out, "{}", text_of(kind))?;
    }
    write!(out, "){}", text_of(ret))
}

fn write_operand<W: Write>(out: &mut W, operand: &Operand) -> io::Result<()> {
    match operand {
        Operand::Nothing => Ok(()),
        Operand::Text(name) => write!(out, " {:?}", text_of(name)),
        Operand::Class(class) => write!(out, " {}", text_of(class)),
        Operand::Field(class, name, kind) => {
            let (class, name, kind) = (text_of(class), text_of(name), text_of(kind));
            write!(out, " {class}.{name}:{kind}")
        }
        Operand::Method(class, name, params, ret) => {
            write!(out, " {}.{}", text_of(class), text_of(name))?;
            write_descriptor(out, params.as_slice(), ret)
        }
    }
}

/// The opcode in hexadecimal digits, the registers, a literal other than 0, and what the index names.
fn write_line<W: Write>(out: &mut W, line: &ListedLine) -> io::Result<()> {
    let ListedLine::Plain(opcode, registers, literal, operand, _) = line else {
        return writeln!(out, "    payload");
    };
    write!(out, "    {opcode:02x}")?;
    for register in registers.as_slice() {
        write!(out, " v{register}")?;
    }
    if *literal != 0 {
        write!(out, " #{literal}")?;
    }
    write_operand(out, operand)?;
    writeln!(out)
}

fn write_code<W: Write>(out: &mut W, code: &ListedCode) -> io::Result<()> {
    let (registers, ins, tries) = (code.registers, code.ins, code.tries.len());
    writeln!(out, "    registers {registers} ins {ins} tries {tries}")?;
    for line in code.lines.as_slice() {
        write_line(out, line)?;
    }
    Ok(())
}

fn write_method<W: Write>(out: &mut W, method: &ListedMethod) -> io::Result<()> {
    let (flags, name) = (method.flags, text_of(&method.name));
    write!(out, "  method {flags:#06x} {name}")?;
    write_descriptor(out, method.params.as_slice(), &method.ret)?;
    writeln!(out)?;
    match &method.code {
        Some(code) => write_code(out, code),
        None => Ok(()),
    }
}

fn write_class<W: Write>(out: &mut W, class: &ListedClass) -> io::Result<()> {
    write!(out, "class {:#06x} {}", class.flags, text_of(&class.name))?;
    if let Some(above) = &class.superclass {
        write!(out, " extends {}", text_of(above))?;
    }
    writeln!(out, " interfaces {}", class.interfaces.len())?;
    for field in class.fields.as_slice() {
        let (flags, name, kind) = (field.flags, text_of(&field.name), text_of(&field.kind));
        writeln!(out, "  field {flags:#06x} {name}:{kind}")?;
    }
    for method in class.methods.as_slice() {
        write_method(out, method)?;
    }
    Ok(())
}

/// Writes the classes with their members and instructions, a line each.
pub fn write_listing<W: Write>(out: &mut W, listing: &Listing) -> io::Result<()> {
    for class in listing.classes.as_slice() {
        write_class(out, class)?;
    }
    Ok(())
}

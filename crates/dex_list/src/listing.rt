use dex_tables::{Body, ClassDef, Dex, Member, RawCode};
use std::io::{self, Write};

/// Bytes as text, each that is no printing ASCII character in hexadecimal.
pub fn text<W: Write>(out: &mut W, bytes: &[u8]) -> io::Result<()> {
    for b in bytes {
        if *b >= 0x20 && *b < 0x7F && *b != b'\\' {
            out.write_all(&[*b])?;
        } else {
            write!(out, "\\{:02x}", *b)?;
        }
    }
    Ok(())
}

fn string<W: Write>(out: &mut W, dex: &Dex, index: u32) -> io::Result<()> {
    match dex.strings.get(index as usize) {
        Some(name) => text(out, name.as_bytes()),
        None => write!(out, "?"),
    }
}

fn descriptor<W: Write>(out: &mut W, dex: &Dex, index: u32) -> io::Result<()> {
    match dex.types.get(index as usize) {
        Some(name) => string(out, dex, *name),
        None => write!(out, "?"),
    }
}

fn prototype<W: Write>(out: &mut W, dex: &Dex, index: u32) -> io::Result<()> {
    let Some(proto) = dex.protos.get(index as usize) else {
        return write!(out, "?");
    };
    write!(out, "(")?;
    for param in proto.params.as_slice() {
        descriptor(out, dex, *param)?;
    }
    write!(out, ")")?;
    descriptor(out, dex, proto.ret)
}

fn field<W: Write>(out: &mut W, dex: &Dex, kind: &str, member: &Member) -> io::Result<()> {
    write!(out, "  {kind} ")?;
    if let Some(id) = dex.fields.get(member.index as usize) {
        string(out, dex, id.name)?;
        write!(out, " ")?;
        descriptor(out, dex, id.kind)?;
    }
    writeln!(out, " {:#06x}", member.flags)
}

fn code_of<W: Write>(out: &mut W, dex: &Dex, code: &RawCode) -> io::Result<()> {
    writeln!(
        out,
        "    registers {} ins {} outs {} units {}",
        code.registers,
        code.ins,
        code.outs,
        code.units.len()
    )?;
    for unit in code.units.as_slice() {
        write!(out, " {:04x}", *unit)?;
    }
    writeln!(out)?;
    for item in code.tries.as_slice() {
        writeln!(out, "    try {:#06x} {}", item.start, item.count)?;
        for (kind, address) in item.handlers.as_slice() {
            write!(out, "      ")?;
            descriptor(out, dex, *kind)?;
            writeln!(out, " {:#06x}", *address)?;
        }
        if let Some(address) = item.catch_all {
            writeln!(out, "      any {address:#06x}")?;
        }
    }
    Ok(())
}

fn method<W: Write>(out: &mut W, dex: &Dex, kind: &str, body: &Body) -> io::Result<()> {
    write!(out, "  {kind} ")?;
    if let Some(id) = dex.methods.get(body.index as usize) {
        string(out, dex, id.name)?;
        write!(out, " ")?;
        prototype(out, dex, id.proto)?;
    }
    writeln!(out, " {:#06x}", body.flags)?;
    if let Some(code) = &body.code {
        code_of(out, dex, code)?;
    }
    Ok(())
}

fn class<W: Write>(out: &mut W, dex: &Dex, class: &ClassDef) -> io::Result<()> {
    write!(out, "class ")?;
    descriptor(out, dex, class.class)?;
    write!(out, " {:#06x}", class.flags)?;
    if let Some(above) = class.superclass {
        write!(out, " extends ")?;
        descriptor(out, dex, above)?;
    }
    writeln!(out)?;
    for interface in class.interfaces.as_slice() {
        write!(out, "  implements ")?;
        descriptor(out, dex, *interface)?;
        writeln!(out)?;
    }
    for member in class.statics.as_slice() {
        field(out, dex, "static", member)?;
    }
    for member in class.instances.as_slice() {
        field(out, dex, "instance", member)?;
    }
    for body in class.directs.as_slice() {
        method(out, dex, "direct", body)?;
    }
    for body in class.virtuals.as_slice() {
        method(out, dex, "virtual", body)?;
    }
    Ok(())
}

/// All that stands in the file, a line an item.
pub fn list<W: Write>(out: &mut W, dex: &Dex) -> io::Result<()> {
    for name in dex.strings.as_slice() {
        write!(out, "string ")?;
        text(out, name.as_bytes())?;
        writeln!(out)?;
    }
    for each in dex.classes.as_slice() {
        class(out, dex, each)?;
    }
    Ok(())
}

use dex_code::{CodeFault, Counts, Insn, decode};
use dex_tables::{Body, Dex};
use std::alloc::Global;
use std::io::{self, Write};

fn insn_to<W: Write>(out: &mut W, insn: &Insn) -> io::Result<()> {
    match insn {
        Insn::F10x(op) => write!(out, "{op:02x}"),
        Insn::F11n(op, a, n)
        | Insn::F21s(op, a, n)
        | Insn::F21h(op, a, n)
        | Insn::F31i(op, a, n)
        | Insn::F51l(op, a, n) => write!(out, "{op:02x} v{a} #{n}"),
        Insn::F11x(op, a) => write!(out, "{op:02x} v{a}"),
        Insn::F10t(op, t) | Insn::F20t(op, t) | Insn::F30t(op, t) => write!(out, "{op:02x} >{t}"),
        Insn::F12x(op, a, b) | Insn::F22x(op, a, b) | Insn::F32x(op, a, b) => write!(
            out,
            "{op:02x} v{a} v{b}"
        ),
        Insn::F21t(op, a, t) | Insn::F31t(op, a, t) => write!(out, "{op:02x} v{a} >{t}"),
        Insn::F21c(op, a, i) | Insn::F31c(op, a, i) => write!(out, "{op:02x} v{a} @{i}"),
        Insn::F23x(op, a, b, c) => write!(out, "{op:02x} v{a} v{b} v{c}"),
        Insn::F22b(op, a, b, n) | Insn::F22s(op, a, b, n) => write!(out, "{op:02x} v{a} v{b} #{n}"),
        Insn::F22t(op, a, b, t) => write!(out, "{op:02x} v{a} v{b} >{t}"),
        Insn::F22c(op, a, b, i) => write!(out, "{op:02x} v{a} v{b} @{i}"),
        Insn::F35c(op, i, registers) => {
            write!(out, "{op:02x}")?;
            for r in registers.as_slice() {
                write!(out, " v{r}")?;
            }
            write!(out, " @{i}")
        }
        Insn::F3rc(op, i, first, count) => {
            write!(out, "{op:02x}")?;
            for k in 0..*count {
                let r = first.wrapping_add(k);
                write!(out, " v{r}")?;
            }
            write!(out, " @{i}")
        }
        Insn::Packed(..) => write!(out, "packed-switch-data"),
        Insn::Sparse(..) => write!(out, "sparse-switch-data"),
        Insn::Filled(..) => write!(out, "array-data"),
    }
}

fn fault_to<W: Write>(out: &mut W, fault: CodeFault) -> io::Result<()> {
    writeln!(out, "fault {fault:?}")
}

fn body_to<W: Write>(out: &mut W, alloc: Global, counts: &Counts, body: &Body) -> io::Result<()> {
    let Some(code) = &body.code else {
        return Ok(());
    };
    writeln!(out, "method")?;
    if code.units.len() > 0xFFFF_FFFF || code.tries.len() > 0xFFFF_FFFF {
        return writeln!(out, "too long");
    }
    match decode(alloc, code, counts) {
        Ok(decoded) => {
            for (pc, insn) in decoded.lines.as_slice() {
                write!(out, "{pc:04x} ")?;
                insn_to(out, insn)?;
                writeln!(out)?;
            }
            Ok(())
        }
        Err(fault) => fault_to(out, fault),
    }
}

/// The number of rows of a table, which a DEX file says in 32 bits.
fn rows_of(count: usize) -> u32 {
    u32::try_from(count).unwrap_or(u32::MAX)
}

/// The instructions of each method with code, a line each.
pub fn list<W: Write>(out: &mut W, alloc: Global, dex: &Dex) -> io::Result<()> {
    let counts = Counts {
        strings: rows_of(dex.strings.len()),
        types: rows_of(dex.types.len()),
        fields: rows_of(dex.fields.len()),
        methods: rows_of(dex.methods.len()),
    };
    for class in dex.classes.as_slice() {
        for body in class.directs.as_slice() {
            body_to(out, alloc, &counts, body)?;
        }
        for body in class.virtuals.as_slice() {
            body_to(out, alloc, &counts, body)?;
        }
    }
    Ok(())
}

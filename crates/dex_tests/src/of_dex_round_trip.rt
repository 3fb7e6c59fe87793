ghost use Rattle.std.specs.Prelude.{IfOk};
ghost use Rattle.dex_round_trip.specs.Listings.{CanBeRead};

use dex_maker::{
    ListedClass, ListedCode, ListedField, ListedLine, ListedMethod, Listing, MakeFault, Operand,
    is_makeable, make_dex,
};
use dex_reader::read_dex;
use dex_round_trip::read_back;
use dex_tables::{Body, ClassDef, Dex, Member, RawCode};
use std::alloc::Global;
use std::test::Fail;
use vet_base::{Memory, Name, Seq};

fn name(alloc: Global, text: &str) -> Result<Name, Memory> {
    Name::from_bytes(alloc, text.as_bytes())
}

/// The opcode, the registers and the literal of an instruction without an index and a target.
type Line = (u8, &'static [u16], i64);

fn line_of(alloc: Global, line: Line) -> Result<ListedLine, Memory> {
    let (opcode, registers, literal) = line;
    let registers = registers.to_vec(alloc)?;
    Ok(ListedLine::Plain(
        opcode,
        Seq::from_vec(registers),
        literal,
        Operand::Nothing,
        None,
    ))
}

fn lines_of(alloc: Global, lines: &[Line]) -> Result<Seq<ListedLine>, Memory> {
    let mut listed = Vec::new(alloc);
    for &line in lines {
        listed.push(line_of(alloc, line)?)?;
    }
    Ok(Seq::from_vec(listed))
}

fn one_name(alloc: Global, text: &str) -> Result<Seq<Name>, Memory> {
    let name = name(alloc, text)?;
    Ok(Seq::from_vec(vec![in alloc; name]?))
}

/// An `onCreate` of two arguments, with so many registers and these lines.
fn on_create(alloc: Global, registers: u16, lines: &[Line]) -> Result<ListedMethod, Memory> {
    let called = name(alloc, "onCreate")?;
    let ret = name(alloc, "V")?;
    let params = one_name(alloc, "Landroid/os/Bundle;")?;
    let lines = lines_of(alloc, lines)?;
    let code = ListedCode {
        registers,
        ins: 2,
        lines,
        tries: Seq::new(alloc),
    };
    Ok(ListedMethod {
        name: called,
        params,
        ret,
        flags: 1,
        code: Some(code),
    })
}

fn methods(alloc: Global, registers: u16, lines: &[Line]) -> Result<Seq<ListedMethod>, Memory> {
    let method = on_create(alloc, registers, lines)?;
    Ok(Seq::from_vec(vec![in alloc; method]?))
}

/// A listing of one class alone.
fn listing_of(alloc: Global, class: ListedClass) -> Result<Listing, Memory> {
    let classes = vec![in alloc; class]?;
    Ok(Listing {
        classes: Seq::from_vec(classes),
    })
}

/// `La/Main;`, which extends `Landroid/app/Activity;`, with such an `onCreate`.
fn main_class(alloc: Global, registers: u16, lines: &[Line]) -> Result<Listing, Memory> {
    let called = name(alloc, "La/Main;")?;
    let superclass = name(alloc, "Landroid/app/Activity;")?;
    let methods = methods(alloc, registers, lines)?;
    let class = ListedClass {
        name: called,
        flags: 1,
        superclass: Some(superclass),
        interfaces: Seq::new(alloc),
        fields: Seq::new(alloc),
        methods,
    };
    listing_of(alloc, class)
}

/// Why there is no such DEX file, or no such part of it.
type Lack = &'static str;

fn made(alloc: Global, listing: &Listing) -> Result<Vec<u8>, Lack> {
    if !is_makeable(listing) {
        return Err("the listing is not within the limits");
    }
    make_dex(alloc, listing).ok().ok_or("no file is made")
}

/// The fault of a listing that is within the limits.
fn fault_of(alloc: Global, listing: &Listing) -> Result<Option<MakeFault>, Lack> {
    if !is_makeable(listing) {
        return Err("the listing is not within the limits");
    }
    Ok(make_dex(alloc, listing).err())
}

fn read(alloc: Global, listing: &Listing) -> Result<Dex, Lack> {
    let bytes = made(alloc, listing)?;
    read_dex(alloc, &bytes)
        .ok()
        .ok_or("the bytes are no DEX file")
}

/// The DEX file of a listing, which is dropped here and nowhere else: its destructor is long.
fn read_listing(alloc: Global, listing: Result<Listing, Memory>) -> Result<Dex, Lack> {
    match listing {
        Ok(listing) => read(alloc, &listing),
        Err(_) => Err("no memory"),
    }
}

/// The registers, arguments and outgoing arguments of code, and whether these are its units.
type CodeLook = (u16, u16, u16, bool);

fn look_of_code(code: &RawCode, units: &[u16]) -> CodeLook {
    let is_same = code.units.as_slice() == units;
    (code.registers, code.ins, code.outs, is_same)
}

/// The code of the first method.
fn look_of_first(methods: &[Body], units: &[u16]) -> Option<CodeLook> {
    let code = methods.first()?.code.as_ref()?;
    Some(look_of_code(code, units))
}

/// How many classes there are, and of the first its flags, how many virtual methods it has, and the code of the first.
type MainLook = (usize, u32, usize, Option<CodeLook>);

fn look_of_main(dex: &Dex, units: &[u16]) -> Result<MainLook, Lack> {
    let classes = dex.classes.as_slice();
    match classes.first() {
        Some(class) => {
            let methods = class.virtuals.as_slice();
            let first = look_of_first(methods, units);
            Ok((classes.len(), class.flags, methods.len(), first))
        }
        None => Err("no class"),
    }
}

fn empty_method(alloc: Global) -> Result<MainLook, Lack> {
    let dex = read_listing(alloc, main_class(alloc, 2, &[(0x0E, &[], 0)]))?;
    look_of_main(&dex, &[0x000E])
}

#[test]
fn a_file_with_one_empty_method_is_read(rt: HostRuntime) -> Result<(), Fail> {
    let code = (2, 2, 0, true);
    assert_eq!(rt; empty_method(rt.alloc())?, (1, 1, 1, Some(code)));
    Ok(())
}

/// Which method and line are out of range.
fn range_of(fault: &Option<MakeFault>) -> Option<(u32, u32)> {
    match fault {
        Some(MakeFault::Range(method, line)) => Some((*method, *line)),
        _ => None,
    }
}

/// Which method and line of this code are out of range.
fn out_of_range(alloc: Global, lines: &[Line]) -> Result<Option<(u32, u32)>, Lack> {
    let Ok(listing) = main_class(alloc, 3, lines) else {
        return Err("no memory");
    };
    let fault = fault_of(alloc, &listing)?;
    Ok(range_of(&fault))
}

#[test]
fn a_literal_out_of_range_names_its_line(rt: HostRuntime) -> Result<(), Fail> {
    let lines: [Line; 3] = [(0x12, &[0], 7), (0x12, &[0], 8), (0x0E, &[], 0)];
    assert_eq!(rt; out_of_range(rt.alloc(), &lines)?, Some((0, 1)));
    Ok(())
}

/// An `int` field.
fn field(alloc: Global, flags: u32) -> Result<ListedField, Memory> {
    let called = name(alloc, "f")?;
    let kind = name(alloc, "I")?;
    Ok(ListedField {
        name: called,
        kind,
        flags,
    })
}

/// So many fields, each static but the third and the fifth behind the first.
fn fields(alloc: Global, count: u32) -> Result<Seq<ListedField>, Memory> {
    let mut fields = Vec::new(alloc);
    for i in 0..count {
        let flags = if i == 3 || i == 5 { 1 } else { 9 };
        fields.push(field(alloc, flags)?)?;
    }
    Ok(Seq::from_vec(fields))
}

/// A class with these interfaces and fields and without methods.
fn class_of(
    alloc: Global,
    name: Name,
    interfaces: Seq<Name>,
    fields: Seq<ListedField>,
) -> ListedClass {
    ListedClass {
        name,
        flags: 1,
        superclass: None,
        interfaces,
        fields,
        methods: Seq::new(alloc),
    }
}

fn listing_of_fields(alloc: Global, count: u32) -> Result<Listing, Memory> {
    let called = name(alloc, "La/Main;")?;
    let fields = fields(alloc, count)?;
    listing_of(alloc, class_of(alloc, called, Seq::new(alloc), fields))
}

fn index_of(field: Option<&Member>) -> Option<u32> {
    match field {
        Some(field) => Some(field.index),
        None => None,
    }
}

/// How many static fields a class has and the index of the last,
/// and the same of its other fields with that of the first.
type FieldsLook = (usize, Option<u32>, usize, [Option<u32>; 2]);

fn look_of_fields(class: &ClassDef) -> FieldsLook {
    let statics = class.statics.as_slice();
    let others = class.instances.as_slice();
    (
        statics.len(),
        index_of(statics.last()),
        others.len(),
        [index_of(others.first()), index_of(others.last())],
    )
}

fn fields_read(alloc: Global, count: u32) -> Result<FieldsLook, Lack> {
    let dex = read_listing(alloc, listing_of_fields(alloc, count))?;
    match dex.classes.as_slice().first() {
        Some(class) => Ok(look_of_fields(class)),
        None => Err("no class"),
    }
}

#[test]
fn differences_begin_anew_behind_static_fields(rt: HostRuntime) -> Result<(), Fail> {
    let wanted = (39, Some(40), 2, [Some(3), Some(5)]);
    assert_eq!(rt; fields_read(rt.alloc(), 41)?, wanted);
    Ok(())
}

/// So many names of `L`, four letters and `;`, no two of them alike.
fn distinct_names(alloc: Global, count: u32) -> Result<Vec<Name>, Memory> {
    let mut names = Vec::new(alloc);
    for i in 0..count {
        let text = [
            b'L',
            b'a' + (i / 4096 % 16) as u8,
            b'a' + (i / 256 % 16) as u8,
            b'a' + (i / 16 % 16) as u8,
            b'a' + (i % 16) as u8,
            b';',
        ];
        names.push(Name::from_bytes(alloc, &text)?)?;
    }
    Ok(names)
}

fn listing_of_interfaces(alloc: Global, count: u32) -> Result<Listing, Memory> {
    let called = name(alloc, "La/Main;")?;
    let names = distinct_names(alloc, count)?;
    let interfaces = Seq::from_vec(names);
    listing_of(alloc, class_of(alloc, called, interfaces, Seq::new(alloc)))
}

/// Whether this table has too many rows.
fn is_too_long(fault: &Option<MakeFault>, table: &[u8]) -> bool {
    match fault {
        Some(MakeFault::TooMany(name)) => name.as_bytes() == table,
        _ => false,
    }
}

/// Whether a class of so many interfaces has too many strings.
fn has_too_many_strings(alloc: Global, count: u32) -> Result<bool, Lack> {
    let Ok(listing) = listing_of_interfaces(alloc, count) else {
        return Err("no memory");
    };
    let fault = fault_of(alloc, &listing)?;
    Ok(is_too_long(&fault, b"string_ids"))
}

#[test]
fn one_string_more_than_two_bytes_count(rt: HostRuntime) -> Result<(), Fail> {
    assert!(rt; has_too_many_strings(rt.alloc(), 65536)?);
    Ok(())
}

/// `La;`, final and without members.
fn class_alone(alloc: Global) -> Result<Listing, Memory>
    ensures { IfOk result (λ listing. CanBeRead listing) }
{
    let class = ListedClass {
        name: Name::from_bytes(alloc, b"La;")?,
        flags: 17,
        superclass: None,
        interfaces: Seq::new(alloc),
        fields: Seq::new(alloc),
        methods: Seq::new(alloc),
    };
    let classes = vec![in alloc; class]?;
    Ok(Listing {
        classes: Seq::from_vec(classes),
    })
}

fn class_read_back(alloc: Global) -> Result<Dex, Lack> {
    let Ok(listing) = class_alone(alloc) else {
        return Err("no memory");
    };
    read_back(alloc, &listing)
        .ok()
        .ok_or("the listing is not read back")
}

/// How many strings there are, whether the first is `La;`, and whether that alone describes a type.
fn look_of_ids(dex: &Dex) -> (usize, bool, bool) {
    let strings = dex.strings.as_slice();
    let is_name = match strings.first() {
        Some(text) => text.as_bytes() == b"La;".as_slice(),
        None => false,
    };
    let is_type = dex.types.as_slice() == [0].as_slice();
    (strings.len(), is_name, is_type)
}

/// The type and the flags of a class, whether it has a superclass, and how many interfaces and virtual methods it has.
type ClassLook = (u32, u32, bool, usize, usize);

fn look_of_class(class: &ClassDef) -> ClassLook {
    (
        class.class,
        class.flags,
        class.superclass.is_some(),
        class.interfaces.len(),
        class.virtuals.len(),
    )
}

/// The ids, how many classes there are, and the first of them.
type AloneLook = ((usize, bool, bool), usize, ClassLook);

fn look_of_alone(alloc: Global) -> Result<AloneLook, Lack> {
    let dex = class_read_back(alloc)?;
    let classes = dex.classes.as_slice();
    match classes.first() {
        Some(class) => Ok((look_of_ids(&dex), classes.len(), look_of_class(class))),
        None => Err("no class"),
    }
}

/// By the format its file has one string, one type, which that string describes, and one class, which is of that type.
#[test]
fn a_class_alone_is_read_back(rt: HostRuntime) -> Result<(), Fail> {
    let class = (0, 17, false, 0, 0);
    assert_eq!(rt; look_of_alone(rt.alloc())?, ((1, true, true), 1, class));
    Ok(())
}

use dex_reader::read_dex;
use dex_tables::{ClassDef, Dex};
use made_apps::{Draws, made_dex};
use std::alloc::Global;
use std::test::Fail;

/// Why there is no such app, or no such part of it.
type Lack = &'static str;

fn made(alloc: Global, seed: u32, size: u32) -> Result<Vec<u8>, Lack> {
    if seed >= 2147483648 || size < 1 || size > 2000 {
        return Err("the seed and the size are not within the limits");
    }
    made_dex(alloc, seed, size).ok().ok_or("no memory")
}

fn read(alloc: Global, seed: u32, size: u32) -> Result<Dex, Lack> {
    let bytes = made(alloc, seed, size)?;
    read_dex(alloc, &bytes)
        .ok()
        .ok_or("the bytes are no DEX file")
}

/// The first five draws below 32,768.
fn five_draws(seed: u16) -> [u32; 5] {
    let mut draws = Draws::from_seed(u32::from(seed));
    let first = draws.draw(32768);
    let second = draws.draw(32768);
    let third = draws.draw(32768);
    let fourth = draws.draw(32768);
    let fifth = draws.draw(32768);
    [first, second, third, fourth, fifth]
}

/// The sample generator of the C standard, whose numbers are below 32,768, gives these after `srand(1)`.
#[test]
fn draws_are_those_of_the_sample_generator(rt: HostRuntime) {
    assert_eq!(rt; five_draws(1), [16838, 5758, 10113, 17515, 31051]);
}

/// How many static fields, direct methods and virtual methods a class has.
fn sizes(class: &ClassDef) -> [usize; 3] {
    [
        class.statics.len(),
        class.directs.len(),
        class.virtuals.len(),
    ]
}

/// How many classes an app has, and the sizes of the first and the last.
fn look_of_app(
    alloc: Global,
    seed: u32,
    size: u32,
) -> Result<(usize, [usize; 3], [usize; 3]), Lack> {
    let dex = read(alloc, seed, size)?;
    let classes = dex.classes.as_slice();
    match (classes.first(), classes.last()) {
        (Some(main), Some(work)) => Ok((classes.len(), sizes(main), sizes(work))),
        _ => Err("no class"),
    }
}

#[test]
fn an_app_of_fifty_methods_is_read(rt: HostRuntime) -> Result<(), Fail> {
    let look = look_of_app(rt.alloc(), 7, 50)?;
    assert_eq!(rt; look, (2, [0, 0, 1], [1, 50, 0]));
    Ok(())
}

/// Whether the type of this number is called so.
fn is_type(dex: &Dex, kind: u16, name: &[u8]) -> Option<bool> {
    let text = dex.types.get(usize::from(kind))?;
    Some(dex.strings.get(*text as usize)?.as_bytes() == name)
}

/// The registers and the arguments of the first direct method of the last class, whether its units are those of a
/// method that takes its argument through an array, and whether that is an array of objects.
fn look_of_method(dex: &Dex) -> Option<(u16, u16, bool, bool)> {
    let class = dex.classes.as_slice().last()?;
    let code = class.directs.get(0)?.code.as_ref()?;
    let array = *code.units.get(2)?;
    let wanted = [
        0x1012, 0x0123, array, 0x0012, 0x024D, 0x0001, 0x0046, 0x0001, 0x0011,
    ];
    let is_through_array = code.units.as_slice() == wanted.as_slice();
    let is_of_objects = is_type(dex, array, b"[Ljava/lang/Object;")?;
    Some((code.registers, code.ins, is_through_array, is_of_objects))
}

fn look_of_one(alloc: Global) -> Result<(u16, u16, bool, bool), Lack> {
    let dex = read(alloc, 1, 1)?;
    look_of_method(&dex).ok_or("no such method")
}

/// The first draw of the seed 1 is 2, so that the one method takes its argument through an array.
#[test]
fn one_method_takes_its_argument_through_an_array(rt: HostRuntime) -> Result<(), Fail> {
    assert_eq!(rt; look_of_one(rt.alloc())?, (3, 1, true, true));
    Ok(())
}

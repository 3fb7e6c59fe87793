//! Rows made of numbers.
ghost use Rattle.std.specs.Prelude.{◌<◌, ◌≤◌};

use access_path::{Path, cut};
use fact_rows::{Activation, Ctx, Node, Row, Site};
use std::fmt;
use vet_base::KeyId;

/// In which order the rows come.
#[derive(Clone, Copy)]
pub enum Order {
    Ascending,
    Descending,
    Random,
}

impl fmt::Display for Order {
    fn fmt<W: fmt::Write>(&self, f: &mut fmt::Formatter<W>) -> Result<(), fmt::Error> {
        f.write_str(match self {
            Order::Ascending => "ascending",
            Order::Descending => "descending",
            Order::Random => "random",
        })
    }
}

/// A number without a pattern: the finaliser of SplitMix64.
pub fn mixed(i: u64) -> u64 {
    let a = i.wrapping_add(1).wrapping_mul(0x9E37_79B9_7F4A_7C15);
    let b = (a ^ (a >> 30)).wrapping_mul(0xBF58_476D_1CE4_E5B9);
    let c = (b ^ (b >> 27)).wrapping_mul(0x94D0_49BB_1331_11EB);
    c ^ (c >> 31)
}

/// The number of the row that comes at place `i` of `count`.
pub fn number_at(order: Order, i: u64, count: u64) -> u64 {
    match order {
        Order::Ascending => i,
        Order::Descending => count.wrapping_sub(i),
        Order::Random => mixed(i) % 4_398_046_511_104,
    }
}

/// A digit of the number.
fn digit(number: u64, below: u64, size: u64) -> u32
    requires place { below < 64 }
    requires size { 0 < size }
    requires few { size ≤ 65536 }
{
    ((number >> below) % size) as u32
}

/// The row of a number below 2^42. A greater number gives a greater row.
pub fn row_of(number: u64) -> Row {
    let by = Activation {
        ctx: Ctx::Call(digit(number, 26, 16_384), digit(number, 20, 64)),
        method: digit(number, 14, 64),
    };
    let node = Node {
        by,
        pc: digit(number, 8, 64),
    };
    let register = digit(number, 4, 16);
    let last = digit(number, 0, 16);
    let path = cut(KeyId(last), &Path::empty());
    match digit(number, 40, 4) {
        0 => Row::Points(node, register, Site::At(Node { by, pc: last })),
        1 => Row::Taint(node, register, path, 0),
        2 => Row::Effect(node, Site::At(Node { by, pc: register }), path, 0),
        _ => Row::MethodEffect(
            by,
            Site::At(Node {
                by,
                pc: digit(number, 4, 1_024),
            }),
            path,
            0,
        ),
    }
}

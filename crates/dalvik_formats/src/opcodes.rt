ghost use Rattle.std.specs.Prelude.{◌≡◌};
ghost use Rattle.dalvik_formats.specs.Layouts.{group_of, layout_of, pairing_of};

use crate::format::Format;
use crate::format::Format::{
    F3rc, F10t, F10x, F11n, F11x, F12x, F20t, F21c, F21h, F21s, F21t, F22b, F22c, F22s, F22t, F22x,
    F23x, F30t, F31c, F31i, F31t, F32x, F35c, F51l, Unused,
};
use crate::format::Pool::{Fields, Methods, Strings, Types};
use crate::kind::Kind;
use crate::kind::Kind::{
    ArrayGet, ArrayLength, ArrayPut, Binary, BinaryInPlace, BinaryLiteral, CheckCast, Compare,
    Const, FillArrayData, FilledNewArray, Goto, If, InstanceGet, InstanceOf, InstancePut,
    InvokeDirect, InvokeInterface, InvokeStatic, InvokeSuper, InvokeVirtual, Monitor, Move,
    MoveException, MoveResult, NewArray, NewInstance, NoInstruction, Nop, PackedSwitch, Return,
    ReturnVoid, SparseSwitch, StaticGet, StaticPut, Throw, Unary,
};
use crate::pairs::Pairs;
use crate::pairs::Pairs::{All, First, FirstTwo, LastTwo, NoPair, Second};

/// The layout of each opcode of DEX version 035, its operands that are pairs of registers, and what its instructions
/// do, by the table of "Dalvik bytecode", "Summary of bytecode set".
pub static OPCODES: [(Format, Pairs, Kind); 256] = [
    (F10x, NoPair, Nop), // 00 nop
    (F12x, NoPair, Move), // 01 move
    (F22x, NoPair, Move), // 02 move/from16
    (F32x, NoPair, Move), // 03 move/16
    (F12x, FirstTwo, Move), // 04 move-wide
    (F22x, FirstTwo, Move), // 05 move-wide/from16
    (F32x, FirstTwo, Move), // 06 move-wide/16
    (F12x, NoPair, Move), // 07 move-object
    (F22x, NoPair, Move), // 08 move-object/from16
    (F32x, NoPair, Move), // 09 move-object/16
    (F11x, NoPair, MoveResult), // 0a move-result
    (F11x, First, MoveResult), // 0b move-result-wide
    (F11x, NoPair, MoveResult), // 0c move-result-object
    (F11x, NoPair, MoveException), // 0d move-exception
    (F10x, NoPair, ReturnVoid), // 0e return-void
    (F11x, NoPair, Return), // 0f return
    (F11x, First, Return), // 10 return-wide
    (F11x, NoPair, Return), // 11 return-object
    (F11n, NoPair, Const), // 12 const/4
    (F21s, NoPair, Const), // 13 const/16
    (F31i, NoPair, Const), // 14 const
    (F21h, NoPair, Const), // 15 const/high16
    (F21s, First, Const), // 16 const-wide/16
    (F31i, First, Const), // 17 const-wide/32
    (F51l, First, Const), // 18 const-wide
    (F21h, First, Const), // 19 const-wide/high16
    (F21c(Strings), NoPair, Const), // 1a const-string
    (F31c, NoPair, Const), // 1b const-string/jumbo
    (F21c(Types), NoPair, Const), // 1c const-class
    (F11x, NoPair, Monitor), // 1d monitor-enter
    (F11x, NoPair, Monitor), // 1e monitor-exit
    (F21c(Types), NoPair, CheckCast), // 1f check-cast
    (F22c(Types), NoPair, InstanceOf), // 20 instance-of
    (F12x, NoPair, ArrayLength), // 21 array-length
    (F21c(Types), NoPair, NewInstance), // 22 new-instance
    (F22c(Types), NoPair, NewArray), // 23 new-array
    (F35c(Types), NoPair, FilledNewArray), // 24 filled-new-array
    (F3rc(Types), NoPair, FilledNewArray), // 25 filled-new-array/range
    (F31t, NoPair, FillArrayData), // 26 fill-array-data
    (F11x, NoPair, Throw), // 27 throw
    (F10t, NoPair, Goto), // 28 goto
    (F20t, NoPair, Goto), // 29 goto/16
    (F30t, NoPair, Goto), // 2a goto/32
    (F31t, NoPair, PackedSwitch), // 2b packed-switch
    (F31t, NoPair, SparseSwitch), // 2c sparse-switch
    (F23x, NoPair, Compare), // 2d cmpl-float
    (F23x, NoPair, Compare), // 2e cmpg-float
    (F23x, LastTwo, Compare), // 2f cmpl-double
    (F23x, LastTwo, Compare), // 30 cmpg-double
    (F23x, LastTwo, Compare), // 31 cmp-long
    (F22t, NoPair, If), // 32 if-eq
    (F22t, NoPair, If), // 33 if-ne
    (F22t, NoPair, If), // 34 if-lt
    (F22t, NoPair, If), // 35 if-ge
    (F22t, NoPair, If), // 36 if-gt
    (F22t, NoPair, If), // 37 if-le
    (F21t, NoPair, If), // 38 if-eqz
    (F21t, NoPair, If), // 39 if-nez
    (F21t, NoPair, If), // 3a if-ltz
    (F21t, NoPair, If), // 3b if-gez
    (F21t, NoPair, If), // 3c if-gtz
    (F21t, NoPair, If), // 3d if-lez
    (Unused, NoPair, NoInstruction), // 3e unused
    (Unused, NoPair, NoInstruction), // 3f unused
    (Unused, NoPair, NoInstruction), // 40 unused
    (Unused, NoPair, NoInstruction), // 41 unused
    (Unused, NoPair, NoInstruction), // 42 unused
    (Unused, NoPair, NoInstruction), // 43 unused
    (F23x, NoPair, ArrayGet), // 44 aget
    (F23x, First, ArrayGet), // 45 aget-wide
    (F23x, NoPair, ArrayGet), // 46 aget-object
    (F23x, NoPair, ArrayGet), // 47 aget-boolean
    (F23x, NoPair, ArrayGet), // 48 aget-byte
    (F23x, NoPair, ArrayGet), // 49 aget-char
    (F23x, NoPair, ArrayGet), // 4a aget-short
    (F23x, NoPair, ArrayPut), // 4b aput
    (F23x, First, ArrayPut), // 4c aput-wide
    (F23x, NoPair, ArrayPut), // 4d aput-object
    (F23x, NoPair, ArrayPut), // 4e aput-boolean
    (F23x, NoPair, ArrayPut), // 4f aput-byte
    (F23x, NoPair, ArrayPut), // 50 aput-char
    (F23x, NoPair, ArrayPut), // 51 aput-short
    (F22c(Fields), NoPair, InstanceGet), // 52 iget
    (F22c(Fields), First, InstanceGet), // 53 iget-wide
    (F22c(Fields), NoPair, InstanceGet), // 54 iget-object
    (F22c(Fields), NoPair, InstanceGet), // 55 iget-boolean
    (F22c(Fields), NoPair, InstanceGet), // 56 iget-byte
    (F22c(Fields), NoPair, InstanceGet), // 57 iget-char
    (F22c(Fields), NoPair, InstanceGet), // 58 iget-short
    (F22c(Fields), NoPair, InstancePut), // 59 iput
    (F22c(Fields), First, InstancePut), // 5a iput-wide
    (F22c(Fields), NoPair, InstancePut), // 5b iput-object
    (F22c(Fields), NoPair, InstancePut), // 5c iput-boolean
    (F22c(Fields), NoPair, InstancePut), // 5d iput-byte
    (F22c(Fields), NoPair, InstancePut), // 5e iput-char
    (F22c(Fields), NoPair, InstancePut), // 5f iput-short
    (F21c(Fields), NoPair, StaticGet), // 60 sget
    (F21c(Fields), First, StaticGet), // 61 sget-wide
    (F21c(Fields), NoPair, StaticGet), // 62 sget-object
    (F21c(Fields), NoPair, StaticGet), // 63 sget-boolean
    (F21c(Fields), NoPair, StaticGet), // 64 sget-byte
    (F21c(Fields), NoPair, StaticGet), // 65 sget-char
    (F21c(Fields), NoPair, StaticGet), // 66 sget-short
    (F21c(Fields), NoPair, StaticPut), // 67 sput
    (F21c(Fields), First, StaticPut), // 68 sput-wide
    (F21c(Fields), NoPair, StaticPut), // 69 sput-object
    (F21c(Fields), NoPair, StaticPut), // 6a sput-boolean
    (F21c(Fields), NoPair, StaticPut), // 6b sput-byte
    (F21c(Fields), NoPair, StaticPut), // 6c sput-char
    (F21c(Fields), NoPair, StaticPut), // 6d sput-short
    (F35c(Methods), NoPair, InvokeVirtual), // 6e invoke-virtual
    (F35c(Methods), NoPair, InvokeSuper), // 6f invoke-super
    (F35c(Methods), NoPair, InvokeDirect), // 70 invoke-direct
    (F35c(Methods), NoPair, InvokeStatic), // 71 invoke-static
    (F35c(Methods), NoPair, InvokeInterface), // 72 invoke-interface
    (Unused, NoPair, NoInstruction), // 73 unused
    (F3rc(Methods), NoPair, InvokeVirtual), // 74 invoke-virtual/range
    (F3rc(Methods), NoPair, InvokeSuper), // 75 invoke-super/range
    (F3rc(Methods), NoPair, InvokeDirect), // 76 invoke-direct/range
    (F3rc(Methods), NoPair, InvokeStatic), // 77 invoke-static/range
    (F3rc(Methods), NoPair, InvokeInterface), // 78 invoke-interface/range
    (Unused, NoPair, NoInstruction), // 79 unused
    (Unused, NoPair, NoInstruction), // 7a unused
    (F12x, NoPair, Unary), // 7b neg-int
    (F12x, NoPair, Unary), // 7c not-int
    (F12x, FirstTwo, Unary), // 7d neg-long
    (F12x, FirstTwo, Unary), // 7e not-long
    (F12x, NoPair, Unary), // 7f neg-float
    (F12x, FirstTwo, Unary), // 80 neg-double
    (F12x, First, Unary), // 81 int-to-long
    (F12x, NoPair, Unary), // 82 int-to-float
    (F12x, First, Unary), // 83 int-to-double
    (F12x, Second, Unary), // 84 long-to-int
    (F12x, Second, Unary), // 85 long-to-float
    (F12x, FirstTwo, Unary), // 86 long-to-double
    (F12x, NoPair, Unary), // 87 float-to-int
    (F12x, First, Unary), // 88 float-to-long
    (F12x, First, Unary), // 89 float-to-double
    (F12x, Second, Unary), // 8a double-to-int
    (F12x, FirstTwo, Unary), // 8b double-to-long
    (F12x, Second, Unary), // 8c double-to-float
    (F12x, NoPair, Unary), // 8d int-to-byte
    (F12x, NoPair, Unary), // 8e int-to-char
    (F12x, NoPair, Unary), // 8f int-to-short
    (F23x, NoPair, Binary), // 90 add-int
    (F23x, NoPair, Binary), // 91 sub-int
    (F23x, NoPair, Binary), // 92 mul-int
    (F23x, NoPair, Binary), // 93 div-int
    (F23x, NoPair, Binary), // 94 rem-int
    (F23x, NoPair, Binary), // 95 and-int
    (F23x, NoPair, Binary), // 96 or-int
    (F23x, NoPair, Binary), // 97 xor-int
    (F23x, NoPair, Binary), // 98 shl-int
    (F23x, NoPair, Binary), // 99 shr-int
    (F23x, NoPair, Binary), // 9a ushr-int
    (F23x, All, Binary), // 9b add-long
    (F23x, All, Binary), // 9c sub-long
    (F23x, All, Binary), // 9d mul-long
    (F23x, All, Binary), // 9e div-long
    (F23x, All, Binary), // 9f rem-long
    (F23x, All, Binary), // a0 and-long
    (F23x, All, Binary), // a1 or-long
    (F23x, All, Binary), // a2 xor-long
    (F23x, FirstTwo, Binary), // a3 shl-long
    (F23x, FirstTwo, Binary), // a4 shr-long
    (F23x, FirstTwo, Binary), // a5 ushr-long
    (F23x, NoPair, Binary), // a6 add-float
    (F23x, NoPair, Binary), // a7 sub-float
    (F23x, NoPair, Binary), // a8 mul-float
    (F23x, NoPair, Binary), // a9 div-float
    (F23x, NoPair, Binary), // aa rem-float
    (F23x, All, Binary), // ab add-double
    (F23x, All, Binary), // ac sub-double
    (F23x, All, Binary), // ad mul-double
    (F23x, All, Binary), // ae div-double
    (F23x, All, Binary), // af rem-double
    (F12x, NoPair, BinaryInPlace), // b0 add-int/2addr
    (F12x, NoPair, BinaryInPlace), // b1 sub-int/2addr
    (F12x, NoPair, BinaryInPlace), // b2 mul-int/2addr
    (F12x, NoPair, BinaryInPlace), // b3 div-int/2addr
    (F12x, NoPair, BinaryInPlace), // b4 rem-int/2addr
    (F12x, NoPair, BinaryInPlace), // b5 and-int/2addr
    (F12x, NoPair, BinaryInPlace), // b6 or-int/2addr
    (F12x, NoPair, BinaryInPlace), // b7 xor-int/2addr
    (F12x, NoPair, BinaryInPlace), // b8 shl-int/2addr
    (F12x, NoPair, BinaryInPlace), // b9 shr-int/2addr
    (F12x, NoPair, BinaryInPlace), // ba ushr-int/2addr
    (F12x, FirstTwo, BinaryInPlace), // bb add-long/2addr
    (F12x, FirstTwo, BinaryInPlace), // bc sub-long/2addr
    (F12x, FirstTwo, BinaryInPlace), // bd mul-long/2addr
    (F12x, FirstTwo, BinaryInPlace), // be div-long/2addr
    (F12x, FirstTwo, BinaryInPlace), // bf rem-long/2addr
    (F12x, FirstTwo, BinaryInPlace), // c0 and-long/2addr
    (F12x, FirstTwo, BinaryInPlace), // c1 or-long/2addr
    (F12x, FirstTwo, BinaryInPlace), // c2 xor-long/2addr
    (F12x, First, BinaryInPlace), // c3 shl-long/2addr
    (F12x, First, BinaryInPlace), // c4 shr-long/2addr
    (F12x, First, BinaryInPlace), // c5 ushr-long/2addr
    (F12x, NoPair, BinaryInPlace), // c6 add-float/2addr
    (F12x, NoPair, BinaryInPlace), // c7 sub-float/2addr
    (F12x, NoPair, BinaryInPlace), // c8 mul-float/2addr
    (F12x, NoPair, BinaryInPlace), // c9 div-float/2addr
    (F12x, NoPair, BinaryInPlace), // ca rem-float/2addr
    (F12x, FirstTwo, BinaryInPlace), // cb add-double/2addr
    (F12x, FirstTwo, BinaryInPlace), // cc sub-double/2addr
    (F12x, FirstTwo, BinaryInPlace), // cd mul-double/2addr
    (F12x, FirstTwo, BinaryInPlace), // ce div-double/2addr
    (F12x, FirstTwo, BinaryInPlace), // cf rem-double/2addr
    (F22s, NoPair, BinaryLiteral), // d0 add-int/lit16
    (F22s, NoPair, BinaryLiteral), // d1 rsub-int
    (F22s, NoPair, BinaryLiteral), // d2 mul-int/lit16
    (F22s, NoPair, BinaryLiteral), // d3 div-int/lit16
    (F22s, NoPair, BinaryLiteral), // d4 rem-int/lit16
    (F22s, NoPair, BinaryLiteral), // d5 and-int/lit16
    (F22s, NoPair, BinaryLiteral), // d6 or-int/lit16
    (F22s, NoPair, BinaryLiteral), // d7 xor-int/lit16
    (F22b, NoPair, BinaryLiteral), // d8 add-int/lit8
    (F22b, NoPair, BinaryLiteral), // d9 rsub-int/lit8
    (F22b, NoPair, BinaryLiteral), // da mul-int/lit8
    (F22b, NoPair, BinaryLiteral), // db div-int/lit8
    (F22b, NoPair, BinaryLiteral), // dc rem-int/lit8
    (F22b, NoPair, BinaryLiteral), // dd and-int/lit8
    (F22b, NoPair, BinaryLiteral), // de or-int/lit8
    (F22b, NoPair, BinaryLiteral), // df xor-int/lit8
    (F22b, NoPair, BinaryLiteral), // e0 shl-int/lit8
    (F22b, NoPair, BinaryLiteral), // e1 shr-int/lit8
    (F22b, NoPair, BinaryLiteral), // e2 ushr-int/lit8
    (Unused, NoPair, NoInstruction), // e3 unused
    (Unused, NoPair, NoInstruction), // e4 unused
    (Unused, NoPair, NoInstruction), // e5 unused
    (Unused, NoPair, NoInstruction), // e6 unused
    (Unused, NoPair, NoInstruction), // e7 unused
    (Unused, NoPair, NoInstruction), // e8 unused
    (Unused, NoPair, NoInstruction), // e9 unused
    (Unused, NoPair, NoInstruction), // ea unused
    (Unused, NoPair, NoInstruction), // eb unused
    (Unused, NoPair, NoInstruction), // ec unused
    (Unused, NoPair, NoInstruction), // ed unused
    (Unused, NoPair, NoInstruction), // ee unused
    (Unused, NoPair, NoInstruction), // ef unused
    (Unused, NoPair, NoInstruction), // f0 unused
    (Unused, NoPair, NoInstruction), // f1 unused
    (Unused, NoPair, NoInstruction), // f2 unused
    (Unused, NoPair, NoInstruction), // f3 unused
    (Unused, NoPair, NoInstruction), // f4 unused
    (Unused, NoPair, NoInstruction), // f5 unused
    (Unused, NoPair, NoInstruction), // f6 unused
    (Unused, NoPair, NoInstruction), // f7 unused
    (Unused, NoPair, NoInstruction), // f8 unused
    (Unused, NoPair, NoInstruction), // f9 unused
    (Unused, NoPair, NoInstruction), // fa unused
    (Unused, NoPair, NoInstruction), // fb unused
    (Unused, NoPair, NoInstruction), // fc unused
    (Unused, NoPair, NoInstruction), // fd unused
    (Unused, NoPair, NoInstruction), // fe unused
    (Unused, NoPair, NoInstruction), // ff unused
];

/// The layout of the instructions with this opcode.
#[tactic(auto, unfolding(crate::specs::Layouts::layout_of, crate::specs::Layouts::row_of))]
pub fn format_of(opcode: u8) -> Format
    ensures { result ≡ layout_of opcode }
{
    OPCODES[opcode as usize].0
}

/// Which operands of the instructions with this opcode are pairs of registers.
#[tactic(auto, unfolding(crate::specs::Layouts::pairing_of, crate::specs::Layouts::row_of))]
pub fn pairs_of(opcode: u8) -> Pairs
    ensures { result ≡ pairing_of opcode }
{
    OPCODES[opcode as usize].1
}

/// What the instructions with this opcode do.
#[tactic(auto, unfolding(crate::specs::Layouts::group_of, crate::specs::Layouts::row_of))]
pub fn kind_of(opcode: u8) -> Kind
    ensures { result ≡ group_of opcode }
{
    OPCODES[opcode as usize].2
}

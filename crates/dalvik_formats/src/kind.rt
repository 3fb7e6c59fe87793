ghost use Rattle.std.specs.Prelude.{◌≡◌};
ghost use Rattle.dalvik_formats.specs.Layouts.{may_go_on};

/// What an instruction does, by the groups of "Dalvik bytecode". The groups say nothing of the width of values, which
/// the pairs of an opcode tell.
#[derive(Clone, Copy, Debug, PartialEq, Eq)]
pub enum Kind {
    /// The opcode is not used.
    NoInstruction,
    Nop,
    Move,
    MoveResult,
    MoveException,
    ReturnVoid,
    Return,
    /// A number, a string or a class.
    Const,
    Monitor,
    CheckCast,
    InstanceOf,
    ArrayLength,
    NewInstance,
    NewArray,
    FilledNewArray,
    FillArrayData,
    Throw,
    Goto,
    PackedSwitch,
    SparseSwitch,
    Compare,
    If,
    ArrayGet,
    ArrayPut,
    InstanceGet,
    InstancePut,
    StaticGet,
    StaticPut,
    InvokeVirtual,
    InvokeSuper,
    InvokeDirect,
    InvokeStatic,
    InvokeInterface,
    /// A negation or a conversion.
    Unary,
    Binary,
    /// The result goes into the first source.
    BinaryInPlace,
    /// The second source is a literal.
    BinaryLiteral,
}

impl Kind {
    /// Whether control may go on to the instruction behind. It does not after a `goto`, a return and a throw.
    pub fn falls_through(self) -> bool
        ensures { result ≡ may_go_on self }
    {
        !matches!(
            self,
            Kind::Goto | Kind::ReturnVoid | Kind::Return | Kind::Throw
        )
    }
}

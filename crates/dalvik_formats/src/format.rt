ghost use Rattle.std.specs.Prelude.{◌≡◌};
ghost use Rattle.dalvik_formats.specs.Layouts.{units_of};

/// The id table into which an instruction's index points.
#[derive(Clone, Copy, Debug, PartialEq, Eq)]
pub enum Pool {
    Strings,
    Types,
    Fields,
    Methods,
}

/// How an instruction is laid out, by the names of "Dalvik executable instruction format". `Unused` is no
/// instruction of DEX version 035. The index of `F31c` is a string's.
#[derive(Clone, Copy, Debug, PartialEq, Eq)]
pub enum Format {
    Unused,
    F10x,
    F12x,
    F11n,
    F11x,
    F10t,
    F20t,
    F22x,
    F21t,
    F21s,
    F21h,
    F21c(Pool),
    F23x,
    F22b,
    F22t,
    F22s,
    F22c(Pool),
    F32x,
    F30t,
    F31t,
    F31i,
    F31c,
    F35c(Pool),
    F3rc(Pool),
    F51l,
}

impl Format {
    /// The number of 16-bit units of an instruction; 1 for `Unused`.
    pub fn units(self) -> usize
        ensures { result ≡ units_of self }
    {
        match self {
            Format::Unused
            | Format::F10x
            | Format::F12x
            | Format::F11n
            | Format::F11x
            | Format::F10t => 1,
            Format::F20t
            | Format::F22x
            | Format::F21t
            | Format::F21s
            | Format::F21h
            | Format::F21c(_)
            | Format::F23x
            | Format::F22b
            | Format::F22t
            | Format::F22s
            | Format::F22c(_) => 2,
            Format::F32x
            | Format::F30t
            | Format::F31t
            | Format::F31i
            | Format::F31c
            | Format::F35c(_)
            | Format::F3rc(_) => 3,
            Format::F51l => 5,
        }
    }
}

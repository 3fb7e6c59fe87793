ghost use Rattle.std.specs.Prelude.{◌≡◌};
ghost use Rattle.desk_http.specs.declared.asked.HttpFault.TheVariants.{Memory as OutOfMemory};

use std::alloc::AllocError;
use vet_base::{Memory, Name};

/// Why a connection gave no request.
#[derive(Clone, Copy, Debug, PartialEq, Eq)]
pub enum HttpFault {
    /// The connection ended before a whole request.
    Ended,
    /// The link failed; its count of faults rose.
    ReadFault,
    /// The bytes up to the end of the head are no head, the method is neither GET nor POST, or a Content-Length is not
    /// one to ten decimal digits or stands there twice.
    Bad,
    /// A POST without a Content-Length, or a Transfer-Encoding.
    NoLength,
    /// The Content-Length is above 67,108,864.
    TooLong,
    /// 16,384 bytes came that hold no end of a head, or the head has more than 64 fields.
    BigHead,
    Memory,
}

/// A request: whether it is a POST and no GET, its target as it
/// came, the value of the first field `x-desk-token`, and its body.
#[derive(Drop)]
pub struct Asked {
    pub post: bool,
    pub path: Name,
    pub token: Option<Name>,
    pub body: Vec<u8>,
}

impl From<AllocError> for HttpFault {
    ghost from_gives = { λ _ e. e ≡ OutOfMemory };

    fn from(_e: AllocError) -> HttpFault {
        HttpFault::Memory
    }
}

impl From<Memory> for HttpFault {
    ghost from_gives = { λ _ e. e ≡ OutOfMemory };

    fn from(_e: Memory) -> HttpFault {
        HttpFault::Memory
    }
}

ghost use Rattle.std.specs.Prelude.{◌≡◌};
ghost use Rattle.client_replies.specs.declared.answered.ReplyFault.TheVariants.{Memory as OutOfMemory};

use std::alloc::AllocError;

/// A reply: its status and its body.
#[derive(Drop)]
pub struct Answered {
    pub status: u16,
    pub body: Vec<u8>,
}

/// Why a connection gave no reply.
#[derive(Clone, Copy, Debug, PartialEq, Eq)]
pub enum ReplyFault {
    /// The connection ended before a whole reply.
    Ended,
    /// The link failed; its count of faults rose.
    ReadFault,
    /// The bytes up to the end of the head are no head, or it does not
    /// have one Content-Length alone, of one to ten decimal digits.
    BadReply,
    /// 16,384 bytes came that hold no end of a head, the head has
    /// more than 64 fields, or the Content-Length is above 1,048,576.
    TooLong,
    Memory,
}

impl From<AllocError> for ReplyFault {
    ghost from_gives = { λ _ e. e ≡ OutOfMemory };

    fn from(_e: AllocError) -> ReplyFault {
        ReplyFault::Memory
    }
}

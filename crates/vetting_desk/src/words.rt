//! The words as the system gives them.
ghost use Rattle.std.specs.Prelude.{◌≡◌, ◌≢◌, [], Ok, Err, IfOk, IfErr, IsOkAnd};
ghost use Rattle.std.specs.IoError.{error_kind};
ghost use Rattle.vetting_desk.specs.Top.{status};

use crate::answer::Status;
use std::alloc::Global;
use std::io;
use std::io::ErrorKind;

/// The words that the system gave, or the status of want of memory where memory ran out while they were read. Words
/// that cannot be read otherwise, as one that is not UTF-8, are no command, and no words stand for them.
pub fn words_given(alloc: Global, given: io::Result<Vec<String>>) -> Result<Vec<String>, Status>
    ensures read { IfOk given (λ words. result ≡ Ok words) }
    ensures memory { IfErr given (λ e. error_kind e ≡ ErrorKind.OutOfMemory → result ≡ Err (status 7)) }
    ensures unread { IfErr given (λ e. error_kind e ≢ ErrorKind.OutOfMemory → IsOkAnd result (λ words. words.items
        ≡ [])) }
{
    match given {
        Ok(words) => Ok(words),
        Err(e) => match e.kind() {
            ErrorKind::OutOfMemory => Err(Status(7)),
            _ => Ok(Vec::new(alloc)),
        },
    }
}

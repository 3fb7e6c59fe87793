ghost use Rattle.std.specs.Prelude.{◌≡◌, IfOk, string_bytes};
ghost use Rattle.desk_answers.specs.Json.{latin1};

use std::alloc::{AllocError, Global};

/// The characters whose numbers are these bytes.
#[tactic(auto, using(crate::proofs::Texts::latin1_more), unfolding(crate::specs::Json::latin1))]
pub fn latin1(alloc: Global, bytes: &[u8]) -> Result<String, AllocError>
    ensures { IfOk result (λ text. string_bytes text ≡ latin1 bytes.now) }
{
    let mut text = String::new(alloc);
    for byte in bytes {
        text.push(*byte as char)?;
    }
    Ok(text)
}

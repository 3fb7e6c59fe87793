ghost use Rattle.std.specs.Prelude.{◌≡◌, []};
ghost use Rattle.heard_files.specs.Outside.{heard_after};

use crate::Spelled;
use std::marker::Model;
use std::snapshot::Snapshot;
use vet_base::FileFault;

#[derive(Drop)]
enum Chain {
    Nothing,
    And(Snapshot<Chain>, Spelled, Snapshot<u64>, Snapshot<Result<Vec<u8>, FileFault>>),
}

/// What reads gave so far, for proofs alone: contracts see a list of names with bytes or a fault. It takes no memory but
/// two bytes.
#[derive(Drop)]
pub struct Heard {
    chain: Chain,
}

impl Model for Heard {
    ghost use Rattle.std.specs.Prelude.{List};
    ghost use Rattle.heard_files.specs.Outside.{Entry};
    ghost use Rattle.heard_files.specs.Heard.{entries_of};

    ghost Value = { List Entry };

    ghost view = { λ h. entries_of h.chain };
}

impl Heard {
    /// Nothing was read.
    pub fn new() -> Heard
        ensures { result ≡ [] }
    {
        Heard {
            chain: Chain::Nothing,
        }
    }

    /// A read of this name of at most so many bytes gave this.
    pub fn add(&mut self, name: &str, limit: u64, answer: &Result<Vec<u8>, FileFault>)
        ensures { self.new ≡ heard_after self.old name.now limit answer.now }
    {
        self.chain = Chain::And(
            Snapshot::of(&self.chain),
            Spelled::of(name.as_bytes()),
            Snapshot::of(&limit),
            Snapshot::of(answer),
        );
    }
}

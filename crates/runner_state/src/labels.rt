ghost use Rattle.std.specs.Prelude.{◌≡◌, ◌≢◌, ◌==◌, ◌<◌, ◌⊎◌, ◌↔◌, ℕ, [], IsTrue};
ghost use Rattle.std.specs.Int.{bit_at};
ghost use Rattle.runner_state.specs.Shown.{labels_of};
ghost use Rattle.vet_base.specs.Members.{In};

/// Categories below 256, one bit each.
#[derive(Clone, Copy, Debug)]
pub struct Labels {
    words: [u64; 4],
}

impl Labels {
    pub fn none() -> Labels
        ensures { labels_of result ≡ [] }
    {
        Labels { words: [0; 4] }
    }

    pub fn one(label: u8) -> Labels
        ensures { (l : ℕ) → In l (labels_of result) ↔ (l ≡ label) }
    {
        let mut words = [0; 4];
        words[(label / 64) as usize] = with_bit(0, (label % 64) as u32);
        Labels { words }
    }

    pub fn joined(self, other: Labels) -> Labels
        ensures { (l : ℕ) → In l (labels_of result) ↔ (In l (labels_of self) ⊎ In l (labels_of other)) }
    {
        let words = [
            self.words[0] | other.words[0],
            self.words[1] | other.words[1],
            self.words[2] | other.words[2],
            self.words[3] | other.words[3],
        ];
        Labels { words }
    }

    pub fn has(self, label: u8) -> bool
        ensures { IsTrue result ↔ In label (labels_of self) }
    {
        has_bit(self.words[(label / 64) as usize], (label % 64) as u32)
    }
}

fn has_bit(word: u64, k: u32) -> bool
    requires { k < 64 }
    ensures { result ≡ (bit_at word k == 1) }
{
    (word >> k) & 1 == 1
}

fn with_bit(word: u64, k: u32) -> u64
    requires { k < 64 }
    ensures set { bit_at result k ≡ 1 }
    ensures others { (i : ℕ) → i ≢ k → bit_at result i ≡ bit_at word i }
{
    word | (1 << k)
}

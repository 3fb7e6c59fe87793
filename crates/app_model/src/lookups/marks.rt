ghost use Rattle.std.specs.Prelude.{◌≡◌, ◌≢◌, ◌==◌, ◌<◌, ◌||◌, ◌&&◌, ℕ, true, false, not, MatchOption};
ghost use Rattle.std.specs.Int.{bit_at};
ghost use Rattle.app_model.specs.Marks.{is_marked};

/// How many numbers can be marked.
pub(super) const ROOM: usize = 131_072;

/// Numbers below `ROOM`, one bit each. They stand on the stack.
#[derive(Drop)]
pub(super) struct Marks {
    words: [u64; 2048],
}

impl Marks {
    pub(super) fn new() -> Marks
        ensures { (j : ℕ) → is_marked result.words j ≡ false }
    {
        Marks { words: [0; 2048] }
    }

    /// Whether the number is marked.
    pub(super) fn has(&self, i: usize) -> bool
        requires { i < 131072 }
        ensures { result ≡ is_marked self.now.words i }
    {
        has_bit(self.words[i / 64], (i % 64) as u32)
    }

    pub(super) fn insert(&mut self, i: usize)
        requires { i < 131072 }
        ensures { (j : ℕ) → is_marked self.new.words j ≡ ((j == i) || is_marked self.old.words j) }
    {
        let word = self.words[i / 64];
        self.words[i / 64] = with_bit(word, (i % 64) as u32);
    }

    pub(super) fn remove(&mut self, i: usize)
        requires { i < 131072 }
        ensures { (j : ℕ) → is_marked self.new.words j ≡ (not (j == i) && is_marked self.old.words j) }
    {
        let word = self.words[i / 64];
        self.words[i / 64] = without_bit(word, (i % 64) as u32);
    }

    /// The least number that is marked.
    pub(super) fn first(&self) -> Option<usize>
        ensures { MatchOption result ((j : ℕ) → is_marked self.now.words j ≡ false) (λ i. (i < 131072)
            × (is_marked self.now.words i ≡ true)) }
    {
        for (at, word) in self.words.iter().enumerate() {
            if *word != 0 {
                return Some(at * 64 + lowest_bit(*word) as usize);
            }
        }
        None
    }
}

fn has_bit(word: u64, k: u32) -> bool
    requires { k < 64 }
    ensures { result ≡ (bit_at word k == 1) }
{
    (word >> k) & 1 == 1
}

fn with_bit(word: u64, k: u32) -> u64
    requires { k < 64 }
    ensures set { bit_at result k ≡ 1 }
    ensures others { (i : ℕ) → i ≢ k → bit_at result i ≡ bit_at word i }
{
    word | (1 << k)
}

fn without_bit(word: u64, k: u32) -> u64
    requires { k < 64 }
    ensures clear { bit_at result k ≡ 0 }
    ensures others { (i : ℕ) → i < 64 → i ≢ k → bit_at result i ≡ bit_at word i }
{
    word & !(1 << k)
}

fn lowest_bit(word: u64) -> u32
    requires { 0 < word }
    ensures within { result < 64 }
    ensures set { bit_at word result ≡ 1 }
{
    word.trailing_zeros()
}

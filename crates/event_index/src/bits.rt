ghost use Rattle.std.specs.Prelude.{◌≡◌, ◌≢◌, ◌==◌, ◌<◌, ◌||◌, ◌/◌, ℕ, false, IfOk, length};
ghost use Rattle.std.specs.Int.{bit_at};
ghost use Rattle.app_model.specs.Marks.{is_marked};

use std::alloc::Global;
use std::marker::Model;
use vet_base::Memory;

/// Numbers, one bit each. Contracts see the words, of 64 bits each.
#[derive(Drop)]
pub struct Bits {
    words: Vec<u64>,
}

impl Model for Bits {
    ghost use Rattle.std.specs.Prelude.{ℕ, List};

    ghost Value = { List ℕ };

    ghost view = { λ b. b.words.items };
}

impl Bits {
    /// So many words, and no number.
    #[tactic(auto, using(crate::proofs::Words::none_marked))]
    pub fn new(alloc: Global, count: usize) -> Result<Bits, Memory>
        ensures long { IfOk result (λ b. length b ≡ count) }
        ensures none { IfOk result (λ b. (j : ℕ) → is_marked b j ≡ false) }
    {
        Ok(Bits {
            words: vec![in alloc; 0; count]?,
        })
    }

    /// Whether the number is among them.
    pub fn has(&self, number: usize) -> bool
        ensures { result ≡ is_marked self.now number }
    {
        is_set(self.words.as_slice(), number)
    }

    /// Adds the number.
    pub fn insert(&mut self, number: usize)
        requires { number / 64 < length self.now }
        ensures long { length self.new ≡ length self.old }
        ensures marks { (j : ℕ) → is_marked self.new j ≡ ((j == number) || is_marked self.old j) }
    {
        set(self.words.as_mut_slice(), number);
    }

    /// Adds the numbers of the other ones.
    pub fn join(&mut self, other: &Bits)
        requires { length other.now ≡ length self.now }
        ensures long { length self.new ≡ length self.old }
        ensures marks { (j : ℕ) → is_marked self.new j ≡ (is_marked self.old j || is_marked other.now j) }
    {
        join(self.words.as_mut_slice(), other.words.as_slice());
    }
}

#[tactic(auto, using(crate::proofs::Words::has_no_word))]
fn is_set(words: &[u64], number: usize) -> bool
    ensures { result ≡ is_marked words.now number }
{
    let at = number / 64;
    if at < words.len() {
        has_bit(words[at], (number % 64) as u32)
    } else {
        false
    }
}

fn set(words: &mut [u64], number: usize)
    requires { number / 64 < length words.now }
    ensures long { length words.new ≡ length words.old }
    ensures marks { (j : ℕ) → is_marked words.new j ≡ ((j == number) || is_marked words.old j) }
{
    let word = words[number / 64];
    words[number / 64] = with_bit(word, (number % 64) as u32);
}

#[tactic(auto, using(crate::proofs::Words::joined_none, crate::proofs::Words::joined_more, crate::proofs::Words::joined_all))]
fn join(words: &mut [u64], other: &[u64])
    requires { length other.now ≡ length words.now }
    ensures long { length words.new ≡ length words.old }
    ensures marks { (j : ℕ) → is_marked words.new j ≡ (is_marked words.old j || is_marked other.now j) }
{
    for at in 0..other.len() {
        let word = words[at] | other[at];
        words[at] = word;
    }
}

fn has_bit(word: u64, k: u32) -> bool
    requires { k < 64 }
    ensures { result ≡ (bit_at word k == 1) }
{
    (word >> k) & 1 == 1
}

fn with_bit(word: u64, k: u32) -> u64
    requires { k < 64 }
    ensures set { bit_at result k ≡ 1 }
    ensures others { (i : ℕ) → i ≢ k → bit_at result i ≡ bit_at word i }
{
    word | (1 << k)
}

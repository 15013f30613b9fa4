// The bit map as a fault set.
ghost use Rattle.std.specs.Prelude.{◌≡◌, ℕ, false, nat_lt};
ghost use Rattle.bit_map.specs.Bits.{in_words};
ghost use Rattle.std.proofs.Common.{rules};

use crate::words;
use fault_set::set::FaultSet;

/// A set of fault numbers with one bit for each.
#[derive(Clone, Copy)]
pub struct BitMap {
    words: [u64; 3],
}

impl BitMap {
    /// The set with no member.
    #[tactic(auto, using(crate::proofs::Digits::bit_none))]
    pub fn empty() -> BitMap
        ensures { (k : ℕ) → in_words result.words k ≡ false }
    {
        BitMap { words: [0; 3] }
    }

    /// The set of the numbers that three words hold: number n by bit n % 64 of word n / 64.
    pub fn from_words(words: [u64; 3]) -> BitMap
        ensures { (k : ℕ) → in_words result.words k ≡ in_words words k }
    {
        BitMap { words }
    }
}

impl FaultSet for BitMap {
    ghost member = { λ s n. in_words s.words n };

    ghost within = { Prim.search rules };

    fn clear(&mut self) {
        *self = BitMap::empty();
    }

    #[tactic(auto, using(crate::proofs::Digits::bit_of_or, crate::proofs::Digits::bit_pow))]
    fn add(&mut self, n: u8) -> bool {
        words::change(&mut self.words, n, |word, one| word | one);
        is_number(n)
    }

    #[tactic(auto, using(crate::proofs::Digits::bit_and_not, crate::proofs::Digits::bit_pow))]
    fn remove(&mut self, n: u8) -> bool {
        words::change(&mut self.words, n, |word, one| word & !one);
        is_number(n)
    }

    fn has(&self, n: u8) -> bool {
        is_number(n) && words::holds(&self.words, n)
    }

    #[tactic(auto, using(crate::proofs::Digits::bit_of_or))]
    fn unite(&mut self, other: &BitMap) {
        self.words = words::combine(self.words, other.words, |a, b| a | b);
    }

    #[tactic(auto, using(crate::proofs::Digits::bit_of_and))]
    fn keep_common(&mut self, other: &BitMap) {
        self.words = words::combine(self.words, other.words, |a, b| a & b);
    }

    #[tactic(auto, using(crate::proofs::Digits::bit_and_not))]
    fn take_away(&mut self, other: &BitMap) {
        self.words = words::combine(self.words, other.words, |a, b| a & !b);
    }

    fn same(&self, other: &BitMap) -> bool {
        words::alike(&self.words, &other.words)
    }

    fn next_after(&self, n: u8) -> u8 {
        words::lowest(&self.words, n).unwrap_or(192)
    }

    fn count(&self) -> u8 {
        words::count(&self.words)
    }
}

// Kept, no plainer: each kind keeps its own bound, on which its law rests; one for both would be a test in a third crate.
// Whether n is the number of a fault.
fn is_number(n: u8) -> bool
    ensures { result ≡ nat_lt n 192 }
{
    n < 192
}

// The ordered list as a kind of fault set.
ghost use Rattle.std.specs.Prelude.{◌≡◌, ℕ, false};
ghost use Rattle.rising.specs.Rows.{listed};
ghost use Rattle.rising.proofs.Rising.{listed_low};

use crate::numbers::{Numbers, is_number};
use fault_set::set::FaultSet;

/// A fault set kept as an ordered list.
#[derive(Clone, Copy)]
pub struct NumberList {
    numbers: Numbers,
}

impl NumberList {
    /// The empty set.
    pub fn empty() -> NumberList
        ensures { (k : ℕ) → listed result.numbers.at result.numbers.len k ≡ false }
    {
        NumberList {
            numbers: Numbers::none(),
        }
    }

    /// The set that the first len places of a row stand for, whatever stands in it.
    // Kept, rule of the project: a plain row and its count, as another hand may have left them.
    pub fn from_numbers(at: [u8; 192], len: u8) -> NumberList
        ensures { (k : ℕ) → listed result.numbers.at result.numbers.len k ≡ listed at len k }
    {
        NumberList {
            numbers: Numbers::new(at, len),
        }
    }
}

impl FaultSet for NumberList {
    ghost member = { λ s. listed s.numbers.at s.numbers.len };

    ghost within = { λ s. listed_low s.numbers.at s.numbers.len };

    fn clear(&mut self) {
        self.numbers = Numbers::none();
    }

    fn add(&mut self, n: u8) -> bool {
        self.numbers = self.numbers.merged(&Numbers::only(n), |a, b| a | b);
        is_number(n)
    }

    fn remove(&mut self, n: u8) -> bool {
        self.numbers = self.numbers.merged(&Numbers::only(n), |a, b| a & !b);
        is_number(n)
    }

    fn has(&self, n: u8) -> bool {
        self.numbers.has(n)
    }

    fn unite(&mut self, other: &NumberList) {
        self.numbers = self.numbers.merged(&other.numbers, |a, b| a | b);
    }

    fn keep_common(&mut self, other: &NumberList) {
        self.numbers = self.numbers.merged(&other.numbers, |a, b| a & b);
    }

    fn take_away(&mut self, other: &NumberList) {
        self.numbers = self.numbers.merged(&other.numbers, |a, b| a & !b);
    }

    fn same(&self, other: &NumberList) -> bool {
        self.numbers.same(&other.numbers)
    }

    fn next_after(&self, n: u8) -> u8 {
        self.numbers.next_after(n)
    }

    fn count(&self) -> u8 {
        self.numbers.count()
    }
}

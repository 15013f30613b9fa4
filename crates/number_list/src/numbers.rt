// Numbers in rising order, in a row of 192 places.
ghost use Rattle.std.specs.Prelude.{◌≡◌, ℕ, ◌+◌, ◌<◌, ◌≤◌, min, true, false, ◌&&◌, Decides, ◌==◌, nat_lt, slice_set, take, [], ◌∷◌, ◌≢◌, MatchBool, Some};
ghost use Rattle.fault_set.specs.Members.{tally};
ghost use Rattle.rising.specs.Rows.{held, listed};
ghost use Rattle.std.specs.List.{slice_get};
ghost use Rattle.number_list.specs.Left.{left, ahead};
ghost use Rattle.number_list.specs.Rules.{Keeps};

use crate::rise::Rise;

/// The numbers of a row's longest beginning in which each is above the one before and none is above 191.
/// What stands behind that beginning does not matter, nor a length above 192.
// Kept, rule of the project: a plain row of fixed size with a count, of which its type promises nothing.
#[derive(Clone, Copy)]
pub struct Numbers {
    at: [u8; 192],
    len: u8,
}

impl Numbers {
    /// The numbers of the first len places of a row.
    pub fn new(at: [u8; 192], len: u8) -> Numbers
        ensures { (k : ℕ) → listed result.at result.len k ≡ listed at len k }
    {
        Numbers { at, len }
    }

    /// No number.
    #[tactic(auto, using(rising::proofs::Rising::listed_none))]
    pub fn none() -> Numbers
        ensures len { result.len ≡ 0 }
        ensures members { (k : ℕ) → listed result.at result.len k ≡ false }
    {
        Numbers {
            at: [0; 192],
            len: 0,
        }
    }

    /// The number n alone, and none where it is above 191.
    #[tactic(auto, using(rising::proofs::Rising::listed_one))]
    pub fn only(n: u8) -> Numbers
        ensures { (k : ℕ) → listed result.at result.len k ≡ (k == n && nat_lt n 192) }
    {
        Numbers {
            at: [n; 192],
            len: 1,
        }
    }

    /// The places of the row that are said to be in use.
    fn used(&self) -> &[u8]
        ensures { result.now ≡ take (min self.now.len 192) self.now.at }
    {
        &self.at[..usize::from(self.len.min(192))]
    }

    /// The numbers, one after another.
    #[tactic(auto, using(rising::proofs::Rise::rise_held))]
    fn numbers(&self) -> Rise<'_>
        ensures { left result ≡ held self.now.at self.now.len }
    {
        Rise::of(self.used())
    }

    /// Puts n behind the last number.
    fn push(&mut self, n: u8)
        requires { self.old.len < 192 }
        ensures at { self.new.at ≡ slice_set self.old.at self.old.len n }
        ensures len { self.new.len ≡ self.old.len + 1 }
    {
        self.at[usize::from(self.len)] = n;
        self.len += 1;
    }

    /// Whether n is among the numbers.
    #[tactic(auto, using(rising::proofs::Rising::listed_low))]
    pub fn has(&self, n: u8) -> bool
        ensures { result ≡ listed self.now.at self.now.len n }
    {
        is_number(n) && self.next_after(n) == n
    }

    /// The smallest number at or above n, and 192 if there is none.
    // Kept, rule of the project: 192 for none is part of the definition of a fault set.
    pub fn next_after(&self, n: u8) -> u8
        ensures bound { result ≤ 192 }
        ensures least { (k : ℕ) → n ≤ k → k < result → listed self.now.at self.now.len k ≡ false }
        ensures found { result < 192 → (n ≤ result) × (listed self.now.at self.now.len result ≡ true) }
    {
        let mut numbers = self.numbers();
        while numbers.next_below(n.min(192)).is_some() {}
        numbers.take_next()
    }

    /// How many numbers there are.
    #[tactic(auto, using(rising::proofs::Held::length_held, rising::proofs::Rising::reach_tally))]
    pub fn count(&self) -> u8
        ensures { result ≡ tally (listed self.now.at self.now.len) 192 }
    {
        self.numbers().count() as u8
    }

    /// Whether both have the same numbers.
    pub fn same(&self, other: &Numbers) -> bool
        ensures { Decides result ((k : ℕ) → listed self.now.at self.now.len k ≡ listed other.now.at other.now.len k) }
    {
        self.numbers().eq(other.numbers())
    }

    /// The numbers that `keep` says yes to, by one walk along both: it is asked of each number that either has,
    /// whether the first has it and whether the second does.
    pub fn merged<F: Fn(bool, bool) -> bool>(&self, other: &Numbers, keep: F) -> Numbers
        requires { F.IsAlwaysCallable keep }
        ensures { Keeps (F.post keep) (listed self.now.at self.now.len) (listed other.now.at other.now.len) (listed result.at result.len) }
    {
        let mut out = Numbers::none();
        let mut ours = self.numbers();
        let mut theirs = other.numbers();
        let mut our_next = ours.take_next();
        let mut their_next = theirs.take_next();
        loop {
            let n = our_next.min(their_next);
            if !is_number(n) {
                return out;
            }
            let we_have = pass(&mut our_next, &mut ours, n);
            let they_have = pass(&mut their_next, &mut theirs, n);
            if keep(we_have, they_have) {
                out.push(n);
            }
        }
    }
}

// Kept, no plainer: each kind keeps its own bound, on which its law rests; one for both would be a test in a third crate.
/// Whether a set can have n.
pub fn is_number(n: u8) -> bool
    ensures { result ≡ nat_lt n 192 }
{
    n <= 191
}

// Goes past n if it comes next, and says whether it did.
fn pass(next: &mut u8, rest: &mut Rise<'_>, n: u8) -> bool
    requires low { n < 192 }
    requires old { 192 ≤ next.old → left rest.old ≡ [] }
    ensures taken { MatchBool result (ahead next.old rest.old ≡ n ∷ ahead next.new rest.new) ((ahead next.new rest.new ≡ ahead next.old rest.old) × (slice_get (ahead next.old rest.old) 0 ≢ Some n)) }
    ensures none { 192 ≤ next.new → left rest.new ≡ [] }
{
    let found = *next == n;
    if found {
        *next = rest.take_next();
    }
    found
}

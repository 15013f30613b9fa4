// What every kind of fault set promises, by its members alone.
ghost use Rattle.std.specs.Prelude.{◌≡◌, ℕ, ◌<◌, ◌≤◌, Bool, true, false, not, ◌&&◌, ◌||◌, Decides, ◌==◌, nat_lt};
ghost use Rattle.fault_set.specs.Members.{tally};

/// A set of fault numbers: which of the numbers 0 to 191 are in it.
pub trait FaultSet: Copy {
    // whether a number is in the set
    ghost member: { Self → ℕ → Bool };

    /// Leaves no member.
    fn clear(&mut self)
        ensures { (k : ℕ) → member self.new k ≡ false };

    /// Puts n in and says yes; above 191 changes nothing and says no.
    fn add(&mut self, n: u8) -> bool
        ensures said { result ≡ nat_lt n 192 }
        ensures after { (k : ℕ) → member self.new k ≡ (member self.old k || (k == n && nat_lt n 192)) };

    /// Takes n out and says yes; above 191 changes nothing and says no.
    fn remove(&mut self, n: u8) -> bool
        ensures said { result ≡ nat_lt n 192 }
        ensures after { (k : ℕ) → member self.new k ≡ (member self.old k && not (k == n && nat_lt n 192)) };

    /// Whether n is in.
    fn has(&self, n: u8) -> bool
        ensures { result ≡ member self.now n };

    /// Adds the members of the other.
    fn unite(&mut self, other: &Self)
        ensures { (k : ℕ) → member self.new k ≡ (member self.old k || member other.now k) };

    /// Keeps the members that the other has too.
    fn keep_common(&mut self, other: &Self)
        ensures { (k : ℕ) → member self.new k ≡ (member self.old k && member other.now k) };

    /// Takes the members of the other out.
    fn take_away(&mut self, other: &Self)
        ensures { (k : ℕ) → member self.new k ≡ (member self.old k && not (member other.now k)) };

    /// Whether the two have the same members.
    fn same(&self, other: &Self) -> bool
        ensures { Decides result ((k : ℕ) → member self.now k ≡ member other.now k) };

    // Kept, rule of the project: that 192 stands for "none" is the product's own definition of this call.
    /// The smallest member at or above n, and 192 if there is none.
    fn next_after(&self, n: u8) -> u8
        ensures bound { result ≤ 192 }
        ensures least { (k : ℕ) → n ≤ k → k < result → member self.now k ≡ false }
        ensures found { result < 192 → (n ≤ result) × (member self.now result ≡ true) };

    /// How many members it has.
    fn count(&self) -> u8
        ensures { result ≡ tally (member self.now) 192 };

    // no number above 191 is ever in a set
    ghost within: { (s : Self) (n : ℕ) → 192 ≤ n → member s n ≡ false };
}

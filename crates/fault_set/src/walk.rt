// Walks over the members of any kind of fault set, smallest first.
ghost use Rattle.std.specs.Prelude.{◌≡◌, ℕ, ◌+◌, ◌<◌, [], ◌∷◌, length, MatchOption};
ghost use Rattle.std.specs.Iterator.{AlwaysYields};
ghost use Rattle.fault_set.specs.Members.{tally};
ghost use Rattle.fault_set.specs.Walks.{members_below, members_from, contains};

use crate::set::FaultSet;

/// The members of a set that are still to come, smallest first.
#[derive(Drop)]
pub struct Members<'a, S> {
    set: &'a S,
    from: u8,
}

/// Goes over the members, smallest first: all numbers that are in the set, each once, and no other.
#[tactic(auto, using(crate::proofs::Walked::contains_members, crate::proofs::Walked::length_below))]
pub fn members_of<'a, S: FaultSet>(set: &'a S) -> Members<'a, S>
    ensures shown { AlwaysYields ⟦<Members<'a, S> as Iterator>⟧.next_gives (λ n. n) result (members_below (S.member set.now) 192) }
    ensures every { (k : ℕ) → contains (members_below (S.member set.now) 192) k ≡ S.member set.now k }
    ensures long { length (members_below (S.member set.now) 192) ≡ tally (S.member set.now) 192 }
    ensures left { members_from (S.member result.set.now) result.from ≡ members_below (S.member set.now) 192 }
{
    Members::new(set)
}

impl<'a, S: FaultSet> Members<'a, S> {
    // Before the first step all members are still to come.
    #[tactic(auto, using(crate::proofs::Walked::left_all))]
    fn new(set: &'a S) -> Members<'a, S>
        ensures { members_from (S.member result.set.now) result.from ≡ members_below (S.member set.now) 192 }
    {
        Members { set, from: 0 }
    }
}

impl<'a, S: FaultSet> Iterator for Members<'a, S> {
    ghost use Rattle.std.specs.Iterator.{YieldsFirst, item_count};

    type Item = u8;

    ghost next_gives = { YieldsFirst (λ m. members_from (S.member m.set.now) m.from) };

    ghost remaining = { item_count (λ m. members_from (S.member m.set.now) m.from) };

    fn next(&mut self) -> Option<u8> {
        let n = first_from(self.set, self.from)?;
        self.from = n + 1;
        Some(n)
    }
}

// The smallest member at or above n.
fn first_from<S: FaultSet>(set: &S, n: u8) -> Option<u8>
    ensures { MatchOption result (members_from (S.member set.now) n ≡ []) (λ m. (m < 192) × (members_from (S.member set.now) n ≡ m ∷ members_from (S.member set.now) (m + 1))) }
{
    let m = set.next_after(n);
    (m < 192).then_some(m)
}

/// How many members there are, found by a walk: what `count` answers.
#[tactic(auto, using(crate::proofs::Tally::tally_le))]
pub fn count_by_walk<S: FaultSet>(set: &S) -> u8
    ensures { result ≡ tally (S.member set.now) 192 }
{
    members_of(set).count() as u8
}

// Whether tracks say the same of every circuit.
ghost use Rattle.std.specs.Prelude.{◌≡◌, ℕ, ◌<◌, ◌≤◌, Decides};
ghost use Rattle.track.specs.Answers.{answer, answers};

use crate::table::{Track, Tracks};
use fault_set::set::FaultSet;

impl<S: FaultSet> Track<S> {
    /// Whether two tracks have the same answer in every circuit.
    // Kept, no plainer: a derived `==` would ask how the sets lie, and equal members may lie in two ways.
    pub fn same(&self, other: &Track<S>) -> bool
        ensures { Decides result ((n : ℕ) → answer S.member self.now n ≡ answer S.member other.now n) }
    {
        self.good == other.good && self.differ.same(&other.differ)
    }
}

impl<S: FaultSet> Tracks<S> {
    /// Whether every circuit has the same two answers in both.
    // Kept, no plainer: as for one track.
    pub fn same(&self, other: &Tracks<S>) -> bool
        ensures { Decides result ((n : ℕ) → answers S.member self.now n ≡ answers S.member other.now n) }
    {
        self.one.same(&other.one) && self.zero.same(&other.zero)
    }
}

// Both tracks of a line at once: joins, neither read as both, and values that are held.
ghost use Rattle.std.specs.Prelude.{◌≡◌, ℕ, ◌<◌, ◌≤◌, ◌≢◌};
ghost use Rattle.ternary.specs.Logics.{by_tracks};
ghost use Rattle.track.specs.Answers.{answers, whole, joined};

use crate::table::Tracks;
use fault_set::set::FaultSet;

impl<S: FaultSet> Tracks<S> {
    /// Takes a part into a join: equal values stay, others make 2.
    pub fn join_in(&mut self, part: &Tracks<S>)
        ensures { (n : ℕ) → answers S.member self.new n ≡ joined (answers S.member self.old n) (answers S.member part.now n) }
    {
        self.one.either(&part.one);
        self.zero.either(&part.zero);
    }

    /// The tracks, with yes on both where a circuit has yes on neither.
    pub fn mended(&self) -> Tracks<S>
        ensures { (n : ℕ) → answers S.member result n ≡ whole (answers S.member self.now n) }
    {
        let mut one = self.zero.turned();
        one.either(&self.one);
        let mut zero = self.one.turned();
        zero.either(&self.zero);
        Tracks { one, zero }
    }

    /// Gives circuit n the value 0 or 1, if n is below 192, and leaves the others.
    pub fn hold(&mut self, n: u8, bit: bool)
        ensures there { n < 192 → answers S.member self.new n ≡ by_tracks.const bit }
        ensures rest { (k : ℕ) → (k ≢ n) → answers S.member self.new k ≡ answers S.member self.old k }
    {
        self.one.hold(n, bit);
        self.zero.hold(n, !bit);
    }
}

// The tracks of a line as what gates are worked out on: AND, OR and NOT in all circuits at once.
ghost use Rattle.std.specs.Prelude.{◌≡◌, ℕ};
ghost use Rattle.ternary.specs.Logics.{Tracks as Pair, by_tracks};
ghost use Rattle.track.specs.Answers.{answers};

use crate::table::Tracks;
use fault_set::set::FaultSet;
use ternary::signal::Signal;

/// Circuit n has its two answers there.
impl<S: FaultSet> Signal for Tracks<S> {
    ghost Meaning = { Pair };

    ghost logic = { by_tracks };

    ghost meaning = { answers S.member };

    fn constant(&self, bit: bool) -> Tracks<S> {
        Tracks {
            one: self.one.always(bit),
            zero: self.zero.always(!bit),
        }
    }

    fn and_in(&mut self, part: &Tracks<S>) {
        self.one.both(&part.one);
        self.zero.either(&part.zero);
    }

    fn or_in(&mut self, part: &Tracks<S>) {
        self.one.either(&part.one);
        self.zero.both(&part.zero);
    }

    fn inverted(&self) -> Tracks<S> {
        Tracks {
            one: self.zero,
            zero: self.one,
        }
    }
}

// What is known of the rows of the table, and stuck values that tracks are given.
ghost use Rattle.std.specs.Prelude.{◌≡◌, ℕ, ◌+◌, ◌<◌, ◌≤◌, true};
ghost use Rattle.ternary.specs.Values.{of};
ghost use Rattle.ternary.specs.Logics.{by_tracks, tracks as tracks_of};
ghost use Rattle.circuit.specs.Chips.{stuck_at, seen};
ghost use Rattle.track.specs.Answers.{answers, goods};
ghost use Rattle.site_index.specs.Sites.{fault_of, on_table};

use circuit::site::Site;
use fault_set::set::FaultSet;
use site_index::SiteIndex;
use ternary::signal::Signal;
use track::table::Tracks;

/// What is known of the rows that are read.
#[derive(Clone, Copy, PartialEq, Eq, Debug)]
pub enum Reading {
    /// Every circuit has an answer in each of them.
    Whole,
    /// Nothing: a circuit may have neither answer, which is read as both.
    Any,
}

/// Gives each circuit whose fault sits at the site its stuck value, and leaves the others.
/// Public only for the layers above, which go through the lines and pins of a circuit.
#[tactic(auto, using(std::proofs::lemmas::Bool::Decides::nat_tests, std::proofs::lemmas::List::Sums::fold_push, site_index::proofs::Following::left_below))]
pub fn stick<S: FaultSet>(tracks: &mut Tracks<S>, index: &SiteIndex, site: Site)
    requires { on_table site ≡ true }
    ensures { (n : ℕ) → answers S.member tracks.new n ≡ seen by_tracks.const (stuck_at (fault_of index.now.list n) site) (answers S.member tracks.old n) }
{
    let faults = &index.list().fault;
    for n in index.numbers_at(site) {
        prove!(n < 192);
        tracks.hold(n, faults[n as usize].stuck);
    }
}

/// A line that is to be at 0 or 1, where it is not stuck; `like` only lends sets to begin with.
/// Public only for the layers above, which go through the lines of a circuit.
pub fn line_of<S: FaultSet>(index: &SiteIndex, like: &Tracks<S>, i: u8, bit: bool) -> Tracks<S>
    requires { i < 48 }
    ensures faulty { (n : ℕ) → answers S.member result n ≡ tracks_of (seen of (stuck_at (fault_of index.now.list n) (Site.Stem i)) (of bit)) }
    ensures good { goods result ≡ tracks_of (of bit) }
{
    let mut tracks = like.constant(bit);
    stick(&mut tracks, index, Site::Stem(i));
    tracks
}

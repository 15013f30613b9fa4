// What a gate's line is to be in all circuits at once.
ghost use Rattle.std.specs.Prelude.{◌≡◌, ℕ, ◌+◌, None};
ghost use Rattle.ternary.specs.Logics.{by_tracks, tracks as tracks_of};
ghost use Rattle.circuit.specs.Chips.{stuck_at, seen};
ghost use Rattle.switching.specs.Chips.{chip};
ghost use Rattle.switching.specs.Phases.{target as target_in};
ghost use Rattle.track.specs.Answers.{answers, goods};
ghost use Rattle.site_index.specs.Sites.{fault_of};
ghost use Rattle.step.specs.Rows.{reading, good_reading};

use crate::gate::GateView;
use crate::rows::stick;
use circuit::site::Site;
use fault_set::set::FaultSet;
use track::table::Tracks;

impl<S: FaultSet> GateView<'_, S> {
    /// What its line is to be: its function's value, or the value at which it is stuck.
    pub fn target_of(&self) -> Tracks<S>
        ensures faulty { (n : ℕ) → answers S.member result n ≡ tracks_of (target_in (chip self.now.circuit.now.netlist (fault_of self.now.index.now.list n)) (reading S.member self.now.circuit.now.netlist.inputs self.now.lines.now n) self.now.k) }
        ensures good { goods result ≡ tracks_of (target_in (chip self.now.circuit.now.netlist None) (good_reading self.now.circuit.now.netlist.inputs self.now.lines.now) self.now.k) }
    {
        let mut tracks = self.driven();
        self.stick_line(&mut tracks);
        tracks
    }

    // Gives each circuit whose fault sits on its line the stuck value, and leaves the others.
    fn stick_line(&self, tracks: &mut Tracks<S>)
        ensures { (n : ℕ) → answers S.member tracks.new n ≡ seen by_tracks.const (stuck_at (fault_of self.now.index.now.list n) (Site.Stem (self.now.circuit.now.netlist.inputs + self.now.k))) (answers S.member tracks.old n) }
    {
        stick(tracks, self.index, Site::Stem(self.line()));
    }
}

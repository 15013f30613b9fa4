// The drafts of a pass.
ghost use Rattle.std.specs.Prelude.{◌≡◌, ℕ, ◌+◌, ◌<◌, ◌≤◌, true, map, length, slice_index_or};
ghost use Rattle.ternary.specs.Logics.{tracks as tracks_of};
ghost use Rattle.track.specs.Answers.{answers};
ghost use Rattle.step.specs.Rows.{draft_at, Readable};
ghost use Rattle.phases.specs.Reads.{changed_at, read_by};
ghost use Rattle.phases.specs.Passes.{next_of, Elsewhere};

use crate::pass::Pass;
use fault_set::set::FaultSet;
use step::gate::GateView;
use step::rows::Reading;
use switching::Phase;
use track::table::{Line, Tracks};

impl<'a> Pass<'a> {
    // What it gives a gate.
    #[tactic(auto, using(crate::proofs::Rows::spread_taken, crate::proofs::Rows::settle_taken))]
    fn next_of<S: FaultSet>(&self, gate: &GateView<'_, S>) -> Tracks<S>
        ensures { (n : ℕ) → answers S.member result n ≡ tracks_of (next_of S.member gate.now.circuit.now gate.now.index.now.list self.now.phase gate.now.lines.now n gate.now.k) }
    {
        let target = gate.target_of();
        match self.phase {
            Phase::Spread => {
                let mut next = gate.own();
                next.join_in(&target);
                next
            }
            Phase::Settle => target,
        }
    }

    // Writes the draft of every gate that reads a line that changed.
    pub(crate) fn write_drafts<S: FaultSet>(&self, lines: &mut [Line<S>])
        requires rows { Readable S.member Reading.Whole (self.now.circuit.now.netlist.inputs + self.now.circuit.now.netlist.gates) lines.old }
        ensures held { map (λ x. x.held) lines.new ≡ map (λ x. x.held) lines.old }
        ensures elsewhere { (j : ℕ) (d : Line S) → Elsewhere self.now.circuit.now.netlist.inputs (read_by (changed_at self.now.changes.now.line) self.now.circuit.now.netlist) self.now.circuit.now.netlist.gates j → slice_index_or lines.new j d ≡ slice_index_or lines.old j d }
        ensures drafts { (n k : ℕ) → k < self.now.circuit.now.netlist.gates → read_by (changed_at self.now.changes.now.line) self.now.circuit.now.netlist k ≡ true → draft_at S.member lines.new n (self.now.circuit.now.netlist.inputs + k) ≡ tracks_of (next_of S.member self.now.circuit.now self.now.index.now.list self.now.phase lines.old n k) }
    {
        let inputs = self.circuit.inputs();
        // Kept, no plainer: the gate's view is made by its number, while a walk over the rows would hold them all.
        for k in 0..self.circuit.gates() {
            if self.changes.read_by(self.circuit, k) {
                let gate = GateView::new(self.circuit, self.index, lines, Reading::Whole, k);
                let next = self.next_of(&gate);
                lines[(inputs + k) as usize].put_draft(next);
            }
        }
    }
}

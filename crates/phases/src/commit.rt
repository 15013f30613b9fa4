// Drafts are taken.
ghost use Rattle.std.specs.Prelude.{◌≡◌, ℕ, ◌+◌, ◌<◌, ◌≤◌, true, false, length, Decides, slice_index_or};
ghost use Rattle.step.specs.Rows.{stored_at, draft_at};
ghost use Rattle.phases.specs.Reads.{changed_at, read_by};
ghost use Rattle.phases.specs.Passes.{Elsewhere};

use crate::changes::Changes;
use crate::pass::Pass;
use fault_set::set::FaultSet;
use track::table::Line;

impl<'a> Pass<'a> {
    // Every gate that read a line that changed takes its draft; which lines change by that.
    pub(crate) fn commit<S: FaultSet>(&self, lines: &mut [Line<S>]) -> Changes
        requires { self.now.circuit.now.netlist.inputs + self.now.circuit.now.netlist.gates ≤ length lines.old }
        ensures elsewhere { (j : ℕ) → Elsewhere self.now.circuit.now.netlist.inputs (read_by (changed_at self.now.changes.now.line) self.now.circuit.now.netlist) self.now.circuit.now.netlist.gates j → (changed_at result.line j ≡ false) × ((d : Line S) → slice_index_or lines.new j d ≡ slice_index_or lines.old j d) }
        ensures rows { (k : ℕ) (d : Line S) → k < self.now.circuit.now.netlist.gates → read_by (changed_at self.now.changes.now.line) self.now.circuit.now.netlist k ≡ true → slice_index_or lines.new (self.now.circuit.now.netlist.inputs + k) d ≡ record { held = (slice_index_or lines.old (self.now.circuit.now.netlist.inputs + k) d).draft; draft = (slice_index_or lines.old (self.now.circuit.now.netlist.inputs + k) d).draft } }
        ensures changed { (k : ℕ) → k < self.now.circuit.now.netlist.gates → read_by (changed_at self.now.changes.now.line) self.now.circuit.now.netlist k ≡ true → changed_at result.line (self.now.circuit.now.netlist.inputs + k) ≡ false → (n : ℕ) → stored_at S.member lines.old n (self.now.circuit.now.netlist.inputs + k) ≡ draft_at S.member lines.old n (self.now.circuit.now.netlist.inputs + k) }
        ensures idle { Decides result.idle ((k : ℕ) → k < self.now.circuit.now.netlist.gates → read_by (changed_at self.now.changes.now.line) self.now.circuit.now.netlist k ≡ true → (n : ℕ) → stored_at S.member lines.old n (self.now.circuit.now.netlist.inputs + k) ≡ draft_at S.member lines.old n (self.now.circuit.now.netlist.inputs + k)) }
    {
        let inputs = self.circuit.inputs();
        let mut next = Changes::none();
        // Kept, no plainer: the gate is asked for by its number, and by a zip with the rows its line would still be marked by it.
        for k in 0..self.circuit.gates() {
            if self.changes.read_by(self.circuit, k) {
                let same = lines[(inputs + k) as usize].take_draft();
                next.note(inputs + k, same);
            }
        }
        next
    }
}

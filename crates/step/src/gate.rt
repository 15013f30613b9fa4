// What a gate reads of the rows of a table, and what its function then gives, in all circuits at once.
ghost use Rattle.std.specs.Prelude.{◌≡◌, ℕ, ◌+◌, ◌<◌, ◌≤◌, length};
ghost use Rattle.ternary.specs.Logics.{by_tracks};
ghost use Rattle.circuit.specs.Gates.{driven};
ghost use Rattle.circuit.specs.Netlists.{gate_at};
ghost use Rattle.track.specs.Answers.{answers};
ghost use Rattle.step.specs.declared.rows.Reading.{Reading};
ghost use Rattle.step.specs.Pins.{pin_reads};
ghost use Rattle.step.specs.Rows.{held_at, WholeRows, Readable};

use crate::rows::{Reading, stick};
use circuit::circuit::Circuit;
use circuit::drive::drives;
use circuit::gate::{Function, Gate};
use circuit::site::Site;
use fault_set::set::FaultSet;
use site_index::SiteIndex;
use track::table::{Line, Tracks};

/// Gate k of a circuit over the rows of its lines, with the faults of a job by their sites.
#[derive(Drop)]
pub struct GateView<'a, S: FaultSet> {
    circuit: &'a Circuit,
    pub(crate) index: &'a SiteIndex,
    lines: &'a [Line<S>],
    how: Reading,
    k: u8,
    ghost gated: { k < circuit.now.netlist.gates },
    ghost room: { circuit.now.netlist.inputs + circuit.now.netlist.gates ≤ length lines.now },
    ghost as_said: { how ≡ Reading.Whole → WholeRows S.member (circuit.now.netlist.inputs + circuit.now.netlist.gates) lines.now },
}

impl<'a, S: FaultSet> GateView<'a, S> {
    /// Gate k, where the first rows are those of the circuit's lines.
    /// Public only for the layers above, which go through the gates of a circuit and have a row for each line.
    pub fn new(
        circuit: &'a Circuit,
        index: &'a SiteIndex,
        lines: &'a [Line<S>],
        how: Reading,
        k: u8,
    ) -> GateView<'a, S>
        requires rows { Readable S.member how (circuit.now.netlist.inputs + circuit.now.netlist.gates) lines.now }
        requires gated { k < circuit.now.netlist.gates }
        ensures circuit { result.circuit.now ≡ circuit.now }
        ensures index { result.index.now ≡ index.now }
        ensures lines { result.lines.now ≡ lines.now }
        ensures gate { result.k ≡ k }
    {
        GateView {
            circuit,
            index,
            lines,
            how,
            k,
        }
    }

    // The gate as it is written down.
    fn gate(&self) -> &'a Gate
        ensures { result.now ≡ gate_at self.now.circuit.now.netlist.gate self.now.k }
    {
        &self.circuit.netlist().gate[self.k as usize]
    }

    // The line that it drives.
    pub(crate) fn line(&self) -> u8
        ensures { result ≡ self.now.circuit.now.netlist.inputs + self.now.k }
    {
        self.circuit.inputs() + self.k
    }

    // The tracks of line i, as they are read.
    #[tactic(auto, using(crate::proofs::Looks::look_at))]
    fn held(&self, i: u8) -> Tracks<S>
        requires { i < self.now.circuit.now.netlist.inputs + self.now.circuit.now.netlist.gates }
        ensures { (n : ℕ) → answers S.member result n ≡ held_at S.member self.now.lines.now n i }
    {
        let line = &self.lines[i as usize];
        match self.how {
            Reading::Whole => line.held,
            Reading::Any => line.held.mended(),
        }
    }

    /// The tracks of its own line, as they are read.
    pub fn own(&self) -> Tracks<S>
        ensures { (n : ℕ) → answers S.member result n ≡ held_at S.member self.now.lines.now n (self.now.circuit.now.netlist.inputs + self.now.k) }
    {
        self.held(self.line())
    }

    // What pin j reads.
    #[tactic(auto, unfolding(crate::specs::Pins::pin_reads))]
    fn pin(&self, j: u8) -> Tracks<S>
        requires { j < (gate_at self.now.circuit.now.netlist.gate self.now.k).pins }
        ensures { (n : ℕ) → answers S.member result n ≡ pin_reads S.member self.now.circuit.now.netlist self.now.index.now.list self.now.lines.now n self.now.k j }
    {
        let line = self.gate().pin[j as usize];
        let mut tracks = self.held(line);
        let site = Site::Pin {
            line: self.line(),
            pin: j,
        };
        stick(&mut tracks, self.index, site);
        tracks
    }

    // What its function gives where its own line has these tracks.
    fn driven_beside(&self, own: &Tracks<S>) -> Tracks<S>
        ensures { (n : ℕ) → answers S.member result n ≡ driven by_tracks (gate_at self.now.circuit.now.netlist.gate self.now.k) (pin_reads S.member self.now.circuit.now.netlist self.now.index.now.list self.now.lines.now n self.now.k) (answers S.member own.now n) }
    {
        drives(self.gate(), own, |j| self.pin(j))
    }

    // What its function gives. Of its own line a complex gate takes the shape alone, so that is not read.
    #[tactic(auto, using(crate::proofs::Gates::shape_alone))]
    pub(crate) fn driven(&self) -> Tracks<S>
        ensures { (n : ℕ) → answers S.member result n ≡ driven by_tracks (gate_at self.now.circuit.now.netlist.gate self.now.k) (pin_reads S.member self.now.circuit.now.netlist self.now.index.now.list self.now.lines.now n self.now.k) (held_at S.member self.now.lines.now n (self.now.circuit.now.netlist.inputs + self.now.k)) }
    {
        match self.gate().function {
            Function::Complex(_) => self.driven_beside(&self.lines[self.line() as usize].held),
            Function::CElement { .. } => self.driven_beside(&self.own()),
        }
    }
}

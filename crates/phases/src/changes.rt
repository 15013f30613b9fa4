// The lines that changed in a pass, in any circuit.
ghost use Rattle.std.specs.Prelude.{◌≡◌, ℕ, ◌+◌, ◌<◌, ◌≤◌, Bool, true, false, not, ◌&&◌, replicate, ◌≢◌};
ghost use Rattle.phases.specs.Reads.{changed_at, own_read, pins_read, read_by};

use circuit::circuit::Circuit;
use circuit::gate::{Function, Gate};

/// Which lines changed in a pass, and whether none did.
// Kept, no plainer: `idle` does not follow from `line`, since a line may be noted as changed and then as the same.
#[derive(Clone, Copy)]
pub struct Changes {
    pub line: [bool; 48],
    pub idle: bool,
}

// Kept, no plainer: one function that takes what `all` and `none` differ in would stand beside these two names.
impl Changes {
    /// As a phase begins, every line counts as changed.
    pub fn all() -> Changes
        ensures { result ≡ record { line = replicate 48 true; idle = false } }
    {
        Changes {
            line: [true; 48],
            idle: false,
        }
    }

    /// None yet.
    pub fn none() -> Changes
        ensures { result ≡ record { line = replicate 48 false; idle = true } }
    {
        Changes {
            line: [false; 48],
            idle: true,
        }
    }

    /// Line i stayed the same, or changed.
    /// Public only for the layers above, whose circuits have 48 lines at most.
    pub fn note(&mut self, i: u8, same: bool)
        requires { i < 48 }
        ensures here { changed_at self.new.line i ≡ not same }
        ensures others { (j : ℕ) → (j ≢ i) → changed_at self.new.line j ≡ changed_at self.old.line j }
        ensures idle { self.new.idle ≡ (self.old.idle && same) }
    {
        self.line[i as usize] = !same;
        self.idle &= same;
    }

    // Whether line i changed.
    fn changed(&self, i: u8) -> bool
        ensures { result ≡ changed_at self.now.line i }
    {
        self.line.get(i as usize).copied().unwrap_or(false)
    }

    // Whether a pin of the gate reads a line that changed.
    fn read_by_pins(&self, gate: &Gate) -> bool
        requires { gate.now.pins ≤ 8 }
        ensures { result ≡ pins_read (changed_at self.now.line) gate.now false gate.now.pins }
    {
        let pins = &gate.pin[..gate.pins as usize];
        pins.iter().any(|line| self.changed(*line))
    }

    // Whether a gate of this function reads its own line, and that changed.
    fn own_read(&self, function: &Function, line: u8) -> bool
        ensures { result ≡ own_read function.now (changed_at self.now.line line) }
    {
        match function {
            Function::Complex(_) => false,
            Function::CElement { .. } => self.changed(line),
        }
    }

    /// Whether gate k reads a line that changed: by a pin, or a C-element its own.
    /// Public only for the layers above, which go through the gates of a circuit.
    #[tactic(auto, using(crate::proofs::Pins::own_enough), unfolding(crate::specs::Reads::read_by))]
    pub fn read_by(&self, circuit: &Circuit, k: u8) -> bool
        requires { k < circuit.now.netlist.gates }
        ensures { result ≡ read_by (changed_at self.now.line) circuit.now.netlist k }
    {
        let netlist = circuit.netlist();
        let gate = &netlist.gate[k as usize];
        self.own_read(&gate.function, netlist.inputs + k) || self.read_by_pins(gate)
    }
}

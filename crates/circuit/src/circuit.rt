// The circuit, whose invariant says that it is lawful.
ghost use Rattle.std.specs.Prelude.{◌≡◌, ℕ, ◌+◌, ◌<◌, Some, None, MatchResult};
ghost use Rattle.ternary.specs.Logics.{three_valued};
ghost use Rattle.circuit.specs.Chips.{value_at, pin_sees, driven_in};
ghost use Rattle.circuit.specs.Netlists.{gate_at, trimmed, buffer, restless, AtRest, Lawful};

use crate::chip::seen_at;
use crate::design::Design;
use crate::drive::drives;
use crate::gate::{Function, Gate, Sum};
use crate::netlist::Netlist;
use crate::site::{Fault, Site};
use ternary::Value;

/// A netlist whose counts are in range, whose pins name lines and whose masks stay within their pins, with rising gate lines as outputs and a start at rest.
#[derive(Clone, Copy)]
pub struct Circuit {
    netlist: Netlist,
    ghost lawful: { Lawful netlist },
    ghost rest: { AtRest netlist },
}

impl Circuit {
    /// One input and one gate that hands it on: what reading is lent to begin with.
    pub fn built_in() -> Circuit
        ensures { trimmed result.netlist ≡ buffer }
    {
        let buffer = Gate {
            pins: 1,
            pin: [0; 8],
            function: Function::Complex(Sum {
                products: 1,
                used: [1; 8],
                inverted: [0; 8],
            }),
        };
        Circuit {
            netlist: Netlist {
                inputs: 1,
                gates: 1,
                gate: [buffer; 40],
                outputs: 1,
                output: [1; 8],
                start: [false; 48],
            },
        }
    }

    /// The circuit of a design: given once its start is seen to be at rest, else the lowest line that is not.
    pub fn at_rest(design: Design) -> Result<Circuit, u8>
        ensures { MatchResult result (λ c. (c.netlist ≡ design.netlist) × (restless design.netlist ≡ None)) (λ line. restless design.netlist ≡ Some line) }
    {
        if let Some(line) = design.first_restless() {
            return Err(line);
        }
        Ok(Circuit {
            netlist: *design.netlist(),
        })
    }

    // Kept, no plainer: k comes from a range over the gates; a type for a gate of a circuit would be made and taken apart at each call.
    // The value of gate k's function when its own line has `own`.
    fn drives_beside(&self, fault: Option<Fault>, lines: &[Value; 48], own: Value, k: u8) -> Value
        requires { k < self.now.netlist.gates }
        ensures { result ≡ driven_in three_valued self.now.netlist fault (value_at lines.now) own k }
    {
        let gate = &self.netlist.gate[k as usize];
        let line = self.netlist.inputs + k;
        drives(gate, &own, |pin| {
            let read = lines[gate.pin[pin as usize] as usize];
            seen_at(fault, Site::Pin { line, pin }, read)
        })
    }

    /// The value of gate k's function in the chip with this fault, or with none, when the lines have these values.
    /// Public only for the layers above, which go through the gates of a circuit.
    pub fn drives(&self, fault: Option<Fault>, lines: &[Value; 48], k: u8) -> Value
        requires { k < self.now.netlist.gates }
        ensures { result ≡ driven_in three_valued self.now.netlist fault (value_at lines.now) (value_at lines.now (self.now.netlist.inputs + k)) k }
    {
        let own = lines[(self.netlist.inputs + k) as usize];
        self.drives_beside(fault, lines, own, k)
    }

    /// How many inputs it has.
    pub fn inputs(&self) -> u8
        ensures { result ≡ self.now.netlist.inputs }
    {
        self.netlist.inputs
    }

    /// How many gates it has.
    pub fn gates(&self) -> u8
        ensures { result ≡ self.now.netlist.gates }
    {
        self.netlist.gates
    }

    /// The circuit as it is written down.
    pub fn netlist(&self) -> &Netlist
        ensures { result.now ≡ self.now.netlist }
    {
        &self.netlist
    }
}

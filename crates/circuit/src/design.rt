// A netlist that is lawful but for its start, and whether its start is at rest.
ghost use Rattle.std.specs.Prelude.{◌≡◌, ℕ, ◌+◌, ◌<◌, false, Decides, slice_index_or};
ghost use Rattle.circuit.specs.Netlists.{gate_at, pins_of, driven_by, restless, Rests, Lawful};

use crate::drive::drives;
use crate::netlist::Netlist;

/// A circuit but for its start: counts in range, lawful gates, and outputs that are gate lines and rise.
#[derive(Clone, Copy)]
pub struct Design {
    netlist: Netlist,
    ghost lawful: { Lawful netlist },
}

impl Design {
    /// The design of a lawful netlist.
    /// Public only for the job reader, which has checked what is required here.
    pub fn of(netlist: Netlist) -> Design
        requires { Lawful netlist }
        ensures { result.netlist ≡ netlist }
    {
        Design { netlist }
    }

    /// The netlist.
    pub fn netlist(&self) -> &Netlist
        ensures { result.now ≡ self.now.netlist }
    {
        &self.netlist
    }

    // Kept, no plainer: k comes from a range over the gates; a type for a gate of a design would be made and taken apart at each call.
    // What gate k drives at the start.
    fn drives_at_start(&self, k: u8) -> bool
        requires { k < self.now.netlist.gates }
        ensures { result ≡ driven_by (gate_at self.now.netlist.gate k) self.now.netlist.start (slice_index_or self.now.netlist.start (self.now.netlist.inputs + k) false) }
    {
        let netlist = &self.netlist;
        let gate = &netlist.gate[k as usize];
        let own = netlist.start[(netlist.inputs + k) as usize];
        drives(gate, &own, |j| {
            let line = gate.pin[j as usize];
            netlist.start.get(line as usize).copied().unwrap_or(false)
        })
    }

    // Whether gate k is at rest at the start.
    fn rests(&self, k: u8) -> bool
        requires { k < self.now.netlist.gates }
        ensures { Decides result (Rests self.now.netlist.inputs self.now.netlist.gate self.now.netlist.start k) }
    {
        let line = self.netlist.inputs + k;
        self.drives_at_start(k) == self.netlist.start[line as usize]
    }

    // The lowest line that is not at rest at the start.
    pub(crate) fn first_restless(&self) -> Option<u8>
        ensures { result ≡ restless self.now.netlist }
    {
        (0..self.netlist.gates)
            .find(|k| !self.rests(*k))
            .map(|k| self.netlist.inputs + k)
    }
}

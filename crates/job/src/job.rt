// The job and its invariant.
ghost use Rattle.std.specs.Prelude.{◌≡◌, ℕ, ◌<◌, ◌≤◌, true, length};
ghost use Rattle.circuit.specs.Netlists.{fault_at, sited};
ghost use Rattle.job.specs.BuiltIn.{BuiltIn};

use circuit::circuit::Circuit;
use circuit::site::{Fault, FaultList, Site};

/// A lawful circuit, and 1 to 192 faults on sites that it has.
#[derive(Clone, Copy)]
pub struct Job {
    circuit: Circuit,
    faults: FaultList,
    ghost some: { (0 < faults.count) × (faults.count ≤ 192) },
    ghost room: { faults.count ≤ length faults.fault },
    ghost placed: { ((n : ℕ) → n < faults.count → sited circuit.netlist (fault_at faults.fault n).site ≡ true) },
}

impl Job {
    /// A buffer whose input is stuck at 0: what reading is lent to begin with.
    pub fn built_in() -> Job
        ensures { BuiltIn result.circuit.netlist result.faults }
    {
        let stuck_input = Fault {
            site: Site::Stem(0),
            stuck: false,
        };
        let circuit = Circuit::built_in();
        let faults = FaultList {
            count: 1,
            fault: [stuck_input; 192],
        };
        Job { circuit, faults }
    }

    // The job of a circuit and faults that it has.
    pub(crate) fn of(circuit: Circuit, faults: FaultList) -> Job
        requires some { (0 < faults.count) × (faults.count ≤ 192) }
        requires room { faults.count ≤ length faults.fault }
        requires placed { (n : ℕ) → n < faults.count → sited circuit.netlist (fault_at faults.fault n).site ≡ true }
        ensures { (result.circuit ≡ circuit) × (result.faults ≡ faults) }
    {
        Job { circuit, faults }
    }

    /// The circuit.
    pub fn circuit(&self) -> &Circuit
        ensures { result.now ≡ self.now.circuit }
    {
        &self.circuit
    }

    /// The faults, numbered from 0.
    pub fn faults(&self) -> &FaultList
        ensures { result.now ≡ self.now.faults }
    {
        &self.faults
    }
}

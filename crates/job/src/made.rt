// The fault list that is made where a job names none: every line, then every pin by gate, stuck at 0 before 1.
ghost use Rattle.std.specs.Prelude.{◌≡◌, ℕ, ◌+◌, ◌*◌, ◌<◌, ◌≤◌, List, [], ◌∷◌, ◌++◌, length, take, MatchResult};
ghost use Rattle.refusal.specs.declared.CircuitFault.TheVariants.{Crowded};
ghost use Rattle.circuit.specs.declared.site.Fault.{Fault};
ghost use Rattle.format.specs.Descriptions.{both_stuck, pins_of, made};
ghost use Rattle.job.specs.Making.{Holds};

use circuit::design::Design;
use circuit::site::{Fault, FaultList, Site};
use refusal::CircuitFault;

// A list in the making: its length, and its faults as far as there is room.
// Kept, rule of the project: nothing is allocated, so it is a fixed table with a length, which also counts what finds no room.
#[derive(Clone, Copy)]
struct Making {
    length: u16,
    fault: [Fault; 192],
}

// Kept, no plainer: each call asks for the room that it needs itself, and the three bounds differ.
impl Making {
    // One fault more, kept where there is room.
    fn add(&mut self, fault: Fault)
        requires { self.old.length < 1000 }
        ensures one { self.new.length ≡ self.old.length + 1 }
        ensures holds { (l : List Fault) → Holds self.old l → Holds self.new (l ++ fault ∷ []) }
    {
        let at = self.length as usize;
        self.length += 1;
        if at < 192 {
            self.fault[at] = fault;
        }
    }

    // A site stuck at 0, and at 1.
    fn add_both(&mut self, site: Site)
        requires { self.old.length < 900 }
        ensures two { self.new.length ≡ self.old.length + 2 }
        ensures holds { (l : List Fault) → Holds self.old l → Holds self.new (l ++ both_stuck site) }
    {
        self.add(Fault { site, stuck: false });
        self.add(Fault { site, stuck: true });
    }

    // Every pin of the gate on a line.
    fn add_pins(&mut self, line: u8, pins: u8)
        requires { (self.old.length ≤ 800) × (pins ≤ 8) }
        ensures many { self.new.length ≡ self.old.length + 2 * pins }
        ensures holds { (l : List Fault) → Holds self.old l → Holds self.new (l ++ pins_of line pins) }
    {
        for pin in 0..pins {
            self.add_both(Site::Pin { line, pin });
        }
    }
}

// Every line, then every pin of every gate.
fn all_sites(design: &Design) -> Making
    ensures { Holds result (made design.now.netlist) }
{
    let netlist = design.netlist();
    let none = Fault {
        site: Site::Stem(0),
        stuck: false,
    };
    let mut making = Making {
        length: 0,
        fault: [none; 192],
    };
    let lines = netlist.inputs + netlist.gates;
    for line in 0..lines {
        making.add_both(Site::Stem(line));
    }
    for (line, gate) in (netlist.inputs..lines).zip(&netlist.gate) {
        making.add_pins(line, gate.pins);
    }
    making
}

// The made list of a design, or its length where it is above 192.
pub(crate) fn made_list(design: &Design) -> Result<FaultList, CircuitFault>
    ensures { MatchResult result (λ list. (take list.count list.fault ≡ made design.now.netlist) × (length (made design.now.netlist) ≤ 192) × (list.count ≤ 192)) (λ e. (e ≡ Crowded (length (made design.now.netlist))) × (192 < length (made design.now.netlist))) }
{
    let Making { length, fault } = all_sites(design);
    if length > 192 {
        return Err(CircuitFault::Crowded(length));
    }
    let count = length as u8;
    Ok(FaultList { count, fault })
}

// The faults that a job file names.
ghost use Rattle.std.specs.Prelude.{◌≡◌, ◌+◌, ◌≤◌, take, IfOk};
ghost use Rattle.field.specs.Answers.{ReadAs};
ghost use Rattle.format.specs.Reading.{fault_of, faults_of};

use crate::flags::read_flags;
use circuit::netlist::Netlist;
use circuit::site::{Fault, FaultList, Site};
use field::byte::Field;
use field::unread::Unread;
use refusal::FileFault;

// A fault's record, in a circuit with these inputs and gates.
// Kept, no plainer: the counts are in range before there is a circuit whose type says so, and the two readers of faults ask it.
fn read_fault<'a>(s: Unread<'a>, netlist: &Netlist) -> Result<(Fault, Unread<'a>), FileFault>
    requires { (netlist.now.inputs ≤ 8) × (netlist.now.gates ≤ 40) }
    ensures { ReadAs (λ f. f) (fault_of netlist.now.inputs (netlist.now.inputs + netlist.now.gates) netlist.now.gate) s.entry result }
{
    let ((stuck, pinned), rest) = read_flags(s)?;
    let lines = netlist.inputs + netlist.gates;
    if !pinned {
        let stem = Field::Place {
            from: 0,
            below: lines,
        };
        let (line, rest) = rest.byte(stem)?;
        let site = Site::Stem(line);
        return Ok((Fault { site, stuck }, rest));
    }
    let gate_line = Field::Place {
        from: u16::from(netlist.inputs),
        below: lines,
    };
    let (line, rest) = rest.byte(gate_line)?;
    let below = netlist.gate[(line - netlist.inputs) as usize].pins;
    let (pin, rest) = rest.byte(Field::Place { from: 0, below })?;
    let site = Site::Pin { line, pin };
    Ok((Fault { site, stuck }, rest))
}

// The count of the faults, and their records.
pub(crate) fn read_faults<'a>(
    s: Unread<'a>,
    netlist: &Netlist,
) -> Result<(FaultList, Unread<'a>), FileFault>
    requires { (netlist.now.inputs ≤ 8) × (netlist.now.gates ≤ 40) }
    ensures is { ReadAs (λ list. take list.count list.fault) (faults_of netlist.now.inputs (netlist.now.inputs + netlist.now.gates) netlist.now.gate) s.entry result }
    ensures few { IfOk result (λ p. p.0.count ≤ 192) }
{
    let most = Field::Count {
        least: 1,
        most: 192,
    };
    let (count, rest) = s.byte(most)?;
    let mut fault = [Fault {
        site: Site::Stem(0),
        stuck: false,
    }; 192];
    let rest = rest.fill(&mut fault[..count as usize], |_, rest| {
        read_fault(rest, netlist)
    })?;
    Ok((FaultList { count, fault }, rest))
}

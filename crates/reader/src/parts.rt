// All the fields of a job file.
ghost use Rattle.std.specs.Prelude.{IfOk};
ghost use Rattle.field.specs.Answers.{ReadAs, whole};
ghost use Rattle.format.specs.Reading.{parts_of};
ghost use Rattle.reader.specs.Parts.{parts_seen, Few};

use crate::fault::read_faults;
use crate::gate::read_gates;
use crate::head::read_head;
use circuit::netlist::Netlist;
use circuit::site::FaultList;
use field::unread::Unread;
use refusal::FileFault;

/// A netlist, and the faults where the file names them.
#[derive(Clone, Copy)]
pub struct Parts {
    pub netlist: Netlist,
    pub faults: Option<FaultList>,
}

/// The fields of a file, from left to right, and what is left over.
pub fn read_parts(file: &[u8]) -> Result<(Parts, Unread), FileFault>
    ensures is { ReadAs parts_seen parts_of (whole file.entry) result }
    ensures few { IfOk result (λ p. Few p.0.faults) }
{
    let (head, rest) = read_head(Unread::new(file))?;
    let (gate, rest) = read_gates(rest, head.inputs + head.gates, head.gates)?;
    let output = head.output;
    let start = head.start;
    let netlist = Netlist {
        inputs: head.inputs,
        gates: head.gates,
        gate,
        outputs: head.outputs,
        output,
        start,
    };
    if !head.with_faults {
        let faults = None;
        return Ok((Parts { netlist, faults }, rest));
    }
    let (list, rest) = read_faults(rest, &netlist)?;
    let faults = Some(list);
    Ok((Parts { netlist, faults }, rest))
}

// What a job file says before its gates.
ghost use Rattle.std.specs.Prelude.{◌≡◌, ℕ, ◌≤◌, take, IfOk};
ghost use Rattle.field.specs.Answers.{ReadAs};
ghost use Rattle.format.specs.Reading.{unpacked, start_of, head_of};
ghost use Rattle.reader.specs.Heads.{head_seen};

use crate::flags::read_flags;
use circuit::drive::has;
use field::byte::Field;
use field::row::Row;
use field::unread::Unread;
use refusal::FileFault;
use std::array;

// Whether start values and faults are given, the counts, the outputs and the start values.
// Kept, rule of the project: nothing is allocated, so outputs and start values are the fixed tables of the netlist that they go to.
#[derive(Clone, Copy)]
pub(crate) struct Head {
    pub with_start: bool,
    pub with_faults: bool,
    pub inputs: u8,
    pub gates: u8,
    pub outputs: u8,
    pub output: [u8; 8],
    pub start: [bool; 48],
}

// The values of all lines that there may be: line n is bit n mod 8 of byte n div 8.
fn unpack(bytes: &[u8; 8]) -> [bool; 48]
    ensures { (lines : ℕ) → lines ≤ 48 → take lines result ≡ unpacked bytes.now lines }
{
    array::from_fn(|line| has(bytes[line / 8], (line % 8) as u8))
}

// Start values, all 0 where the file gives none.
fn read_start(s: Unread, given: bool, lines: u8) -> Result<([bool; 48], Unread), FileFault>
    requires { lines ≤ 48 }
    ensures { ReadAs (take lines) (start_of given lines) s.entry result }
{
    if !given {
        return Ok(([false; 48], s));
    }
    let (bytes, rest) = s.row(Row::Start { lines }, (lines + 7) / 8)?;
    Ok((unpack(&bytes), rest))
}

// The head of a file.
pub(crate) fn read_head(s: Unread) -> Result<(Head, Unread), FileFault>
    ensures is { ReadAs head_seen head_of s.entry result }
    ensures ranged { IfOk result (λ p. (p.0.inputs ≤ 8) × (p.0.gates ≤ 40) × (p.0.outputs ≤ 8)) }
{
    let ((with_start, with_faults), rest) = read_flags(s)?;
    let (inputs, rest) = rest.byte(Field::Count { least: 1, most: 8 })?;
    let (gates, rest) = rest.byte(Field::Count { least: 1, most: 40 })?;
    let (outputs, rest) = rest.byte(Field::Count { least: 1, most: 8 })?;
    let lines = inputs + gates;
    let (output, rest) = rest.row(Row::Outputs { inputs, lines }, outputs)?;
    let (start, rest) = read_start(rest, with_start, lines)?;
    let head = Head {
        with_start,
        with_faults,
        inputs,
        gates,
        outputs,
        output,
        start,
    };
    Ok((head, rest))
}

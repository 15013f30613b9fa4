// The record of a gate.
ghost use Rattle.std.specs.Prelude.{◌≡◌, ◌≤◌, map, take, replicate, if◌then◌else◌};
ghost use Rattle.field.specs.Answers.{ReadAs};
ghost use Rattle.field.specs.Rows.{row_of};
ghost use Rattle.field.specs.declared.row.Row.TheVariants.{Inverted};
ghost use Rattle.circuit.specs.Netlists.{trimmed_function, trimmed_gate};
ghost use Rattle.format.specs.Reading.{opening_of, optional, complex_of, c_element_of, function_of, gate_of, gates_of};
ghost use Rattle.format.specs.Written.{map_of};

use circuit::drive::has;
use circuit::gate::{Function, Gate, Sum};
use field::byte::{Field, low_bits};
use field::row::Row;
use field::unread::Unread;
use refusal::FileFault;

// What a gate's record opens with: whether products follow, whether inverted masks follow, and the pin count.
#[derive(Clone, Copy)]
struct Opening {
    complex: bool,
    masks: bool,
    pins: u8,
}

// A complex gate has at least one pin, a C-element two.
fn least_pins(complex: bool) -> u8
    ensures { result ≡ (if complex then 1 else 2) }
{
    if complex { 1 } else { 2 }
}

// Reads a record's opening: a byte that is there and wrong comes before one that is missing.
// Kept, rule of the project: the record is opened by one slice pattern that names its first bytes and the rest.
fn read_opening(s: Unread) -> Result<(Opening, Unread), FileFault>
    ensures { ReadAs (λ o. (map_of o.complex o.masks, o.pins)) opening_of s.entry result }
{
    let map_field = Field::Bits { known: 3 };
    match s.rest {
        [map, pins, rest @ ..] => {
            if !map_field.admits(*map) {
                return Err(map_field.refusal(s.place()));
            }
            let complex = has(*map, 0);
            let pins_field = Field::Count {
                least: least_pins(complex),
                most: 8,
            };
            if !pins_field.admits(*pins) {
                return Err(pins_field.refusal(s.place() + 1));
            }
            let opening = Opening {
                complex,
                masks: has(*map, 1),
                pins: *pins,
            };
            let end = s.end;
            Ok((opening, Unread { rest, end }))
        }
        [map] => {
            if !map_field.admits(*map) {
                return Err(map_field.refusal(s.place()));
            }
            Err(FileFault::Short(s.end))
        }
        [] => Err(FileFault::Short(s.end)),
    }
}

// The products of a complex gate: a count, used masks, and inverted masks where they follow.
fn read_complex(s: Unread, opening: Opening) -> Result<(Function, Unread), FileFault>
    ensures { ReadAs trimmed_function (complex_of opening.masks opening.pins) s.entry result }
{
    let (products, rest) = s.byte(Field::Count { least: 1, most: 8 })?;
    let (used, rest) = rest.row(Row::Used { pins: opening.pins }, products)?;
    let (inverted, rest) = read_masks(rest, opening, used, products)?;
    let sum = Sum {
        products,
        used,
        inverted,
    };
    Ok((Function::Complex(sum), rest))
}

// The inverted masks of products, all 0 where none follow.
// Kept, rule of the project: nothing is allocated, so used masks are the fixed row of the sum that they go to, with its count.
#[tactic(auto, using(crate::proofs::Masks::masks_absent, crate::proofs::Masks::masks_present))]
fn read_masks(
    s: Unread,
    opening: Opening,
    used: [u8; 8],
    products: u8,
) -> Result<([u8; 8], Unread), FileFault>
    requires { products ≤ 8 }
    ensures { ReadAs (take products) (λ end. optional opening.masks (replicate products 0) (row_of (Inverted (take products used)) products end)) s.entry result }
{
    if opening.masks {
        s.row(Row::Inverted { used }, products)
    } else {
        Ok(([0; 8], s))
    }
}

// A C-element's inverted mask, 0 where none follows.
fn read_c_element(s: Unread, opening: Opening) -> Result<(Function, Unread), FileFault>
    ensures { ReadAs trimmed_function (c_element_of opening.masks opening.pins) s.entry result }
{
    if !opening.masks {
        return Ok((Function::CElement { inverted: 0 }, s));
    }
    let known = low_bits(opening.pins);
    let (inverted, rest) = s.byte(Field::Bits { known })?;
    Ok((Function::CElement { inverted }, rest))
}

// What follows the pins of a gate.
fn read_function(s: Unread, opening: Opening) -> Result<(Function, Unread), FileFault>
    ensures { ReadAs trimmed_function (function_of (map_of opening.complex opening.masks) opening.pins) s.entry result }
{
    if opening.complex {
        read_complex(s, opening)
    } else {
        read_c_element(s, opening)
    }
}

// A gate's record, in a circuit of so many lines.
fn read_gate(s: Unread, lines: u8) -> Result<(Gate, Unread), FileFault>
    ensures { ReadAs trimmed_gate (gate_of lines) s.entry result }
{
    let (opening, rest) = read_opening(s)?;
    let pins = opening.pins;
    let (pin, rest) = rest.row(Row::Pins { lines }, pins)?;
    let (function, rest) = read_function(rest, opening)?;
    let gate = Gate {
        pins,
        pin,
        function,
    };
    Ok((gate, rest))
}

// The records of all gates, in a circuit of so many lines.
pub(crate) fn read_gates(s: Unread, lines: u8, gates: u8) -> Result<([Gate; 40], Unread), FileFault>
    requires { gates ≤ 40 }
    ensures { ReadAs (λ table. map trimmed_gate (take gates table)) (gates_of lines gates) s.entry result }
{
    let blank = Gate {
        pins: 0,
        pin: [0; 8],
        function: Function::CElement { inverted: 0 },
    };
    let mut table = [blank; 40];
    let rest = s.fill(
        &mut table[..gates as usize],
        |_, rest| read_gate(rest, lines),
    )?;
    Ok((table, rest))
}

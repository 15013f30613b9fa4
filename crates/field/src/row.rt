// Rows of at most eight bytes, whose fields may depend on the bytes before.
ghost use Rattle.std.specs.Prelude.{◌≡◌, ◌<◌, ◌≤◌, length, take};
ghost use Rattle.field.specs.Answers.{ReadAs, filled};
ghost use Rattle.field.specs.Rows.{field_after, row_of};

use crate::byte::{Field, low_bits};
use crate::unread::Unread;
use refusal::FileFault;

/// What a row of bytes holds.
// Kept, no plainer: promises speak of a row by its name, as in `row_of row count`; of a closure they could only speak through what it answers.
#[derive(Clone, Copy)]
pub enum Row {
    /// Gate lines, each above the one before.
    Outputs { inputs: u8, lines: u8 },
    /// Start values, eight lines to a byte.
    Start { lines: u8 },
    /// The lines that pins read.
    Pins { lines: u8 },
    /// The used masks of products over so many pins.
    Used { pins: u8 },
    /// The inverted masks of products with these used masks.
    Inverted { used: [u8; 8] },
}

impl Row {
    // Kept, no plainer: a row has eight places, and a type for counts up to eight would be made of a byte at each read.
    // The field of the byte after these.
    fn field(&self, before: &[u8]) -> Field
        requires { length before.now < 8 }
        ensures { result ≡ field_after self.now before.now }
    {
        match *self {
            Row::Outputs { inputs, lines } => {
                let from = before
                    .last()
                    .map_or(u16::from(inputs), |last| u16::from(*last) + 1);
                Field::Place { from, below: lines }
            }
            Row::Start { lines } => Field::Bits {
                known: low_bits(lines.saturating_sub(8 * before.len() as u8)),
            },
            Row::Pins { lines } => Field::Place {
                from: 0,
                below: lines,
            },
            Row::Used { pins } => Field::Count {
                least: 1,
                most: low_bits(pins),
            },
            Row::Inverted { used } => Field::Bits {
                known: used[before.len()],
            },
        }
    }
}

impl<'a> Unread<'a> {
    // Fills a table with the bytes of a row.
    fn fill_row(self, row: Row, bytes: &mut [u8]) -> Result<Unread<'a>, FileFault>
        requires { length bytes.old ≤ 8 }
        ensures { ReadAs (λ b. b) (row_of row (length bytes.old)) self.entry (filled result bytes.new) }
    {
        self.fill(bytes, |before, rest| rest.byte(row.field(before)))
    }

    /// The next `count` bytes, as the row has them.
    /// Public only for the readers above, which keep to rows of eight.
    pub fn row(self, row: Row, count: u8) -> Result<([u8; 8], Unread<'a>), FileFault>
        requires { count ≤ 8 }
        ensures { ReadAs (take count) (row_of row count) self.entry result }
    {
        let mut bytes = [0; 8];
        let rest = self.fill_row(row, &mut bytes[..count as usize])?;
        Ok((bytes, rest))
    }
}

// One byte of a file, tested by its field.
ghost use Rattle.std.specs.Prelude.{◌≡◌, ◌-◌, ◌^◌, min};
ghost use Rattle.field.specs.Fields.{admits, refusal};

use refusal::FileFault;

/// What a byte of a field may be.
#[derive(Clone, Copy)]
pub enum Field {
    /// A count or a mask from `least` to `most`; else out of range.
    Count { least: u8, most: u8 },
    /// A map or a mask with no bit outside `known`; else stray.
    Bits { known: u8 },
    /// The number of a line or a pin, from `from` up and below `below`; else nowhere.
    Place { from: u16, below: u8 },
}

impl Field {
    /// Whether the field takes this byte.
    pub fn admits(&self, byte: u8) -> bool
        ensures { result ≡ admits self.now byte }
    {
        match *self {
            Field::Count { least, most } => least <= byte && byte <= most,
            Field::Bits { known } => byte & known == byte,
            Field::Place { from, below } => from <= u16::from(byte) && byte < below,
        }
    }

    /// Why a byte that the field does not take is turned down.
    pub fn refusal(&self, place: usize) -> FileFault
        ensures { result ≡ refusal self.now place }
    {
        match *self {
            Field::Count { .. } => FileFault::Range(place),
            Field::Bits { .. } => FileFault::Stray(place),
            Field::Place { .. } => FileFault::Nowhere(place),
        }
    }
}

/// The mask of the lowest `n` bits, of all eight where `n` is above eight.
pub fn low_bits(n: u8) -> u8
    ensures { result ≡ 2 ^ (min n 8) - 1 }
{
    if n < 8 { (1 << n) - 1 } else { 255 }
}

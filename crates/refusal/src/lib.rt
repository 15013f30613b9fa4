// Why a call turns its input down: three layers, each wrapping the one below.
#![tactic(auto)]

ghost use Rattle.std.specs.Prelude.{◌≡◌, Some};
ghost use Rattle.refusal.specs.Refusals.{number_of, layer_of, place_of, refusal_text};
ghost use Rattle.refusal.specs.declared.CircuitFault.TheVariants.{File};
ghost use Rattle.refusal.specs.declared.GradingFault.TheVariants.{Circuit};

use std::fmt;

/// What is wrong with the bytes of a job file; each names an offset in the file.
#[derive(Clone, Copy, PartialEq, Eq, Debug)]
pub enum FileFault {
    Short(usize),
    Range(usize),
    Stray(usize),
    Nowhere(usize),
    Overlong(usize),
}

/// What is wrong with a circuit whose file is well formed.
#[derive(Clone, Copy, PartialEq, Eq, Debug)]
pub enum CircuitFault {
    File(FileFault),
    /// The made fault list is too long: its length.
    Crowded(u16),
    /// The start is not at rest: the lowest line that would switch.
    Restless(u8),
}

/// Why a grading turns a call down.
#[derive(Clone, Copy, PartialEq, Eq, Debug)]
pub enum GradingFault {
    Circuit(CircuitFault),
    /// A lent table is too small: the number of rows needed.
    Small(usize),
    /// A vector sets a bit that is no input: the lowest such bit.
    Input(u8),
    /// As many vectors as a grading takes were accepted.
    Full,
    /// The good circuit does not come to rest: the lowest gate line still to switch.
    Oscillation(u8),
    /// The good circuit's rest depends on the order of switching: the lowest gate line at 2.
    Race(u8),
    /// No such fault, line or gate: the number asked for.
    Unknown(u8),
    /// The report does not fit its buffer: the bytes needed.
    Narrow(usize),
}

impl From<FileFault> for CircuitFault {
    ghost from_gives = { λ e r. r ≡ File e };

    fn from(e: FileFault) -> CircuitFault {
        CircuitFault::File(e)
    }
}

impl From<CircuitFault> for GradingFault {
    ghost from_gives = { λ e r. r ≡ Circuit e };

    fn from(e: CircuitFault) -> GradingFault {
        GradingFault::Circuit(e)
    }
}

impl FileFault {
    // Its number, for the layers above.
    fn number(&self) -> u8
        ensures { result ≡ number_of (Circuit (File self.now)) }
    {
        match self {
            FileFault::Short(_) => 1,
            FileFault::Range(_) => 2,
            FileFault::Stray(_) => 3,
            FileFault::Nowhere(_) => 4,
            FileFault::Overlong(_) => 5,
        }
    }

    // The offset that it names.
    fn place(&self) -> usize
        ensures { result ≡ place_of (Circuit (File self.now)) }
    {
        match *self {
            FileFault::Short(place)
            | FileFault::Range(place)
            | FileFault::Stray(place)
            | FileFault::Nowhere(place)
            | FileFault::Overlong(place) => place,
        }
    }
}

impl GradingFault {
    /// The number of the ground, from 1 to 14.
    pub fn number(&self) -> u8
        ensures { result ≡ number_of self.now }
    {
        match *self {
            GradingFault::Circuit(CircuitFault::File(fault)) => fault.number(),
            GradingFault::Circuit(CircuitFault::Crowded(_)) => 6,
            GradingFault::Circuit(CircuitFault::Restless(_)) => 7,
            GradingFault::Small(_) => 8,
            GradingFault::Input(_) => 9,
            GradingFault::Full => 10,
            GradingFault::Oscillation(_) => 11,
            GradingFault::Race(_) => 12,
            GradingFault::Unknown(_) => 13,
            GradingFault::Narrow(_) => 14,
        }
    }

    /// The layer that turned the input down: 1 the file, 2 the circuit, 3 the grading.
    pub fn layer(&self) -> u8
        ensures { result ≡ layer_of self.now }
    {
        match self {
            GradingFault::Circuit(CircuitFault::File(_)) => 1,
            GradingFault::Circuit(_) => 2,
            _ => 3,
        }
    }

    /// The place of what is wrong, as its ground counts places.
    pub fn place(&self) -> usize
        ensures { result ≡ place_of self.now }
    {
        match *self {
            GradingFault::Circuit(CircuitFault::File(fault)) => fault.place(),
            GradingFault::Circuit(CircuitFault::Crowded(length)) => usize::from(length),
            GradingFault::Circuit(CircuitFault::Restless(line))
            | GradingFault::Oscillation(line)
            | GradingFault::Race(line) => usize::from(line),
            GradingFault::Small(rows) => rows,
            GradingFault::Input(bit) => usize::from(bit),
            // Kept, rule of the project: 255 is the place that a full grading prints.
            GradingFault::Full => 255,
            GradingFault::Unknown(number) => usize::from(number),
            GradingFault::Narrow(bytes) => bytes,
        }
    }
}

/// Prints the number, the layer and the place.
impl fmt::Display for GradingFault {
    ghost output = { λ fault. Some (refusal_text fault) };

    fn fmt<W: fmt::Write>(&self, f: &mut fmt::Formatter<W>) -> fmt::Result {
        let number = self.number();
        let layer = self.layer();
        let place = self.place();
        write!(f, "refused {number} layer {layer} place {place}")
    }
}

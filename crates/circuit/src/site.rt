// Where faults sit, and lists of them.
ghost use Rattle.circuit.specs.Texts.{site_text, fault_text};
ghost use Rattle.std.specs.Prelude.{Some};

use std::fmt;

/// A line, or one pin of the gate that drives a line.
#[derive(Clone, Copy, PartialEq, Eq, Debug)]
pub enum Site {
    Stem(u8),
    Pin { line: u8, pin: u8 },
}

/// A site held at a value.
#[derive(Clone, Copy, PartialEq, Eq, Debug)]
pub struct Fault {
    pub site: Site,
    pub stuck: bool,
}

// Kept, rule of the project: nothing is allocated and a job is Copy, so the list is a fixed table with a count.
/// The faults of a job, numbered from 0; places past the count are not looked at.
#[derive(Clone, Copy)]
pub struct FaultList {
    pub count: u8,
    pub fault: [Fault; 192],
}

/// Prints `L2` for a line, `L2.1` for a pin.
impl fmt::Display for Site {
    ghost output = { λ site. Some (site_text site) };

    fn fmt<W: fmt::Write>(&self, f: &mut fmt::Formatter<W>) -> fmt::Result {
        match *self {
            Site::Stem(line) => write!(f, "L{line}"),
            Site::Pin { line, pin } => write!(f, "L{line}.{pin}"),
        }
    }
}

/// Prints the site and the stuck value.
impl fmt::Display for Fault {
    ghost output = { λ fault. Some (fault_text fault) };

    fn fmt<W: fmt::Write>(&self, f: &mut fmt::Formatter<W>) -> fmt::Result {
        let site = self.site;
        let stuck = if self.stuck { "sa1" } else { "sa0" };
        write!(f, "{site} {stuck}")
    }
}

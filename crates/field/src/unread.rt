// What is left of a file, and how bytes are read off it.
ghost use Rattle.std.specs.Prelude.{◌≤◌, length};

use crate::byte::Field;
use refusal::FileFault;

/// What is left of a file to read, and the length of the whole file.
#[derive(Clone, Copy)]
pub struct Unread<'a> {
    pub rest: &'a [u8],
    pub end: usize,
    pub ghost inside: { length rest.now ≤ end },
}

impl<'a> Unread<'a> {
    ghost use Rattle.std.specs.Prelude.{◌≡◌, ℕ, ◌-◌, ◌<◌, ◌==◌, IfOk, OnErr};
    ghost use Rattle.field.specs.Fields.{Bounds, byte_of};
    ghost use Rattle.field.specs.Answers.{ReadAs, Told, BrokenOff, filled};

    /// A file, all of it still to be read.
    pub fn new(file: &'a [u8]) -> Unread<'a>
        ensures { (result.rest.now ≡ file.now) × (result.end ≡ length file.now) }
    {
        Unread {
            rest: file,
            end: file.len(),
        }
    }

    /// The offset of the next byte.
    pub fn place(&self) -> usize
        ensures { result ≡ self.now.end - length self.now.rest.now }
    {
        self.end - self.rest.len()
    }

    /// Whether all of the file was read.
    pub fn is_empty(&self) -> bool
        ensures { result ≡ (length self.now.rest.now == 0) }
    {
        self.rest.is_empty()
    }

    /// The next byte, as its field has it.
    pub fn byte(self, field: Field) -> Result<(u8, Unread<'a>), FileFault>
        ensures is { ReadAs (λ b. b) (byte_of field) self.entry result }
        ensures bounded { IfOk result (λ p. Bounds field p.0) }
    {
        match self.rest {
            [byte, rest @ ..] => {
                if !field.admits(*byte) {
                    return Err(field.refusal(self.place()));
                }
                let end = self.end;
                Ok((*byte, Unread { rest, end }))
            }
            [] => Err(FileFault::Short(self.end)),
        }
    }

    /// Reads things one after another until the table is full, each in the light of those before it.
    /// Where one is refused, so is the whole: the table then has the things before that one, and keeps its other places.
    #[tactic(auto, using(crate::proofs::Filling::filled_none, crate::proofs::Filling::filled_whole, crate::proofs::Filling::broken_off))]
    pub fn fill<T: Copy, F: Fn(&[T], Unread<'a>) -> Result<(T, Unread<'a>), FileFault>>(
        self,
        table: &mut [T],
        read: F,
    ) -> Result<Unread<'a>, FileFault>
        requires { (before : _) (s : _) → length before.now < length table.old → F.pre read before s }
        ensures told { Told (F.post read) (length table.old) self.entry (filled result table.new) }
        ensures refused { OnErr result (BrokenOff (F.post read) table.old self.entry table.new) }
    {
        let mut left = self;
        // Kept, no plainer: the step is shown the places before, which an iterator over the places would hold.
        for at in 0..table.len() {
            let (thing, rest) = read(&table[..at], left)?;
            table[at] = thing;
            left = rest;
        }
        Ok(left)
    }
}

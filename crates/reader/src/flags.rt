// The map that a record opens with.
ghost use Rattle.field.specs.Fields.{byte_of};
ghost use Rattle.field.specs.Answers.{ReadAs};
ghost use Rattle.field.specs.declared.byte.Field.TheVariants.{Bits};
ghost use Rattle.format.specs.Written.{map_of};

use circuit::drive::has;
use field::byte::Field;
use field::unread::Unread;
use refusal::FileFault;

// The two flags of a map: bit 0, the lowest, and bit 1.
pub(crate) fn read_flags(s: Unread) -> Result<((bool, bool), Unread), FileFault>
    ensures { ReadAs (λ f. map_of f.0 f.1) (byte_of (Bits 3)) s.entry result }
{
    let (map, rest) = s.byte(Field::Bits { known: 3 })?;
    Ok(((has(map, 0), has(map, 1)), rest))
}

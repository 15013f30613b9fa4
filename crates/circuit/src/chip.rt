// A chip, a circuit with at most one fault: what is seen at its sites.
ghost use Rattle.std.specs.Prelude.{◌≡◌};
ghost use Rattle.ternary.specs.Values.{of};
ghost use Rattle.circuit.specs.Chips.{stuck_at, seen};

use crate::site::{Fault, Site};
use ternary::Value;

/// What is seen at a site that would have this value: the stuck value if the fault sits there.
pub fn seen_at(fault: Option<Fault>, site: Site, value: Value) -> Value
    ensures { result ≡ seen of (stuck_at fault site) value }
{
    match fault {
        Some(fault) if fault.site == site => Value::from(fault.stuck),
        _ => value,
    }
}

// The values of a line, and AND, OR and NOT on them.
#![tactic(auto)]

ghost use Rattle.std.specs.Prelude.{◌≡◌};
ghost use Rattle.ternary.specs.Values.{of, and₃, or₃, not₃, join};

pub mod signal;

/// 0, 1, or 2 for a line that has not settled.
#[derive(Clone, Copy, PartialEq, Eq, Debug)]
pub enum Value {
    Zero,
    One,
    Two,
}

/// 1 for true, 0 for false.
impl From<bool> for Value {
    ghost from_gives = { λ bit r. r ≡ of bit };

    fn from(bit: bool) -> Value {
        if bit { Value::One } else { Value::Zero }
    }
}

impl Value {
    /// 0 if a part is 0, 1 if both are 1, else 2.
    pub fn and(self, other: Value) -> Value
        ensures { result ≡ and₃ self other }
    {
        match (self, other) {
            (Value::Zero, _) => Value::Zero,
            (Value::One, v) => v,
            (Value::Two, Value::Zero) => Value::Zero,
            (Value::Two, _) => Value::Two,
        }
    }

    // Kept, no plainer: as NOT of an AND of NOTs it would hide its own table.
    /// 1 if a part is 1, 0 if both are 0, else 2.
    pub fn or(self, other: Value) -> Value
        ensures { result ≡ or₃ self other }
    {
        match (self, other) {
            (Value::One, _) => Value::One,
            (Value::Zero, v) => v,
            (Value::Two, Value::One) => Value::One,
            (Value::Two, _) => Value::Two,
        }
    }

    /// 0 and 1 exchanged; 2 stays.
    pub fn not(self) -> Value
        ensures { result ≡ not₃ self }
    {
        match self {
            Value::Zero => Value::One,
            Value::One => Value::Zero,
            Value::Two => Value::Two,
        }
    }

    /// The value itself if the other is the same, else 2.
    pub fn join(self, other: Value) -> Value
        ensures { result ≡ join self other }
    {
        if self == other { self } else { Value::Two }
    }
}

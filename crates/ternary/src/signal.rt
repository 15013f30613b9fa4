// What gates are worked out on: truth values, values, or the tracks of a line in many circuits at once.
ghost use Rattle.std.specs.Prelude.{◌≡◌, ℕ, Bool};
ghost use Rattle.ternary.specs.declared.Value.{Value};
ghost use Rattle.ternary.specs.Logics.{Logic, two_valued, three_valued};

use crate::Value;

/// What stands on a line or a pin, in one circuit or in many circuits at once: with constants, AND, OR and NOT.
pub trait Signal: Copy {
    // what stands there in one circuit
    ghost Meaning: { Type 0 };

    // AND, OR and NOT there
    ghost logic: { Logic Meaning };

    // what a signal means in circuit n
    ghost meaning: { Self → ℕ → Meaning };

    /// The constant, in every circuit; this signal only lends its shape.
    fn constant(&self, bit: bool) -> Self
        ensures { (n : ℕ) → meaning result n ≡ logic.const bit };

    /// Takes a part into an AND.
    fn and_in(&mut self, part: &Self)
        ensures { (n : ℕ) → meaning self.new n ≡ logic.both (meaning self.old n) (meaning part.now n) };

    /// Takes a part into an OR.
    fn or_in(&mut self, part: &Self)
        ensures { (n : ℕ) → meaning self.new n ≡ logic.either (meaning self.old n) (meaning part.now n) };

    /// NOT.
    fn inverted(&self) -> Self
        ensures { (n : ℕ) → meaning result n ≡ logic.invert (meaning self.now n) };
}

impl Signal for bool {
    ghost Meaning = { Bool };

    ghost logic = { two_valued };

    ghost meaning = { λ bit _. bit };

    fn constant(&self, bit: bool) -> bool {
        bit
    }

    fn and_in(&mut self, part: &bool) {
        *self &= *part;
    }

    fn or_in(&mut self, part: &bool) {
        *self |= *part;
    }

    fn inverted(&self) -> bool {
        !*self
    }
}

impl Signal for Value {
    ghost Meaning = { Value };

    ghost logic = { three_valued };

    ghost meaning = { λ value _. value };

    fn constant(&self, bit: bool) -> Value {
        Value::from(bit)
    }

    fn and_in(&mut self, part: &Value) {
        *self = self.and(*part);
    }

    fn or_in(&mut self, part: &Value) {
        *self = self.or(*part);
    }

    fn inverted(&self) -> Value {
        self.not()
    }
}

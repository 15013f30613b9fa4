// The function of a gate, on the signals that its pins see.
ghost use Rattle.std.specs.Prelude.{◌≡◌, ℕ, ◌<◌, slice_index};
ghost use Rattle.circuit.specs.Gates.{bit, literal, product, sum, function_of, driven, CanRead, Sees};

use crate::gate::{Function, Gate, Sum};
use ternary::signal::Signal;

/// Whether a mask has bit j; past its eight bits it has none.
pub fn has(mask: u8, j: u8) -> bool
    ensures { result ≡ bit mask j }
{
    j < 8 && (mask >> j) % 2 == 1
}

// The mask of product p; past the row's end it has no bit.
fn mask_at(masks: &[u8; 8], p: u8) -> u8
    ensures { result ≡ slice_index masks.now p }
{
    masks.get(p as usize).copied().unwrap_or(0)
}

// A gate, the signal of its own line, and how its pins are read.
#[derive(Drop)]
struct AtGate<'a, T: Signal, P: Fn(u8) -> T> {
    gate: &'a Gate,
    own: &'a T,
    pin: &'a P,
}

// Kept, proof did not close: the check takes no ghost field that cites what a closure asks, so each method asks that the pins can be read.
impl<T: Signal, P: Fn(u8) -> T> AtGate<'_, T, P> {
    // Pin j, inverted where the mask has bit j.
    #[tactic(auto, unfolding(crate::specs::Gates::literal))]
    fn literal(&self, j: u8, inverted: u8) -> T
        requires readable { CanRead (P.pre self.now.pin.now) self.now.gate.now }
        requires has { j < self.now.gate.now.pins }
        ensures { (n : ℕ) (pin : ℕ → T.Meaning) → Sees T.meaning n (P.post self.now.pin.now) self.now.gate.now pin → T.meaning result n ≡ literal T.logic pin inverted j }
    {
        let pin = (self.pin)(j);
        if has(inverted, j) {
            pin.inverted()
        } else {
            pin
        }
    }

    // The AND of the pins that a product uses; its own line only lends its shape.
    fn product(&self, used: u8, inverted: u8) -> T
        requires { CanRead (P.pre self.now.pin.now) self.now.gate.now }
        ensures { (n : ℕ) (pin : ℕ → T.Meaning) → Sees T.meaning n (P.post self.now.pin.now) self.now.gate.now pin → T.meaning result n ≡ product T.logic pin used inverted self.now.gate.now.pins }
    {
        let mut every = self.own.constant(true);
        for j in 0..self.gate.pins {
            if has(used, j) {
                every.and_in(&self.literal(j, inverted));
            }
        }
        every
    }

    // The OR of the products.
    fn sum(&self, terms: &Sum) -> T
        requires { CanRead (P.pre self.now.pin.now) self.now.gate.now }
        ensures { (n : ℕ) (pin : ℕ → T.Meaning) → Sees T.meaning n (P.post self.now.pin.now) self.now.gate.now pin → T.meaning result n ≡ sum T.logic pin self.now.gate.now.pins terms.now terms.now.products }
    {
        let mut any = self.own.constant(false);
        // Kept, no plainer: a sum may count more products than its rows have, and a chain over the rows would end with them.
        for p in 0..terms.products {
            let used = mask_at(&terms.used, p);
            let inverted = mask_at(&terms.inverted, p);
            any.or_in(&self.product(used, inverted));
        }
        any
    }

    // The AND of all pins, or one of them with the gate's own line.
    fn c_element(&self, inverted: u8) -> T
        requires { CanRead (P.pre self.now.pin.now) self.now.gate.now }
        ensures { (n : ℕ) (pin : ℕ → T.Meaning) → Sees T.meaning n (P.post self.now.pin.now) self.now.gate.now pin → T.meaning result n ≡ function_of T.logic pin (T.meaning self.now.own.now n) self.now.gate.now.pins (Function.CElement inverted) }
    {
        let mut every = self.own.constant(true);
        let mut held = self.own.constant(false);
        for j in 0..self.gate.pins {
            let part = self.literal(j, inverted);
            every.and_in(&part);
            let mut kept = part;
            kept.and_in(self.own);
            held.or_in(&kept);
        }
        every.or_in(&held);
        every
    }
}

/// What a gate drives when `pin` reads what its pins see and its own line has `own`.
#[tactic(auto, unfolding(crate::specs::Gates::driven))]
pub fn drives<T: Signal, P: Fn(u8) -> T>(gate: &Gate, own: &T, pin: P) -> T
    requires { CanRead (P.pre pin) gate.now }
    ensures { (n : ℕ) (sees : ℕ → T.Meaning) → Sees T.meaning n (P.post pin) gate.now sees → T.meaning result n ≡ driven T.logic gate.now sees (T.meaning own.now n) }
{
    let at = AtGate {
        gate,
        own,
        pin: &pin,
    };
    match &gate.function {
        Function::Complex(terms) => at.sum(terms),
        Function::CElement { inverted } => at.c_element(*inverted),
    }
}

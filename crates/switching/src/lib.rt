// The theory under the grades: Eichelberger's procedure on one chip, and free switching.
#![tactic(auto)]

ghost use Rattle.std.specs.Prelude.{◌≡◌};
ghost use Rattle.switching.specs.Phases.{taken};
ghost use Rattle.switching.specs.Examples.{ExamplesHold, FewerTurnsFail};
ghost use Rattle.switching.specs.Theorem.{EveryOrderIsCovered};

use ternary::Value;

/// The two phases of the procedure.
#[derive(Clone, Copy, PartialEq, Eq, Debug)]
pub enum Phase {
    Spread,
    Settle,
}

impl Phase {
    /// What a gate at `old` gets in a pass when it is to be `new`.
    pub fn taken(self, old: Value, new: Value) -> Value
        ensures { result ≡ taken self old new }
    {
        match self {
            Phase::Spread => old.join(new),
            Phase::Settle => new,
        }
    }
}

/// The theorem that the procedure covers every order of switching. The call does nothing: its contract is the theorem, so that the check asks for the proof.
pub fn every_order_is_covered()
    ensures { EveryOrderIsCovered }
{}

/// That a hold of one turn fewer would not be enough.
#[tactic(auto, using(crate::proofs::Examples::fewer_turns_fail))]
pub fn fewer_turns_fail()
    ensures { FewerTurnsFail }
{}

/// What the procedure gives on some small circuits, good and faulty.
#[tactic(auto, using(crate::proofs::Examples::examples_hold))]
pub fn examples_hold()
    ensures { ExamplesHold }
{}

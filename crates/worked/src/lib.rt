// Worked examples of the grading's rules, and the rule for lists through a gate.
#![tactic(auto)]

ghost use Rattle.worked.specs.Examples.{ExamplesHold};
ghost use Rattle.worked.specs.Lists.{ListsThroughAGate};

/// A gate worked out on fault lists gives each circuit its own value. The call does nothing: its contract is the theorem.
#[tactic(auto, using(crate::proofs::Lists::lists_through_a_gate))]
pub fn lists_through_a_gate()
    ensures { ListsThroughAGate }
{}

/// The table of worked examples.
#[tactic(auto, using(crate::proofs::Examples::examples_hold))]
pub fn examples_hold()
    ensures { ExamplesHold }
{}

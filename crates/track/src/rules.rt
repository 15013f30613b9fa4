// The rules for one track: answers of two parts made into one, for all circuits at once.
ghost use Rattle.std.specs.Prelude.{◌≡◌, ℕ, ◌<◌, ◌≤◌, Bool, true, false, not, ◌&&◌, ◌||◌, ◌≢◌};
ghost use Rattle.track.specs.Answers.{answer};
ghost use Rattle.track.specs.Rules.{is, RulesFold};

use crate::table::Track;
use fault_set::set::FaultSet;

impl<S: FaultSet> Track<S> {
    /// The answer of circuit n.
    pub fn answer(&self, n: u8) -> bool
        ensures { result ≡ answer S.member self.now n }
    {
        self.good != self.differ.has(n)
    }

    // This answer where both parts have it, else the other.
    fn unanimous(&mut self, part: &Track<S>, wanted: bool)
        ensures { (n : ℕ) → is wanted (answer S.member self.new n) ≡ (is wanted (answer S.member self.old n) && is wanted (answer S.member part.now n)) }
    {
        match (self.good == wanted, part.good == wanted) {
            (true, true) => self.differ.unite(&part.differ),
            (false, true) => self.differ.take_away(&part.differ),
            (false, false) => self.differ.keep_common(&part.differ),
            (true, false) => {
                let mut differ = part.differ;
                differ.take_away(&self.differ);
                *self = Track {
                    good: !wanted,
                    differ,
                };
            }
        }
    }

    /// The all-rule for two parts: yes where both say yes.
    pub fn both(&mut self, part: &Track<S>)
        ensures { (n : ℕ) → answer S.member self.new n ≡ (answer S.member self.old n && answer S.member part.now n) }
    {
        self.unanimous(part, true);
    }

    /// The any-rule for two parts: yes where either says yes.
    pub fn either(&mut self, part: &Track<S>)
        ensures { (n : ℕ) → answer S.member self.new n ≡ (answer S.member self.old n || answer S.member part.now n) }
    {
        self.unanimous(part, false);
    }

    /// Every answer turned round.
    pub fn turned(&self) -> Track<S>
        ensures { (n : ℕ) → answer S.member result n ≡ not (answer S.member self.now n) }
    {
        Track {
            good: !self.good,
            differ: self.differ,
        }
    }

    /// The same answer for every circuit; this track only lends a set to begin with.
    pub fn always(&self, yes: bool) -> Track<S>
        ensures { (n : ℕ) → answer S.member result n ≡ yes }
    {
        let mut differ = self.differ;
        differ.clear();
        Track { good: yes, differ }
    }

    /// Gives circuit n this answer, if n is below 192, and leaves the others.
    pub fn hold(&mut self, n: u8, yes: bool)
        ensures there { n < 192 → answer S.member self.new n ≡ yes }
        ensures rest { (k : ℕ) → (k ≢ n) → answer S.member self.new k ≡ answer S.member self.old k }
    {
        if self.good == yes {
            self.differ.remove(n);
        } else {
            self.differ.add(n);
        }
    }
}

/// That the rules for several parts can be followed two parts at a time. The call does nothing: its contract is the theorem.
#[tactic(auto, using(crate::proofs::Folds::rules_fold))]
pub fn rules_fold()
    ensures { RulesFold }
{}

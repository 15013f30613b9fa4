// A row of the table: what its line holds in each circuit, and its draft.
ghost use Rattle.std.specs.Prelude.{◌≡◌, ℕ, Decides};
ghost use Rattle.track.specs.Answers.{answers, goods, whole, value, meaning};

use crate::table::{Line, Tracks};
use fault_set::set::FaultSet;
use ternary::Value;

// The value that two answers mean.
// Kept, no plainer: a `From` for the pair would have to stand in ternary, below the definition that it cites.
fn meant(one: bool, zero: bool) -> Value
    ensures { result ≡ meaning one zero }
{
    match (one, zero) {
        (true, false) => Value::One,
        (false, true) => Value::Zero,
        _ => Value::Two,
    }
}

impl<S: FaultSet> Line<S> {
    /// Its value in circuit n.
    #[tactic(auto, using(crate::proofs::Meant::value_whole))]
    pub fn value(&self, n: u8) -> Value
        ensures { result ≡ value (whole (answers S.member self.now.held n)) }
    {
        meant(self.held.one.answer(n), self.held.zero.answer(n))
    }

    // Kept, no plainer: one call for this and `value` would take an Option of a number, and ask every caller for it.
    /// Its value in the good circuit.
    #[tactic(auto, using(crate::proofs::Meant::value_whole))]
    pub fn good_value(&self) -> Value
        ensures { result ≡ value (whole (goods self.now.held)) }
    {
        meant(self.held.one.good, self.held.zero.good)
    }

    /// Writes its draft, and leaves what it holds.
    pub fn put_draft(&mut self, tracks: Tracks<S>)
        ensures { self.new ≡ record { held = self.old.held; draft = tracks } }
    {
        self.draft = tracks;
    }

    /// Writes what it holds and its draft.
    pub fn put(&mut self, tracks: Tracks<S>)
        ensures { self.new ≡ record { held = tracks; draft = tracks } }
    {
        *self = Line {
            held: tracks,
            draft: tracks,
        };
    }

    /// Takes its draft; whether the draft has the same answers as what was held.
    pub fn take_draft(&mut self) -> bool
        ensures row { self.new ≡ record { held = self.old.draft; draft = self.old.draft } }
        ensures same { Decides result ((n : ℕ) → answers S.member self.old.held n ≡ answers S.member self.old.draft n) }
    {
        let same = self.held.same(&self.draft);
        self.held = self.draft;
        same
    }
}

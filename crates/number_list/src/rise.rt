// The numbers of a row, one after another.
ghost use Rattle.std.specs.Prelude.{◌≡◌, ◌<◌, ◌≤◌, [], ◌∷◌, take, All, MatchOption};
ghost use Rattle.rising.specs.Rows.{rise};
ghost use Rattle.number_list.specs.Left.{left, ahead};

/// The numbers that a row goes on with from a place on, as long as each is above the one before and none is above 191.
// A step looks at one place and the one before it: a walk costs no more than the places that it goes past.
#[derive(Clone, Copy)]
pub struct Rise<'a> {
    row: &'a [u8],
    at: usize,
}

impl<'a> Rise<'a> {
    /// The numbers that a row begins with.
    pub fn of(row: &'a [u8]) -> Rise<'a>
        ensures { left result ≡ rise 0 row.now }
    {
        Rise { row, at: 0 }
    }

    /// Goes past the number that comes next if it is below the end, and gives it.
    #[tactic(auto, using(rising::proofs::Rise::rise_past, rising::proofs::Rise::rise_step))]
    pub fn next_below(&mut self, end: u8) -> Option<u8>
        requires { end ≤ 192 }
        ensures { MatchOption result ((left self.new ≡ left self.old) × All (λ n. end ≤ n) (take 1 (left self.old))) (λ n. (n < end) × (left self.old ≡ n ∷ left self.new)) }
    {
        let n = *self.row.get(self.at)?;
        if n >= end || self.at > 0 && n <= self.row[self.at - 1] {
            return None;
        }
        self.at += 1;
        Some(n)
    }

    /// Goes past the number that comes next, and gives it, or 192 if there is none.
    #[tactic(auto, using(rising::proofs::Rise::rise_low))]
    pub fn take_next(&mut self) -> u8
        ensures bound { result ≤ 192 }
        ensures next { ahead result self.new ≡ left self.old }
        ensures none { 192 ≤ result → left self.new ≡ [] }
    {
        // Kept, no plainer: 192 for none is what `next_after` answers, which takes its answer from here.
        match self.next_below(192) {
            Some(n) => n,
            None => 192,
        }
    }
}

impl Iterator for Rise<'_> {
    ghost use Rattle.std.specs.Iterator.{YieldsFirst, item_count};

    type Item = u8;

    ghost next_gives = { YieldsFirst left };

    ghost remaining = { item_count left };

    #[tactic(auto, using(rising::proofs::Rise::rise_low))]
    fn next(&mut self) -> Option<u8> {
        self.next_below(192)
    }
}

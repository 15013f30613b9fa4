// The numbers of the faults at one site, one after another.
ghost use Rattle.std.specs.Prelude.{◌≡◌, true};
ghost use Rattle.site_index.specs.Sites.{placed_number};

use crate::SiteIndex;

/// The numbers from the next one on whose fault sits where its fault sits, in rising order.
#[derive(Drop)]
pub struct NumbersAt<'a> {
    pub(crate) index: &'a SiteIndex,
    pub(crate) next: Option<u8>,
    ghost there: { placed_number index.now.list next ≡ true },
}

impl Iterator for NumbersAt<'_> {
    ghost use Rattle.std.specs.Iterator.{YieldsFirst, item_count};
    ghost use Rattle.site_index.specs.Numbers.{numbers_left};

    type Item = u8;

    ghost next_gives = { YieldsFirst numbers_left };

    ghost remaining = { item_count numbers_left };

    #[tactic(auto, using(crate::proofs::Following::placed_below, crate::proofs::Following::one_number, crate::proofs::Following::next_placed))]
    fn next(&mut self) -> Option<u8> {
        let n = self.next?;
        self.next = self.index.next[n as usize];
        Some(n)
    }
}

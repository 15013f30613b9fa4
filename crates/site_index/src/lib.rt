// The faults of a job by their sites, so that the circuits that a site concerns are found without a walk over all faults.
#![tactic(auto)]

ghost use Rattle.std.specs.Prelude.{◌≡◌, ℕ, ◌+◌, ◌<◌, ◌≤◌, true, cond, Some, None, [], IfSome};
ghost use Rattle.site_index.specs.Sites.{fault_of, on_table, place, place_of, Firsts, Nexts};

use circuit::site::{Fault, FaultList, Site};

pub mod numbers;

use crate::numbers::NumbersAt;

/// A fault list with, for each site, the first number whose fault sits there, and for each number the next at the same site.
// Kept, rule of the project: the numbers of all sites lie in one fixed table, each with the next, and not in a list for each site.
#[derive(Clone, Copy)]
pub struct SiteIndex {
    list: FaultList,
    first: [Option<u8>; 432],
    next: [Option<u8>; 192],
    ghost firsts: { Firsts list 0 first },
    ghost nexts: { Nexts list 0 next },
}

// Fault number n, if the list has one.
#[tactic(auto, using(std::proofs::lemmas::Bool::Decides::nat_tests), unfolding(crate::specs::Sites::fault_of))]
fn fault_of(list: &FaultList, n: u8) -> Option<Fault>
    ensures { result ≡ fault_of list.now n }
{
    let fault = list.fault.get(n as usize)?;
    (n < list.count).then_some(*fault)
}

// The place of a site in the table of firsts, if it has one: the 48 lines, then 8 pins for each.
fn place(site: Site) -> Option<usize>
    ensures found { result ≡ cond (on_table site) (Some (place site)) None }
    ensures within { IfSome result (λ p. p < 432) }
{
    match site {
        Site::Stem(line) => (line < 48).then_some(line as usize),
        Site::Pin { line, pin } => {
            (line < 48 && pin < 8).then_some(48 + line as usize * 8 + pin as usize)
        }
    }
}

// The place of fault n, if the list has it and the table has a place for it.
fn fault_place(list: &FaultList, n: u8) -> Option<usize>
    ensures { result ≡ place_of (fault_of list.now n) }
{
    place(fault_of(list, n)?.site)
}

impl SiteIndex {
    ghost use Rattle.site_index.specs.Numbers.{numbers_left};
    ghost use Rattle.site_index.specs.Sites.{numbers_from};
    ghost use Rattle.std.specs.List.{slice_get};

    /// The index of a list. A fault on a site that no circuit has is left out of the tables.
    #[tactic(auto, using(crate::proofs::Tables::right_none, crate::proofs::Tables::tables, crate::proofs::Tables::right_more, crate::proofs::Tables::right_still))]
    pub fn of(list: &FaultList) -> SiteIndex
        ensures { result.list ≡ list.now }
    {
        let mut first = [None; 432];
        let mut next = [None; 192];
        // Kept, no plainer: the number of the fault is what the tables are given.
        for n in (0..192u8).rev() {
            if let Some(place) = fault_place(list, n) {
                next[n as usize] = first[place].replace(n);
            }
        }
        SiteIndex {
            list: *list,
            first,
            next,
        }
    }

    /// The list.
    pub fn list(&self) -> &FaultList
        ensures { result.now ≡ self.now.list }
    {
        &self.list
    }

    // The first number whose fault sits at the site.
    fn first_at(&self, site: Site) -> Option<u8>
        ensures { result ≡ cond (on_table site) (slice_get (numbers_from self.now.list site 0) 0) None }
    {
        let place = place(site)?;
        self.first[place]
    }

    /// The numbers whose fault sits at the site, in rising order; none for a site that no circuit has.
    #[tactic(auto, using(crate::proofs::Following::first_placed, crate::proofs::Following::with_site))]
    pub fn numbers_at(&self, site: Site) -> NumbersAt<'_>
        ensures { numbers_left result ≡ cond (on_table site) (numbers_from self.now.list site 0) [] }
    {
        NumbersAt {
            index: self,
            next: self.first_at(site),
        }
    }
}

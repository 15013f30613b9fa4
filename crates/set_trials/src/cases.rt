// One table of cases, tried on each kind through one function.
use bit_map::map::BitMap;
use fault_set::set::FaultSet;
use fault_set::walk::{count_by_walk, members_of};
use number_list::list::NumberList;
use std::process::Abort;

/// What is done to the first set.
// Kept, no plainer: the table of cases serves every kind of set, and a closure in it would have to be of one kind.
#[derive(Clone, Copy)]
enum Step {
    Nothing,
    Clear,
    Add(u8, bool),
    Remove(u8, bool),
    Unite,
    KeepCommon,
    TakeAway,
}

/// A name, the numbers of the first set, a step with the second, and the members after it.
type Case = (
    &'static str,
    &'static [u8],
    Step,
    &'static [u8],
    &'static [u8],
);

const ALONE: [Case; 13] = [
    ("nothing", &[], Step::Nothing, &[], &[]),
    (
        "in any order, twice",
        &[191, 0, 64, 0, 63],
        Step::Nothing,
        &[],
        &[0, 63, 64, 191],
    ),
    (
        "192 and 255 stay out",
        &[192, 7, 255],
        Step::Nothing,
        &[],
        &[7],
    ),
    ("cleared", &[0, 100, 191], Step::Clear, &[], &[]),
    ("first number", &[5], Step::Add(0, true), &[], &[0, 5]),
    ("last number", &[5], Step::Add(191, true), &[], &[5, 191]),
    (
        "between",
        &[5, 127, 128],
        Step::Add(64, true),
        &[],
        &[5, 64, 127, 128],
    ),
    (
        "there already",
        &[5, 64],
        Step::Add(64, true),
        &[],
        &[5, 64],
    ),
    ("no such number", &[5], Step::Add(192, false), &[], &[5]),
    (
        "taken out",
        &[5, 64, 65],
        Step::Remove(64, true),
        &[],
        &[5, 65],
    ),
    ("not there", &[5, 65], Step::Remove(64, true), &[], &[5, 65]),
    ("the only one", &[191], Step::Remove(191, true), &[], &[]),
    (
        "no such number to take",
        &[63],
        Step::Remove(255, false),
        &[],
        &[63],
    ),
];

const TOGETHER: [Case; 9] = [
    (
        "either",
        &[0, 3, 4, 100],
        Step::Unite,
        &[1, 3, 4, 191],
        &[0, 1, 3, 4, 100, 191],
    ),
    (
        "either, none here",
        &[],
        Step::Unite,
        &[1, 64, 128],
        &[1, 64, 128],
    ),
    (
        "either, none there",
        &[1, 64, 128],
        Step::Unite,
        &[],
        &[1, 64, 128],
    ),
    (
        "both",
        &[0, 3, 4, 100, 191],
        Step::KeepCommon,
        &[1, 3, 4, 191],
        &[3, 4, 191],
    ),
    (
        "both, apart",
        &[0, 2, 128],
        Step::KeepCommon,
        &[1, 3, 129],
        &[],
    ),
    (
        "both, the same",
        &[7, 70, 170],
        Step::KeepCommon,
        &[7, 70, 170],
        &[7, 70, 170],
    ),
    (
        "less",
        &[0, 3, 4, 100, 191],
        Step::TakeAway,
        &[1, 3, 4, 191],
        &[0, 100],
    ),
    (
        "less, apart",
        &[0, 2, 128],
        Step::TakeAway,
        &[1, 3, 129],
        &[0, 2, 128],
    ),
    (
        "less, all",
        &[7, 70, 170],
        Step::TakeAway,
        &[7, 70, 170, 180],
        &[],
    ),
];

// The set of these numbers.
fn filled<S: FaultSet>(empty: S, numbers: &[u8]) -> S {
    let mut set = empty;
    for n in numbers {
        let _ = set.add(*n);
    }
    set
}

// Makes a step, and says whether it answered as it should.
fn made<S: FaultSet>(set: &mut S, step: Step, other: &S) -> bool {
    match step {
        Step::Nothing => true,
        Step::Clear => {
            set.clear();
            true
        }
        Step::Add(n, said) => set.add(n) == said,
        Step::Remove(n, said) => set.remove(n) == said,
        Step::Unite => {
            set.unite(other);
            true
        }
        Step::KeepCommon => {
            set.keep_common(other);
            true
        }
        Step::TakeAway => {
            set.take_away(other);
            true
        }
    }
}

// The first of these rising numbers that is at or above n, and 192 if there is none.
// Kept, rule of the project: 192 is what `next_after` answers where there is no member.
fn first_from(members: &[u8], n: u8) -> u8 {
    members.iter().copied().find(|m| *m >= n).unwrap_or(192)
}

/// Asks a set everything, and holds the answers against its rising members. A failure tells the kind and the name.
pub(crate) fn check_members<S: FaultSet>(
    rt: &impl Abort,
    kind: &str,
    name: &str,
    set: &S,
    members: &[u8],
) {
    for n in 0..=255u8 {
        assert_eq!(rt; set.has(n), members.contains(&n), "{kind}: {name}");
        assert_eq!(rt; set.next_after(n), first_from(members, n), "{kind}: {name}");
    }
    assert_eq!(rt; usize::from(set.count()), members.len(), "{kind}: {name}");
    assert_eq!(rt; count_by_walk(set), set.count(), "{kind}: {name}");
    assert!(rt;
        members_of(set).eq(members.iter().copied()),
        "{kind}: {name}"
    );
}

// One case, with the second set asked again after it.
fn try_case<S: FaultSet>(rt: &impl Abort, kind: &str, empty: S, case: &Case) {
    let (name, first, step, second, members) = case;
    let mut set = filled(empty, first);
    let other = filled(empty, second);
    assert!(rt; made(&mut set, *step, &other), "{kind}: {name}");
    check_members(rt, kind, name, &set, members);
    assert!(rt; set.same(&filled(empty, members)), "{kind}: {name}");
    assert!(rt; other.same(&filled(empty, second)), "{kind}: {name}");
    assert_eq!(rt; set.same(&empty), members.is_empty(), "{kind}: {name}");
}

// All cases, for one kind.
fn trial<S: FaultSet>(rt: &impl Abort, kind: &str, empty: S) {
    for case in ALONE.iter().chain(&TOGETHER) {
        try_case(rt, kind, empty, case);
    }
}

#[test]
fn every_kind(rt: HostRuntime) {
    trial(&rt, "bit map", BitMap::empty());
    trial(&rt, "number list", NumberList::empty());
}

// Rows left in any state by another hand, and what they mean.
use crate::cases::check_members;
use bit_map::map::BitMap;
use fault_set::set::FaultSet;
use number_list::list::NumberList;

/// A name, the first places of a row, its length, and its members.
type Row = (&'static str, [u8; 4], u8, &'static [u8]);

// The places after the first four hold 9.
const ROWS: [Row; 11] = [
    ("in order", [3, 5, 8, 191], 4, &[3, 5, 8, 191]),
    ("no length", [3, 5, 8, 191], 0, &[]),
    ("cut off", [3, 5, 8, 191], 2, &[3, 5]),
    ("a repeat", [3, 5, 5, 191], 4, &[3, 5]),
    ("a repeat at once", [3, 3, 5, 191], 4, &[3]),
    ("falling", [8, 5, 9, 191], 4, &[8]),
    ("above 191", [3, 192, 193, 194], 4, &[3]),
    ("above 191 at once", [200, 3, 5, 8], 4, &[]),
    (
        "a rise past the first four",
        [3, 5, 7, 8],
        192,
        &[3, 5, 7, 8, 9],
    ),
    (
        "a length above the places",
        [3, 5, 7, 8],
        255,
        &[3, 5, 7, 8, 9],
    ),
    (
        "a fall past the first four",
        [3, 5, 7, 100],
        255,
        &[3, 5, 7, 100],
    ),
];

// The list of a row with these first places and this length.
fn listed(first: &[u8; 4], len: u8) -> NumberList {
    let mut at = [9; 192];
    at[..4].copy_from_slice(first);
    NumberList::from_numbers(at, len)
}

#[test]
fn lists_in_disorder(rt: HostRuntime) {
    for (name, first, len, members) in &ROWS {
        check_members(&rt, "number list", name, &listed(first, *len), members);
    }
}

#[test]
fn lists_in_disorder_together(rt: HostRuntime) {
    for (name, first, len, members) in &ROWS {
        let list = listed(first, *len);
        let mut set = list;
        set.unite(&NumberList::empty());
        check_members(&rt, "number list", name, &set, members);
        let mut kept = list;
        kept.keep_common(&list);
        assert!(rt; kept.same(&set), "number list: {name}");
    }
}

#[test]
fn words(rt: HostRuntime) {
    check_members(&rt, "bit map", "no bit", &BitMap::from_words([0; 3]), &[]);
    let ends = BitMap::from_words([1 << 63, 1, 1 << 63]);
    check_members(&rt, "bit map", "ends of words", &ends, &[63, 64, 191]);
    let all = BitMap::from_words([u64::MAX; 3]);
    assert_eq!(rt; all.count(), 192);
    assert!(rt; !all.has(192));
}

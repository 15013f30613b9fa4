// What a job keeps of its file: the faults.
use crate::outcome::accepted;
use circuit::site::Site::{Pin, Stem};
use circuit::site::{Fault, FaultList};
use std::process::Abort;
use std::test::Fail;

const MADE: [Fault; 12] = [
    Fault {
        site: Stem(0),
        stuck: false,
    },
    Fault {
        site: Stem(0),
        stuck: true,
    },
    Fault {
        site: Stem(1),
        stuck: false,
    },
    Fault {
        site: Stem(1),
        stuck: true,
    },
    Fault {
        site: Stem(2),
        stuck: false,
    },
    Fault {
        site: Stem(2),
        stuck: true,
    },
    Fault {
        site: Pin { line: 1, pin: 0 },
        stuck: false,
    },
    Fault {
        site: Pin { line: 1, pin: 0 },
        stuck: true,
    },
    Fault {
        site: Pin { line: 1, pin: 1 },
        stuck: false,
    },
    Fault {
        site: Pin { line: 1, pin: 1 },
        stuck: true,
    },
    Fault {
        site: Pin { line: 2, pin: 0 },
        stuck: false,
    },
    Fault {
        site: Pin { line: 2, pin: 0 },
        stuck: true,
    },
];

const NAMED: [Fault; 5] = [
    Fault {
        site: Pin { line: 2, pin: 1 },
        stuck: true,
    },
    Fault {
        site: Stem(0),
        stuck: true,
    },
    Fault {
        site: Pin { line: 2, pin: 0 },
        stuck: false,
    },
    Fault {
        site: Stem(2),
        stuck: false,
    },
    Fault {
        site: Stem(0),
        stuck: true,
    },
];

/// Checks that a list has these faults and no others.
pub(crate) fn check_list(
    rt: &impl Abort,
    name: &str,
    list: &FaultList,
    faults: &[Fault],
) -> Result<(), Fail> {
    assert_eq!(rt; list.count as usize, faults.len(), "{name}");
    let given = list.fault.get(0..faults.len()).ok_or("no such list")?;
    assert_eq!(rt; given, faults, "{name}");
    Ok(())
}

#[test]
fn made(rt: HostRuntime) -> Result<(), Fail> {
    let job = accepted(&[0, 1, 2, 1, 1, 0, 2, 0, 2, 1, 1, 0, 1, 1])?;
    check_list(&rt, "made", job.faults(), &MADE)
}

#[test]
fn named(rt: HostRuntime) -> Result<(), Fail> {
    let job = accepted(&[
        2, 2, 1, 1, 2, 0, 2, 0, 1, 5, 3, 2, 1, 1, 0, 2, 2, 0, 0, 2, 1, 0,
    ])?;
    check_list(&rt, "named", job.faults(), &NAMED)
}

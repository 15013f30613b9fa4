// The job that is lent to a reading: left as it was by a refusal, and written over by a job.
use crate::lists::check_list;
use crate::outcome::{accepted, check_counts};
use circuit::site::Fault;
use circuit::site::Site::{Pin, Stem};
use job::job::Job;
use job::read::read;
use std::process::Abort;
use std::test::Fail;

const GOOD: [u8; 16] = [3, 2, 1, 1, 2, 7, 0, 2, 0, 1, 2, 1, 1, 2, 2, 1];

const ITS_FAULTS: [Fault; 2] = [
    Fault {
        site: Stem(1),
        stuck: true,
    },
    Fault {
        site: Pin { line: 2, pin: 1 },
        stuck: false,
    },
];

const BAD: [(&str, &[u8]); 7] = [
    ("no bytes", &[]),
    ("short by the last byte", &[2, 3, 1, 1, 3, 0, 2, 0, 1, 1, 0]),
    ("a fault count of 0", &[2, 3, 1, 1, 3, 0, 2, 0, 1, 0]),
    ("a stray bit", &[2, 3, 1, 1, 3, 0, 2, 0, 1, 1, 4, 0]),
    ("a fault nowhere", &[2, 3, 1, 1, 3, 0, 2, 0, 1, 1, 0, 4]),
    ("a byte left over", &[2, 3, 1, 1, 3, 0, 2, 0, 1, 1, 0, 0, 0]),
    (
        "a start not at rest",
        &[3, 3, 1, 1, 3, 8, 0, 2, 0, 1, 1, 0, 0],
    ),
];

// Checks that a job is the one of the good file.
fn check_good(rt: &impl Abort, name: &str, job: &Job) -> Result<(), Fail> {
    check_counts(rt, name, job, (2, 1, 1, 2));
    check_list(rt, name, job.faults(), &ITS_FAULTS)?;
    assert!(rt; job.circuit().netlist().start[2], "{name}");
    Ok(())
}

// Checks that a file is refused, and that the job that was lent is still the good one.
fn check_kept(rt: &impl Abort, name: &str, file: &[u8]) -> Result<(), Fail> {
    let mut job = accepted(&GOOD)?;
    assert!(rt; read(file, &mut job).is_err(), "{name}");
    check_good(rt, name, &job)
}

#[test]
fn kept_by_a_refusal(rt: HostRuntime) -> Result<(), Fail> {
    for (name, file) in &BAD {
        check_kept(&rt, name, file)?;
    }
    Ok(())
}

#[test]
fn written_over_by_a_job(rt: HostRuntime) -> Result<(), Fail> {
    let mut job = Job::built_in();
    check_counts(&rt, "built in", &job, (1, 1, 1, 1));
    read(&[0, 1, 2, 1, 1, 0, 2, 0, 2, 1, 1, 0, 1, 1], &mut job)?;
    check_counts(&rt, "two gates", &job, (1, 2, 1, 12));
    read(&GOOD, &mut job)?;
    check_good(&rt, "the good file", &job)
}

// What reading a file comes to, and tables of it.
use job::job::Job;
use job::read::read;
use refusal::CircuitFault;
use std::process::Abort;
use std::test::Fail;

/// How many inputs, gates, outputs and faults a job has.
pub(crate) type Counts = (u8, u8, u8, u8);

/// The counts of the job that was read, or its refusal.
pub(crate) type Outcome = Result<Counts, CircuitFault>;

/// A name, a file and what reading it gives.
pub(crate) type Case = (&'static str, &'static [u8], Outcome);

/// The job of a file that is accepted.
pub(crate) fn accepted(file: &[u8]) -> Result<Job, Fail> {
    let mut job = Job::built_in();
    read(file, &mut job)?;
    Ok(job)
}

// The counts of a job.
fn counts(job: &Job) -> Counts {
    let netlist = job.circuit().netlist();
    let faults = job.faults();
    (netlist.inputs, netlist.gates, netlist.outputs, faults.count)
}

/// Checks the counts of a job.
pub(crate) fn check_counts(rt: &impl Abort, name: &str, job: &Job, expected: Counts) {
    assert_eq!(rt; counts(job), expected, "{name}");
}

// What reading a file gives.
fn tried(file: &[u8]) -> Outcome {
    let mut job = Job::built_in();
    read(file, &mut job)?;
    Ok(counts(&job))
}

/// Tries one file.
pub(crate) fn try_one(rt: &impl Abort, file: &[u8], expected: Outcome) -> Result<(), Fail> {
    assert_eq!(rt; tried(file), expected);
    Ok(())
}

/// Tries every file of a table.
pub(crate) fn try_all(rt: &impl Abort, cases: &[Case]) -> Result<(), Fail> {
    for (name, file, expected) in cases {
        assert_eq!(rt; tried(file), *expected, "{name}");
    }
    Ok(())
}

// Reading a job file whole.
ghost use Rattle.std.specs.Prelude.{◌≡◌, ℕ, ◌≤◌, List, Ok, Err, MatchResult, OnErr};
ghost use Rattle.circuit.specs.Netlists.{trimmed, restless};
ghost use Rattle.format.specs.Law.{Exactly};
ghost use Rattle.format.specs.Reading.{job_of, graded, rested};
ghost use Rattle.reader.specs.Parts.{listed, listed_in, Few};
ghost use Rattle.job.specs.Answers.{gives, answered};

use crate::job::Job;
use crate::made::made_list;
use circuit::circuit::Circuit;
use circuit::design::Design;
use circuit::site::FaultList;
use reader::parts::read_parts;
use refusal::{CircuitFault, FileFault};

// The faults that the file names, or the made list.
#[tactic(auto, using(crate::proofs::Whole::made_list_graded))]
fn faults_of(design: &Design, named: Option<FaultList>) -> Result<FaultList, CircuitFault>
    requires { Few named }
    ensures { MatchResult result (λ list. (list.count ≤ 192) × (graded (trimmed design.now.netlist) (listed_in named) ≡ rested (record { netlist = trimmed design.now.netlist; faults = listed list }) (restless (trimmed design.now.netlist)))) (λ e. graded (trimmed design.now.netlist) (listed_in named) ≡ Err e) }
{
    // Kept, no plainer: as one call, `map_or_else`, the made list would stand before the named one.
    match named {
        Some(list) => Ok(list),
        None => made_list(design),
    }
}

// The job of a file.
fn job_of(file: &[u8]) -> Result<Job, CircuitFault>
    ensures { gives result ≡ job_of file.now }
{
    let (parts, rest) = read_parts(file)?;
    if !rest.is_empty() {
        let place = rest.place();
        return Err(FileFault::Overlong(place).into());
    }
    let design = Design::of(parts.netlist);
    let faults = faults_of(&design, parts.faults)?;
    let circuit = Circuit::at_rest(design).map_err(CircuitFault::Restless)?;
    Ok(Job::of(circuit, faults))
}

// Writes the job of a file whole, or leaves the lent one as it was.
fn write_job(file: &[u8], job: &mut Job) -> Result<(), CircuitFault>
    ensures answer { answered result job.new ≡ job_of file.now }
    ensures unchanged { OnErr result (job.new ≡ job.old) }
{
    *job = job_of(file)?;
    Ok(())
}

/// Reads a job file into a lent job, which is written whole once every check has passed, and is else left as it was.
#[tactic(auto, using(crate::proofs::Whole::law_of))]
pub fn read(file: &[u8], job: &mut Job) -> Result<(), CircuitFault>
    ensures answer { answered result job.new ≡ job_of file.now }
    ensures law { Exactly file.now (answered result job.new) }
    ensures unchanged { OnErr result (job.new ≡ job.old) }
{
    write_job(file, job)
}

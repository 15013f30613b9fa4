// The text of a reply.
ghost use Rattle.std.specs.Prelude.{◌≡◌, ℕ, List, ◌++◌, IfOk, string_bytes, OnOk};
ghost use Rattle.format.specs.Reading.{job_of};
ghost use Rattle.job.specs.Answers.{described, answered};
ghost use Rattle.reply.specs.Inputs.{job_part};
ghost use Rattle.reply.specs.Replies.{counts_text, fault_line, listing, raised, reply_text};

use crate::input::job_part;
use circuit::netlist::Netlist;
use circuit::site::Fault;
use job::job::Job;
use job::read::read;
use refusal::GradingFault;
use std::alloc::{AllocError, Global};

// One fault more, on a line of its own.
fn add_line(heap: Global, text: &mut String, number: u8, fault: Fault) -> Result<(), AllocError>
    ensures { OnOk result (string_bytes text.new ≡ string_bytes text.old ++ fault_line number fault) }
{
    let line = format!(in heap; "{number} {fault}\n")?;
    text.push_str(&line)
}

// The counts of a job.
#[tactic(auto, unfolding(crate::specs::Replies::counts_text))]
fn counts(heap: Global, netlist: &Netlist, faults: u8) -> Result<String, AllocError>
    ensures { IfOk result (λ text. string_bytes text ≡ counts_text netlist.now faults) }
{
    let inputs = netlist.inputs;
    let gates = netlist.gates;
    let outputs = netlist.outputs;
    format!(in heap; "inputs {inputs} gates {gates} outputs {outputs} faults {faults}\n")
}

// The counts of a job, then its faults, one to a line.
fn list(heap: Global, job: &Job) -> Result<String, AllocError>
    ensures { IfOk result (λ text. string_bytes text ≡ listing (described job.now)) }
{
    let faults = job.faults();
    let mut text = counts(heap, job.circuit().netlist(), faults.count)?;
    for (n, fault) in (0..faults.count).zip(&faults.fault) {
        add_line(heap, &mut text, n, *fault)?;
    }
    Ok(text)
}

// Reads the job of an input: a refusal of the layers below goes up whole.
fn take_in(input: &[u8], job: &mut Job) -> Result<(), GradingFault>
    ensures { answered result job.new ≡ raised (job_of (job_part input.now)) }
{
    read(job_part(input), job)?;
    Ok(())
}

/// What the program prints for an input: the job that it holds, or the one line of its refusal.
pub fn reply(heap: Global, input: &[u8]) -> Result<String, AllocError>
    ensures { IfOk result (λ text. string_bytes text ≡ reply_text input.now) }
{
    let mut job = Job::built_in();
    // Kept, no plainer: the two outcomes are two texts, and neither goes up.
    match take_in(input, &mut job) {
        Ok(()) => list(heap, &job),
        Err(fault) => format!(in heap; "{fault}\n"),
    }
}

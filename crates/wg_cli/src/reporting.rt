//! The line on standard error that says why a job was not done. It takes no memory.
ghost use Rattle.std.specs.Prelude.{◌≡◌, ◌≢◌, ◌⊎◌, [], ◌++◌, IsTrue, IsErr, Some, None, codes};
ghost use Rattle.wg_outside.specs.Outside.{Increased};
ghost use Rattle.wg_outside.specs.Puts.{Puts};
ghost use Rattle.wg_cli.specs.Lines.{naming, name_in, output_in, line_of, Reports};
ghost use Rattle.wg_outcomes.specs.declared.status.Status.TheVariants.{BadSecond};

use crate::file_name::FileName;
use crate::names::{input_name, output_name};
use crate::{Input, Status, texts};
use wg_outcomes::{SecondFault, Text, second_input};
use wg_outside::{Output, Sink, WriteError, write_all, write_pieces};
use wg_words::Job;

// The name of a job's input.
fn name_in(job: &Option<Job>, input: Input) -> Option<FileName<'_>>
    ensures { result ≡ name_in job.now input }
{
    match job {
        None => None,
        Some(job) => input_name(job, input),
    }
}

// A line that ends with the name of a file.
fn naming<'a, S: Sink>(
    sink: &mut S,
    before: &'a str,
    name: &'a FileName<'a>,
) -> Result<(), WriteError>
    ensures puts { IsTrue S.told → Puts (naming before.now (Some name.now) []) (S.taken sink.old)
        (S.taken sink.new) result }
    ensures cause { IsErr result → Increased (S.faults sink.old) (S.faults sink.new)
        ⊎ Increased (S.wants sink.old) (S.wants sink.new) }
    ensures later { S.later sink.old sink.new }
{
    write_pieces(
        sink,
        &[
            before.as_bytes(),
            name.stem.as_bytes(),
            name.suffix.as_bytes(),
            b"\n",
        ],
    )
}

// A line that ends with the name of a file of the job.
fn about<S: Sink>(
    sink: &mut S,
    before: &str,
    job: &Option<Job>,
    input: Input,
) -> Result<(), WriteError>
    ensures puts { IsTrue S.told → Puts (naming before.now (name_in job.now input) []) (S.taken sink.old)
        (S.taken sink.new) result }
    ensures cause { IsErr result → Increased (S.faults sink.old) (S.faults sink.new)
        ⊎ Increased (S.wants sink.old) (S.wants sink.new) }
    ensures later { S.later sink.old sink.new }
{
    match name_in(job, input) {
        None => Ok(()),
        Some(name) => naming(sink, before, &name),
    }
}

// A line about an output of the job.
fn about_output<S: Sink>(sink: &mut S, job: &Option<Job>, output: Output) -> Result<(), WriteError>
    ensures puts { IsTrue S.told → Puts (naming (codes "wg: write failed: ") (output_in job.now output) [])
        (S.taken sink.old) (S.taken sink.new) result }
    ensures cause { IsErr result → Increased (S.faults sink.old) (S.faults sink.new)
        ⊎ Increased (S.wants sink.old) (S.wants sink.new) }
    ensures later { S.later sink.old sink.new }
{
    match output_in(job, output) {
        None => Ok(()),
        Some(name) => naming(sink, "wg: write failed: ", &name),
    }
}

// The name of an output of the job.
fn output_in(job: &Option<Job>, output: Output) -> Option<FileName<'_>>
    ensures { result ≡ output_in job.now output }
{
    match output {
        Output::Out => Some(FileName {
            stem: "-",
            suffix: "",
        }),
        Output::Properties | Output::Graph | Output::Offsets | Output::Certificate => {
            written_file(job, output)
        }
    }
}

// The name of a file that the job writes.
fn written_file(job: &Option<Job>, output: Output) -> Option<FileName<'_>>
    requires { output ≢ Output.Out }
    ensures { result ≡ output_in job.now output }
{
    match job {
        None => None,
        Some(job) => output_name(job, output),
    }
}

fn write_line<S: Sink>(
    sink: &mut S,
    job: &Option<Job>,
    promised: u64,
    status: Status,
) -> Result<(), WriteError>
    ensures puts { IsTrue S.told → Puts (line_of job.now promised status) (S.taken sink.old)
        (S.taken sink.new) result }
    ensures cause { IsErr result → Increased (S.faults sink.old) (S.faults sink.new)
        ⊎ Increased (S.wants sink.old) (S.wants sink.new) }
    ensures later { S.later sink.old sink.new }
    ensures quiet { status ≡ Status.Done → sink.new ≡ sink.old }
{
    match status {
        Status::Done => Ok(()),
        Status::Usage => write_all(sink, b"wg: bad command line\n"),
        Status::Memory => write_all(sink, b"wg: out of memory\n"),
        Status::ReadFault(input) => about(sink, "wg: read failed: ", job, input),
        Status::WriteFault(output) => about_output(sink, job, output),
        Status::Missing(input) => about(sink, "wg: missing: ", job, input),
        Status::BadArcs { line, kind } => {
            fault_in(sink, job, Input::ArcList, texts::line(line, kind))
        }
        Status::BadProperties(fault) => {
            fault_in(sink, job, Input::Properties, texts::properties(fault))
        }
        Status::BadArchive(fault) => {
            let input = texts::file_of_fault(fault);
            fault_in(sink, job, input, texts::archive(promised, fault))
        }
        Status::BadSecond(fault) => fault_of_second(sink, job, promised, fault),
        Status::TooManyArcs => write_all(sink, b"wg: too many arcs\n"),
        Status::NoPage(page) => write_all(sink, texts::no_page(page).as_bytes()),
        Status::OverLimit(input) => about(sink, "wg: too long: ", job, input),
        Status::BadWeights(fault) => {
            fault_in(sink, job, Input::Weights, texts::weights(promised, fault))
        }
        Status::BadText { line, kind } => {
            fault_in(sink, job, Input::Text, texts::plain(line, kind))
        }
        Status::BadMap(fault) => {
            fault_in(sink, job, Input::Map, texts::numbers(promised, fault))
        }
        Status::BadCertificate(fault) => {
            fault_in(sink, job, Input::Certificate, texts::certificate(fault))
        }
    }
}

// A line about a fault of the second archive.
fn fault_of_second<S: Sink>(
    sink: &mut S,
    job: &Option<Job>,
    promised: u64,
    fault: SecondFault,
) -> Result<(), WriteError>
    ensures puts { IsTrue S.told → Puts (line_of job.now promised (BadSecond fault)) (S.taken sink.old)
        (S.taken sink.new) result }
    ensures cause { IsErr result → Increased (S.faults sink.old) (S.faults sink.new)
        ⊎ Increased (S.wants sink.old) (S.wants sink.new) }
    ensures later { S.later sink.old sink.new }
{
    match fault {
        SecondFault::Properties(fault) => {
            fault_in(sink, job, Input::SecondProperties, texts::properties(fault))
        }
        SecondFault::Archive(fault) => {
            let input = second_input(texts::file_of_fault(fault));
            fault_in(sink, job, input, texts::archive(promised, fault))
        }
    }
}

// A line about a fault in a file of the job.
fn fault_in<S: Sink>(
    sink: &mut S,
    job: &Option<Job>,
    input: Input,
    text: Text,
) -> Result<(), WriteError>
    ensures puts { IsTrue S.told → Puts (naming (codes "wg: ") (name_in job.now input) (codes ": " ++ text))
        (S.taken sink.old) (S.taken sink.new) result }
    ensures cause { IsErr result → Increased (S.faults sink.old) (S.faults sink.new)
        ⊎ Increased (S.wants sink.old) (S.wants sink.new) }
    ensures later { S.later sink.old sink.new }
{
    match name_in(job, input) {
        None => Ok(()),
        Some(name) => describe(sink, &name, &text),
    }
}

// A line about a fault in the file of this name.
fn describe<'a, S: Sink>(
    sink: &mut S,
    name: &'a FileName<'a>,
    text: &'a Text,
) -> Result<(), WriteError>
    ensures puts { IsTrue S.told → Puts (naming (codes "wg: ") (Some name.now) (codes ": " ++ text.now))
        (S.taken sink.old) (S.taken sink.new) result }
    ensures cause { IsErr result → Increased (S.faults sink.old) (S.faults sink.new)
        ⊎ Increased (S.wants sink.old) (S.wants sink.new) }
    ensures later { S.later sink.old sink.new }
{
    write_pieces(
        sink,
        &[
            b"wg: ",
            name.stem.as_bytes(),
            name.suffix.as_bytes(),
            b": ",
            text.as_bytes(),
            b"\n",
        ],
    )
}

/// Writes the line of a status, as far as the sink takes it. At `Done` there is none, and the sink is not called. The
/// job gives the names of files: without one, only a line that names no file is written. `promised` is how many arcs or
/// pages the properties promise, if the line tells it.
pub fn report<S: Sink>(sink: &mut S, job: &Option<Job>, promised: u64, status: Status)
    ensures line { IsTrue S.told → Reports (line_of job.now promised status) (S.taken sink.old) (S.taken sink.new)
        (Increased (S.faults sink.old) (S.faults sink.new) ⊎ Increased (S.wants sink.old) (S.wants sink.new)) }
    ensures later { S.later sink.old sink.new }
    ensures quiet { status ≡ Status.Done → sink.new ≡ sink.old }
{
    let _ = write_line(sink, job, promised, status);
}

ghost use Rattle.std.specs.Prelude.{◌≡◌, ◌≢◌, ◌⊎◌, ℕ, false, None, Some};
ghost use Rattle.wg_outside.specs.Outside.{Increased};
ghost use Rattle.wg_outside.specs.declared.output.Output.{Output};
ghost use Rattle.wg_words.specs.Jobs.{job_of};
ghost use Rattle.wg_words.specs.declared.jobs.Job.{Job};
ghost use Rattle.wg_outcomes.specs.Answers.{HasOutput, IsUnprinted};
ghost use Rattle.wg_outcomes.specs.Commands.{written_by};
ghost use Rattle.wg_outcomes.specs.JobFiles.{held_for, output_name, prints_in_parts};
ghost use Rattle.wg_outcomes.specs.Judged.{output_of, status_of};
ghost use Rattle.wg_outcomes.specs.Performs.{judged_on};
ghost use Rattle.wg_outcomes.specs.Readings.{Readings};
ghost use Rattle.wg_outcomes.specs.Written.{HasFiles};
ghost use Rattle.wg_cli.specs.Lines.{line_of, Reports};
ghost use Rattle.wg_cli.specs.Wanted.{some_writes_files, ArePromisedBy};
ghost use Rattle.wg_outcomes.specs.declared.status.Input.{Input};

use crate::{Status, run};
use std::alloc::Global;
use wg_io::{SteadyDepot, SteadySink};
use wg_words::Words;

/// Does what the words ask for over files and outputs in memory, of which none is ever at fault: the status is the
/// one that the job and its files lead to, with its output, its files and its line; or memory ran out. If the words ask
/// for no job, nothing but the line is put out.
pub fn run_in_memory(
    alloc: Global,
    words: &Words,
    depot: &mut SteadyDepot,
    out: &mut SteadySink,
    err: &mut SteadySink,
) -> Status
    ensures usage { result ≡ Status.Usage → job_of words.now ≡ None }
    ensures no_job { job_of words.now ≡ None → (result ≡ Status.Usage) ⊎ (result ≡ Status.Memory) }
    ensures no_output { job_of words.now ≡ None → out.new.taken ≡ out.old.taken }
    ensures answers { (r : Readings) (job : Job) → job_of words.now ≡ Some job
        → (result ≡ status_of (judged_on r job depot.old.files)) ⊎ (result ≡ Status.Memory) }
    ensures output { (r : Readings) (job : Job) → job_of words.now ≡ Some job
        → HasOutput (output_of (judged_on r job depot.old.files)) out.old.taken out.new.taken result }
    ensures files { (r : Readings) (job : Job) → job_of words.now ≡ Some job
        → HasFiles (output_name job) (written_by r job (held_for job depot.old.files)) depot.old.files depot.new.files
        result }
    ensures unprinted { (job : Job) → job_of words.now ≡ Some job → prints_in_parts job ≡ false
        → IsUnprinted result out.old.taken out.new.taken out.old.wants out.new.wants }
    ensures same { some_writes_files (job_of words.now) ≡ false → depot.new.files ≡ depot.old.files }
    ensures line { (promised : ℕ) × ArePromisedBy (job_of words.now) depot.old.files result promised
        × Reports (line_of (job_of words.now) promised result) err.old.taken err.new.taken
        (Increased err.old.wants err.new.wants) }
    ensures quiet { result ≡ Status.Done → err.new ≡ err.old }
    ensures no_read_fault { (i : Input) → result ≢ Status.ReadFault i }
    ensures no_write_fault { (o : Output) → result ≢ Status.WriteFault o }
{
    run(alloc, words, depot, out, err)
}

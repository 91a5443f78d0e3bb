ghost use Rattle.std.specs.Prelude.{◌≡◌, ◌⊎◌, ℕ, false, List, Option, Some, None, IsTrue, IfOk, IfSome};
ghost use Rattle.wg_outside.specs.Outside.{Increased, NonDecreasing};
ghost use Rattle.wg_outside.specs.declared.output.Output.{Output};
ghost use Rattle.wg_words.specs.Jobs.{job_of, IsWithin};
ghost use Rattle.wg_words.specs.declared.jobs.Job.{Job};
ghost use Rattle.wg_words.specs.declared.jobs.RankJob.{RankJob};
ghost use Rattle.wg_words.specs.declared.jobs.VerifyJob.{VerifyJob};
ghost use Rattle.wg_outcomes.specs.Reached.{Reaches};
ghost use Rattle.wg_outcomes.specs.Answers.{Answers, HasOutput, IsHindrance, IsPutLast, IsUnprinted, status_in};
ghost use Rattle.wg_outcomes.specs.Causes.{AreFaultless, HasCause};
ghost use Rattle.wg_outcomes.specs.Commands.{written_by};
ghost use Rattle.wg_outcomes.specs.Judged.{output_of, status_of};
ghost use Rattle.wg_cli.specs.Lines.{line_of, Reports};
ghost use Rattle.wg_cli.specs.Wanted.{some_calls_depot, some_writes_files, ArePromisedBy};
ghost use Rattle.wg_outcomes.specs.JobFiles.{can_end, held_for, input_name, output_name, prints_in_parts, prints_while_reading};
ghost use Rattle.wg_outcomes.specs.Performs.{judged_on, Does};
ghost use Rattle.wg_outcomes.specs.Promised.{promised_in};
ghost use Rattle.wg_outcomes.specs.Bulk.{PrintsProvenOutcome};
ghost use Rattle.wg_outcomes.specs.Ranked.{PrintsProvenRanking};
ghost use Rattle.wg_outcomes.specs.Untold.{DoesAnywhere, PrintsSomeGap, PrintsSomeRanking, WantsFirst};
ghost use Rattle.wg_outcomes.specs.Verified.{PrintsProvenGap};
ghost use Rattle.wg_laws.specs.Certificates.{HoldsWritten};
ghost use Rattle.wg_outcomes.specs.Readings.{Readings};
ghost use Rattle.wg_outcomes.specs.Written.{AreAllWhole, HasFiles};
ghost use Rattle.wg_outcomes.specs.declared.status.Input.{Input};

use crate::Status;
use crate::dispatch::perform;
use crate::reporting::report;
use std::alloc::{AllocError, Global};
use wg_outcomes::Ending;
use wg_outside::{Depot, Sink};
use wg_words::{Job, JobError, Words, job};

/// Does what the words ask for: the output goes to `out`, and for every status but `Done` one line to `err`.
pub fn run<D: Depot, O: Sink, E: Sink>(
    alloc: Global,
    words: &Words,
    depot: &mut D,
    out: &mut O,
    err: &mut E,
) -> Status
    // Usage comes exactly if the words ask for no job, and nothing is put out then.
    ensures usage { result ≡ Status.Usage → job_of words.now ≡ None }
    ensures no_job { job_of words.now ≡ None → (result ≡ Status.Usage) ⊎ (result ≡ Status.Memory) }
    ensures no_output { job_of words.now ≡ None → O.taken out.new ≡ O.taken out.old }

    // The status is the one that the job and its inputs lead to, or a fault of the outside or out of memory came in
    // its place; if nothing outside was at fault, memory alone can.
    ensures answers { IsTrue D.told → (r : Readings) (job : Job) → job_of words.now ≡ Some job
        → Answers (judged_on r job (D.files depot.old)) result }
    ensures possible { (job : Job) → job_of words.now ≡ Some job → IsTrue (can_end job result) }
    ensures complete { IsTrue D.told → (r : Readings) (job : Job) → job_of words.now ≡ Some job
        → AreFaultless (D.counts depot.old) (D.counts depot.new) (O.faults out.old) (O.faults out.new)
        → (result ≡ status_of (judged_on r job (D.files depot.old))) ⊎ (result ≡ Status.Memory) }

    // A fault or an absence is reported only if the outside counted it, and only if the job had come so far.
    ensures causes { (job : Job) → job_of words.now ≡ Some job
        → HasCause (input_name job) (output_name job) (D.counts depot.old) (D.counts depot.new)
        (O.faults out.old) (O.faults out.new) result }
    ensures reached { IsTrue D.told → (r : Readings) (job : Job) → job_of words.now ≡ Some job
        → (i : Input) → result ≡ Status.ReadFault i → Reaches r job (held_for job (D.files depot.old)) i }
    ensures needed { IsTrue D.told → (r : Readings) (job : Job) → job_of words.now ≡ Some job
        → (o : Output) → result ≡ Status.WriteFault o
        → status_of (judged_on r job (D.files depot.old)) ≡ Status.Done }

    // What is printed comes last, but for the jobs that print while they read: nothing is printed at a refusal, at a
    // read fault, if a file could not be written, or if memory ran out before the files were whole. But for these jobs
    // and `show`, which print in parts, nothing is printed if memory ran out, unless the output counted it.
    ensures silent { (job : Job) → job_of words.now ≡ Some job → prints_while_reading job ≡ false
        → IsPutLast result (O.taken out.old) (O.taken out.new) }
    ensures unprinted { (job : Job) → job_of words.now ≡ Some job → prints_in_parts job ≡ false
        → IsUnprinted result (O.taken out.old) (O.taken out.new) (O.wants out.old) (O.wants out.new) }
    ensures printed_last { IsTrue D.told → (r : Readings) (job : Job) → job_of words.now ≡ Some job
        → result ≡ Status.Memory → (O.taken out.new ≡ O.taken out.old)
        ⊎ AreAllWhole (output_name job) (written_by r job (held_for job (D.files depot.old))) (D.files depot.new) }

    // What is printed of a ranking: intervals that enclose each exact iterate from the last round on, within the
    // stated width, with teleport by the weights that were read or to each page alike; and whatever the depot, those of
    // some graph. If memory runs out, nothing is printed or written yet, unless the output or the certificate's file
    // was out of memory. Of a generated graph, each page that is counted as sure has one position in every such
    // iterate.
    ensures certified { IsTrue D.told → IsTrue O.told → (r : Readings) (job : RankJob)
        → job_of words.now ≡ Some (Job.Rank job) → result ≡ Status.Done
        → PrintsProvenRanking r (held_for (Job.Rank job) (D.files depot.old)) job
        (O.taken out.old) (O.taken out.new) }
    ensures ranked { IsTrue O.told → (r : Readings) (job : RankJob)
        → job_of words.now ≡ Some (Job.Rank job) → result ≡ Status.Done
        → PrintsSomeRanking r job (O.taken out.old) (O.taken out.new) }
    ensures wants_first { (job : RankJob) → job_of words.now ≡ Some (Job.Rank job)
        → WantsFirst ⟦<D as Depot>⟧ ⟦<O as Sink>⟧ job.certificate depot.old depot.new out.old out.new result }
    ensures sure { IsTrue O.told → (r : Readings) (seed pages : ℕ)
        → job_of words.now ≡ Some (Job.Bulk seed pages) → result ≡ Status.Done
        → PrintsProvenOutcome r seed pages (O.taken out.old) (O.taken out.new) }

    // What is printed of a certificate: what its bounds leave of 1. Each stationary vector lies between the bounds and
    // those with so much more, with teleport by the weights that were read or to each page alike; and whatever the
    // depot, over some graph and by some weights.
    ensures verified { IsTrue D.told → IsTrue O.told → (r : Readings) (job : VerifyJob)
        → job_of words.now ≡ Some (Job.Verify job) → result ≡ Status.Done
        → PrintsProvenGap r (held_for (Job.Verify job) (D.files depot.old)) job.weights
        (O.taken out.old) (O.taken out.new) }
    ensures leaves { IsTrue O.told → (job : VerifyJob)
        → job_of words.now ≡ Some (Job.Verify job) → result ≡ Status.Done
        → PrintsSomeGap job.weights (O.taken out.old) (O.taken out.new) }

    // What `rank` wrote of the same graph and weights is accepted.
    ensures accepts { IsTrue D.told → (r : Readings) (job : VerifyJob) → job_of words.now ≡ Some (Job.Verify job)
        → HoldsWritten r (held_for (Job.Verify job) (D.files depot.old)) job.weights
        → (result ≡ Status.Done) ⊎ IsHindrance result }

    // What stands on the output, in the files and on the error output.
    ensures output { IsTrue D.told → IsTrue O.told → (r : Readings) (job : Job) → job_of words.now ≡ Some job
        → HasOutput (output_of (judged_on r job (D.files depot.old))) (O.taken out.old) (O.taken out.new) result }
    ensures files { IsTrue D.told → (r : Readings) (job : Job) → job_of words.now ≡ Some job
        → HasFiles (output_name job) (written_by r job (held_for job (D.files depot.old))) (D.files depot.old)
        (D.files depot.new) result }
    ensures same { some_writes_files (job_of words.now) ≡ false → D.files depot.new ≡ D.files depot.old }
    ensures untouched { some_calls_depot (job_of words.now) ≡ false → depot.new ≡ depot.old }
    ensures later { NonDecreasing (D.counts depot.old) (D.counts depot.new) }
    ensures later_out { O.later out.old out.new }
    ensures later_err { E.later err.old err.new }
    ensures line { IsTrue E.told
        → (promised : ℕ) × (IsTrue D.told → ArePromisedBy (job_of words.now) (D.files depot.old) result promised)
        × Reports (line_of (job_of words.now) promised result) (E.taken err.old) (E.taken err.new)
        (Increased (E.faults err.old) (E.faults err.new) ⊎ Increased (E.wants err.old) (E.wants err.new)) }
    ensures quiet { result ≡ Status.Done → err.new ≡ err.old }
{
    let Ok(wanted) = find_job(alloc, words) else {
        report(err, &None, 0, Status::Memory);
        return Status::Memory;
    };
    let ending = try_job(alloc, &wanted, depot, out);
    report(err, &wanted, ending.promised, ending.status);
    // By a call: the drop of a job is then proved once, and not at each step of this function.
    drop(wanted);
    ending.status
}

// The job, if the words ask for one.
fn find_job(alloc: Global, words: &Words) -> Result<Option<Job>, AllocError>
    ensures job { IfOk result (λ o. o ≡ job_of words.now) }
    ensures within { IfOk result (λ o. IfSome o IsWithin) }
{
    match job(alloc, words) {
        Ok(job) => Ok(Some(job)),
        Err(JobError::Usage) => Ok(None),
        Err(JobError::Memory) => Err(AllocError),
    }
}

// How what was done or has ended is reported.
fn as_ending(done: Result<(), Ending>) -> Ending
    ensures status { result.status ≡ status_in done }
    ensures promised { result.promised ≡ promised_in done }
{
    match done {
        Ok(()) => Ending::of(Status::Done),
        Err(ending) => ending,
    }
}

// Does the job, if there is one.
fn try_job<D: Depot, O: Sink>(
    alloc: Global,
    wanted: &Option<Job>,
    depot: &mut D,
    out: &mut O,
) -> Ending
    requires { IfSome wanted.now IsWithin }
    ensures usage { result.status ≡ Status.Usage → wanted.now ≡ None }
    ensures no_job { wanted.now ≡ None → result.status ≡ Status.Usage }
    ensures no_output { wanted.now ≡ None → O.taken out.new ≡ O.taken out.old }
    ensures performs { (job : Job) → wanted.now ≡ Some job
        → Does ⟦<D as Depot>⟧ ⟦<O as Sink>⟧ job depot.old depot.new out.old out.new result.status result.promised }
    ensures anywhere { (job : Job) → wanted.now ≡ Some job
        → DoesAnywhere ⟦<D as Depot>⟧ ⟦<O as Sink>⟧ job depot.old depot.new out.old out.new result.status }
    ensures promised { IsTrue D.told → ArePromisedBy wanted.now (D.files depot.old) result.status result.promised }
    ensures same { some_writes_files wanted.now ≡ false → D.files depot.new ≡ D.files depot.old }
    ensures untouched { some_calls_depot wanted.now ≡ false → depot.new ≡ depot.old }
    ensures later { NonDecreasing (D.counts depot.old) (D.counts depot.new) }
    ensures later_out { O.later out.old out.new }
{
    match wanted {
        None => Ending::of(Status::Usage),
        Some(job) => as_ending(perform(alloc, job, depot, out)),
    }
}

//! From list to list: what goes to the two files.
ghost use Rattle.std.specs.Prelude.{◌≡◌, ℕ, ◌+◌, ◌<◌, ◌≤◌, true, false, cond, List as ListOf, [], ◌∷◌, ◌++◌, length, replicate, IfOk, IfErr, OnOk, IsTrue};
ghost use Rattle.wg_outside.specs.Outside.{NonDecreasing};
ghost use Rattle.wg_bits.specs.Written.{padding};
ghost use Rattle.wg_codes.specs.Words.{word};
ghost use Rattle.wg_params.specs.Parameters.{Parameters};
ghost use Rattle.wg_greedy.specs.Fields.{bits_of_fields, all_have_words};
ghost use Rattle.wg_greedy.specs.Greedy.{canonical};
ghost use Rattle.wg_greedy.specs.Archive.{refers};
ghost use Rattle.wg_greedy.specs.Laws.{IsList};
ghost use Rattle.wg_encoder.specs.Encoding.{encoded_on, HasWritten, IsChosen};
ghost use Rattle.wg_encoder.specs.Gone.{HasSentAll, HasAll, IsWritten, HasStopped, HasFailed, SendsTo, OnlyTwo};
ghost use Rattle.wg_encoder.specs.declared.error.EncodeError.TheVariants as errors;

use crate::choice::Choice;
use crate::error::EncodeError;
use crate::held::HeldRecord;
use crate::list_encoder::ListEncoder;
use crate::making::Draft;
use crate::names::FileNames;
use std::alloc::AllocError;
use wg_bits::Writer;
use wg_codes::write;
use wg_outside::{Depot, Output, WriteError};

// 1 for a reference to a page before, else 0.
#[inline(always)]
fn ones(reference: u64) -> u64
    ensures { result ≡ cond (refers reference) 1 0 }
{
    if reference > 0 { 1 } else { 0 }
}

// The depot's own error, of a call on this file.
fn failed_on(output: Output, error: WriteError) -> EncodeError
    ensures failed { error ≡ WriteError.Failed → result ≡ errors.Failed output }
    ensures memory { error ≡ WriteError.Memory → result ≡ errors.Memory }
{
    match error {
        WriteError::Failed => EncodeError::Failed(output),
        WriteError::Memory => EncodeError::Memory,
    }
}

// What is made in memory for a list before anything is put.
#[derive(Drop)]
struct Ready {
    draft: Box<Draft>,
    names: Box<FileNames>,
    choice: Choice,
}

impl ListEncoder {
    // The memory of the record before, or some that is new.
    #[inline(always)]
    fn take_draft(&mut self) -> Result<Box<Draft>, AllocError>
        ensures { self.new ≡ self.old }
    {
        match self.spare.take() {
            Some(draft) => Ok(draft),
            None => Ok(Box::new(self.alloc, Draft::new(self.alloc))?),
        }
    }

    // The names of the archive's files: those of the call before, or some that are new.
    #[inline(always)]
    fn take_names(&mut self, base: &str) -> Result<Box<FileNames>, AllocError>
        ensures names { IfOk result (λ names. names.value ≡ base.now) }
        ensures same { self.new ≡ self.old }
    {
        if let Some(names) = self.names.take() {
            if names.are_of(base) {
                return Ok(names);
            }
        }
        Ok(Box::new(self.alloc, FileNames::of(self.alloc, base)?)?)
    }

    // Makes the record of a list that comes next.
    #[inline(always)]
    fn make(&self, list: &[u64], draft: &mut Draft, choice: Choice) -> Result<(), AllocError>
        requires page { self.now.next.page < self.now.params.nodes }
        requires list { IsList self.now.params list.now }
        requires chosen { IsChosen self.now.params self.now.next list.now choice }
        ensures record_is { OnOk result (draft.new
            ≡ canonical self.now.params self.now.next list.now choice.reference) }
        ensures words { OnOk result (all_have_words draft.new ≡ true) }
    {
        self.limits();
        let referenced = self.referenced_list(choice.reference);
        draft.fill(&*self.params, self.page, choice.reference, referenced, list)
    }

    // Makes what the list that comes next takes of memory: its record, by the best choice, and the names of the files.
    #[inline(always)]
    fn prepare(&mut self, list: &[u64], base: &str) -> Result<Ready, AllocError>
        requires page { self.old.next.page < self.old.params.nodes }
        requires list { IsList self.old.params list.now }
        ensures same { self.new ≡ self.old }
        ensures chosen { IfOk result (λ r. IsChosen self.old.params self.old.next list.now r.choice) }
        ensures record_is { IfOk result (λ r. r.draft.value
            ≡ canonical self.old.params self.old.next list.now r.choice.reference) }
        ensures words { IfOk result (λ r. all_have_words r.draft.value ≡ true) }
        ensures names { IfOk result (λ r. r.names.value ≡ base.now) }
    {
        self.mark(list);
        let choice = self.choose(list);
        let mut draft = self.take_draft()?;
        self.make(list, &mut *draft, choice)?;
        let names = self.take_names(base)?;
        Ok(Ready {
            draft,
            names,
            choice,
        })
    }

    // Puts the word of the offsets file that is due: 0 for page 0, else the length of the record before.
    #[inline(always)]
    fn put_offset<D: Depot>(mut self, depot: &mut D, name: &str) -> Result<ListEncoder, EncodeError>
        ensures sends { SendsTo Output.Offsets ⟦<D as Depot>⟧ depot.old depot.new name.now self.offsets_waits
            (word self.params.offsets self.last) (λ e. e.offsets_waits) result }
        ensures on { IfOk result (λ e. e ≡ record self { offsets_waits = e.offsets_waits }) }
    {
        self.limits();
        match write(
            self.params.offsets(),
            self.last,
            &mut *self.offsets_writer,
            depot,
            name,
        ) {
            Ok(()) => Ok(self),
            Err(e) => Err(failed_on(Output::Offsets, e)),
        }
    }

    // Puts the record of the list that comes next.
    #[inline(always)]
    fn put_record<D: Depot>(
        mut self,
        made: &HeldRecord,
        depot: &mut D,
        name: &str,
    ) -> Result<ListEncoder, EncodeError>
        requires { all_have_words made.now ≡ true }
        ensures sends { SendsTo Output.Graph ⟦<D as Depot>⟧ depot.old depot.new name.now self.graph_waits
            (bits_of_fields made.now) (λ e. e.graph_waits) result }
        ensures on { IfOk result (λ e. e ≡ record self { graph_waits = e.graph_waits }) }
    {
        match made.write(&mut *self.graph_writer, depot, name) {
            Ok(()) => Ok(self),
            Err(e) => Err(failed_on(Output::Graph, e)),
        }
    }

    // Goes on to the next page, with the list of this one written by the choice that was made. The draft and the
    // names are kept for the page after it.
    #[inline(always)]
    fn next_page(mut self, list: &[u64], ready: Ready) -> Result<ListEncoder, AllocError>
        requires page { self.next.page < self.params.nodes }
        requires list { IsList self.params list.now }
        requires arcs { self.next.arcs_before + length list.now ≤ self.params.arcs }
        requires chosen { IsChosen self.params self.next list.now ready.choice }
        ensures { IfOk result (λ e. e ≡ encoded_on self list.now self.graph_waits self.offsets_waits) }
    {
        self.limits();
        let Ready {
            draft,
            names,
            choice,
        } = ready;
        let depth = self.depth(choice.reference);
        self.kept.keep(list, depth)?;
        self.page += 1;
        self.arcs += list.len() as u64;
        self.last = choice.bits;
        self.total += choice.bits;
        self.referring += ones(choice.reference);
        self.spare = Some(draft);
        self.names = Some(names);
        Ok(self)
    }
}

impl ListEncoder {
    /// Writes the list that comes next, and goes on to the one after it. Its record is made in memory before anything
    /// is put. The words of the offsets file come one list later: 0 first, then the length of the record before. The
    /// names of the two files are made when a name of an archive first comes, or another one, and then held.
    #[inline(always)]
    pub(crate) fn next<D: Depot>(
        mut self,
        list: &[u64],
        depot: &mut D,
        base: &str,
    ) -> Result<ListEncoder, EncodeError>
        requires page { self.next.page < self.params.nodes }
        requires list { IsList self.params list.now }
        requires arcs { self.next.arcs_before + length list.now ≤ self.params.arcs }
        ensures on { IfOk result (λ e. e ≡ encoded_on self list.now e.graph_waits e.offsets_waits) }
        ensures written { (lists : ListOf (ListOf ℕ)) → HasWritten self lists
            → IfOk result (λ e. HasWritten e (lists ++ list.now ∷ [])) }
        ensures ok { (lists : ListOf (ListOf ℕ)) → HasWritten self lists → IsTrue D.told
            → HasSentAll (D.files depot.old) base.now self lists
            → IfOk result (λ e. HasSentAll (D.files depot.new) base.now e (lists ++ list.now ∷ [])) }
        ensures err { (lists more : ListOf (ListOf ℕ)) → HasWritten self lists → IsTrue D.told
            → HasSentAll (D.files depot.old) base.now self lists
            → IfErr result (HasStopped (D.files depot.new) base.now self.params (lists ++ list.now ∷ more)) }
        ensures only_two { IsTrue D.told → OnlyTwo base.now (D.files depot.old) (D.files depot.new) }
        ensures fault { IfErr result (HasFailed base.now (D.counts depot.old) (D.counts depot.new)) }
        ensures later { NonDecreasing (D.counts depot.old) (D.counts depot.new) }
    {
        let ready = self.prepare(list, base)?;
        let begun = self.put_offset(depot, ready.names.offsets())?;
        let put = begun.put_record(ready.draft.record(), depot, ready.names.graph())?;
        Ok(put.next_page(list, ready)?)
    }

    /// Puts the last word of the offsets, the length of the last record, and fills up both files to whole bytes. It
    /// answers how many bits the records have.
    pub(crate) fn finish<D: Depot>(mut self, depot: &mut D, base: &str) -> Result<u64, EncodeError>
        requires { self.next.page ≡ self.params.nodes }
        ensures bits { IfOk result (λ bits. bits ≡ self.total) }
        ensures ok { (lists : ListOf (ListOf ℕ)) → HasWritten self lists → IsTrue D.told
            → HasSentAll (D.files depot.old) base.now self lists
            → OnOk result (IsWritten (D.files depot.new) base.now self.params lists) }
        ensures err { (lists : ListOf (ListOf ℕ)) → HasWritten self lists → IsTrue D.told
            → HasSentAll (D.files depot.old) base.now self lists
            → IfErr result (HasStopped (D.files depot.new) base.now self.params lists) }
        ensures only_two { IsTrue D.told → OnlyTwo base.now (D.files depot.old) (D.files depot.new) }
        ensures fault { IfErr result (HasFailed base.now (D.counts depot.old) (D.counts depot.new)) }
        ensures later { NonDecreasing (D.counts depot.old) (D.counts depot.new) }
    {
        let bits = self.total;
        let names = self.take_names(base)?;
        let put = self.put_offset(depot, names.offsets())?;
        close_both(put.graph_writer, put.offsets_writer, depot, &*names)?;
        Ok(bits)
    }
}

// Fills up the graph file to a whole byte, and then the offsets file.
fn close_both<D: Depot>(
    graph: Box<Writer>,
    offsets: Box<Writer>,
    depot: &mut D,
    names: &FileNames,
) -> Result<(), EncodeError>
    requires graph { graph.value.failed ≡ false }
    requires offsets { offsets.value.failed ≡ false }
    ensures ok { (p : Parameters) (lists : ListOf (ListOf ℕ)) → IsTrue D.told
        → HasAll (D.files depot.old) names.now p lists graph.value.bits offsets.value.bits
        → OnOk result (IsWritten (D.files depot.new) names.now p lists) }
    ensures err { (p : Parameters) (lists : ListOf (ListOf ℕ)) → IsTrue D.told
        → HasAll (D.files depot.old) names.now p lists graph.value.bits offsets.value.bits
        → IfErr result (HasStopped (D.files depot.new) names.now p lists) }
    ensures only_two { IsTrue D.told → OnlyTwo names.now (D.files depot.old) (D.files depot.new) }
    ensures fault { IfErr result (HasFailed names.now (D.counts depot.old) (D.counts depot.new)) }
    ensures later { NonDecreasing (D.counts depot.old) (D.counts depot.new) }
{
    close(graph, Output::Graph, depot, names.graph())?;
    close(offsets, Output::Offsets, depot, names.offsets())?;
    Ok(())
}

// Fills up a file to a whole byte.
fn close<D: Depot>(
    writer: Box<Writer>,
    output: Output,
    depot: &mut D,
    name: &str,
) -> Result<(), EncodeError>
    requires { writer.value.failed ≡ false }
    ensures { SendsTo output ⟦<D as Depot>⟧ depot.old depot.new name.now writer.value.bits
        (replicate (padding (length writer.value.bits)) false) (λ _. []) result }
{
    match Box::into_inner(writer).finish(depot, name) {
        Ok(()) => Ok(()),
        Err(e) => Err(failed_on(output, e)),
    }
}

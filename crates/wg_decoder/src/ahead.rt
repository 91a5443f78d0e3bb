//! The head of a record on its own.
ghost use Rattle.std.specs.Prelude.{◌≡◌, ◌<◌, ◌≤◌, ℕ, Bool, List as ListOf, min, IfOk, IfErr};
ghost use Rattle.wg_grammar.specs.Context.{Known};
ghost use Rattle.wg_grammar.specs.Errors.{OnFault, OnRefusal, WantsNoMemory};
ghost use Rattle.wg_decoder.specs.Answer.{context_at};
ghost use Rattle.wg_decoder.specs.Apart.{HeadStands, HeadFails};
ghost use Rattle.wg_decoder.specs.Chains.{endless};

use crate::Head;
use crate::behind::Alone;
use crate::heads::read_head;
use wg_bits::Cursor;
use wg_grammar::{Fault, ReadError, Source};
use wg_params::{Layout, Params};

// These parameters, without a limit on chains.
fn endless(params: &Params) -> Params
    ensures { result ≡ endless params.now }
{
    let layout = Layout {
        chain: None,
        ..params.layout()
    };
    match Params::with_layout(params.nodes(), params.arcs(), layout) {
        Ok(params) => params,
        Err(_) => unreachable!(),
    }
}

/// The head of the record that comes next from a source, of a page with `arcs_before` arcs before it; or the fault that
/// its outdegree or its reference has. Chains may have any length, so it is the same whatever the pages before are. It
/// takes no memory, and reads two words at most. The source may stand anywhere in the record if it has a fault, or
/// if a word was refused.
pub fn head_from<S: Source>(
    params: &Params,
    page: u64,
    arcs_before: u64,
    source: &mut S,
) -> Result<Head, ReadError<Fault, S::Refusal>>
    requires page { page < params.now.nodes }
    requires before { arcs_before ≤ params.now.arcs }
    ensures later { S.later source.old source.new }
    ensures no_memory { WantsNoMemory result }
    ensures refused { OnRefusal result (S.caused source.old source.new) }
    ensures stands { (bits : ListOf Bool) → S.reads_from source.old bits → (behind : ListOf Known)
        → IfOk result (λ h. HeadStands (endless params.now) (context_at page arcs_before behind) bits
        (S.offset source.old) h.outdegree h.reference (S.offset source.new)) }
    ensures fault { (bits : ListOf Bool) → S.reads_from source.old bits → (behind : ListOf Known)
        → OnFault result (λ e. HeadFails (endless params.now) (context_at page arcs_before behind) bits
        (S.offset source.old) e) }
    ensures there { IfOk result (λ h. h.reference ≤ min params.now.window page) }
{
    let params = endless(params);
    let nothing = Alone {
        window: params.window(),
        list: &[],
        depth: 0,
    };
    read_head(&params, page, arcs_before, &nothing, source)
}

/// Like [`head_from`], for the record at a cursor, which refuses no word.
pub fn head(params: &Params, page: u64, arcs_before: u64, cursor: Cursor<'_>) -> Result<Head, Fault>
    requires page { page < params.now.nodes }
    requires before { arcs_before ≤ params.now.arcs }
    ensures stands { (behind : ListOf Known) → IfOk result (λ h. (end : ℕ) × HeadStands (endless params.now)
        (context_at page arcs_before behind) cursor.entry.bits cursor.entry.at h.outdegree h.reference end) }
    ensures fault { (behind : ListOf Known) → IfErr result (λ e. HeadFails (endless params.now)
        (context_at page arcs_before behind) cursor.entry.bits cursor.entry.at e) }
    ensures there { IfOk result (λ h. h.reference ≤ min params.now.window page) }
{
    let mut ahead = cursor;
    match head_from(params, page, arcs_before, &mut ahead) {
        Ok(head) => Ok(head),
        Err(unread) => match unread {
            ReadError::Fault(fault) => Err(fault),
            ReadError::Memory => unreachable!(),
            ReadError::Refused(never) => match never {},
        },
    }
}

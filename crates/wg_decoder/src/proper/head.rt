//! The head of a record: its outdegree, and where it refers to.
ghost use Rattle.std.specs.Prelude.{◌≡◌, ◌^◌, ◌<◌, ℕ, List, Option};
ghost use Rattle.wg_grammar.specs.SoFar.{value_or_0};
ghost use Rattle.wg_decoder.specs.Proper.Headed.{IsReadHead};
ghost use Rattle.wg_decoder.specs.Proper.{IsRecord};

use super::lookahead::{Lookahead, value, value_where};
use wg_bits::Cursor;
use wg_params::Params;

/// The head of a record, as it was read.
#[derive(Drop)]
pub struct RecordHead<'a> {
    /// How many successors the page has.
    pub outdegree: u64,
    /// How many pages back the record refers; 0, if it has no reference.
    pub reference: u64,
    /// Stands behind the head.
    pub words: Lookahead<'a>,
}

/// Reads the head of the record at the cursor: two words at most.
#[inline(always)]
pub fn read_head<'a>(params: &Params, cursor: Cursor<'a>) -> RecordHead<'a>
    requires { (page : ℕ) × (below : Option (List ℕ)) × (list : List ℕ)
        × IsRecord params.now page below cursor list }
    ensures short { result.outdegree < 2 ^ 63 }
    ensures head { IsReadHead params.now cursor.entry result }
    ensures reference { (page : ℕ) (below : Option (List ℕ)) (list : List ℕ)
        (h : IsRecord params.now page below cursor.entry list) → result.reference ≡ value_or_0 h.whole.reference }
{
    // tells the limits
    params.nodes();
    let mut words = Lookahead::new(cursor);
    let outdegree = value(params.outdegrees(), &mut words);
    let refers = (outdegree > 0) & (params.window() > 0);
    let reference = value_where(refers, params.references(), &mut words);
    RecordHead {
        outdegree,
        reference,
        words,
    }
}

/// How many pages back the record at the cursor refers; 0, if it has no reference. It reads two words at most.
#[inline(always)]
pub fn reference(params: &Params, cursor: Cursor<'_>) -> u64
    requires { (page : ℕ) × (below : Option (List ℕ)) × (list : List ℕ)
        × IsRecord params.now page below cursor list }
    ensures { (page : ℕ) (below : Option (List ℕ)) (list : List ℕ)
        (h : IsRecord params.now page below cursor.entry list) → result ≡ value_or_0 h.whole.reference }
{
    read_head(params, cursor).reference
}

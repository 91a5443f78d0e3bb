//! Lengths of records, as two files tell them.
ghost use Rattle.std.specs.Prelude.{◌≡◌, ◌≢◌, ◌⊎◌, ℕ, ◌+◌, ◌<◌, ◌≤◌, List, [], ◌∷◌, ◌++◌, Some, None, IfSome, IfNone};
ghost use Rattle.wg_params.specs.declared.limits.TheConstants.{MOST_PAGES};
ghost use Rattle.wg_offsets.specs.Comparing.{AreCompared, Judges};

use std::marker::Model;

/// Compares the lengths of records, as two files tell them by offsets, record after record. It keeps the first record
/// whose lengths differ, and of the offsets only the last.
///
/// It is seen as the number of records, the offset after them here and there, and that first record.
#[derive(Debug, Drop)]
pub struct Comparison {
    page: u64,
    here: u64,
    there: u64,
    mismatch: Option<(u64, u64, u64)>,
}

impl Model for Comparison {
    ghost use Rattle.std.specs.Prelude.{◌≤◌};
    ghost use Rattle.wg_params.specs.declared.limits.TheConstants.{MOST_PAGES};
    ghost use Rattle.wg_offsets.specs.Comparing.{Compared};

    ghost Value = { Compared };

    ghost view = { λ c. record { page = c.page; here = c.here; there = c.there; mismatch = c.mismatch } };

    ghost invariant = { λ c. c.page ≤ MOST_PAGES };
}

// Keeps the first mismatch, after this page too.
#[inline(always)]
fn keep_first(mismatch: &mut Option<(u64, u64, u64)>, page: u64, here: u64, there: u64)
    ensures none { IfNone mismatch.new ((mismatch.old ≡ None) × (here ≡ there)) }
    ensures some { IfSome mismatch.new (λ m. (mismatch.old ≡ Some m)
        ⊎ ((mismatch.old ≡ None) × (m ≡ (page, here, there)) × (here ≢ there))) }
{
    if here != there && mismatch.is_none() {
        *mismatch = Some((page, here, there));
    }
}

impl Comparison {
    /// Before the first record, which begins at the first bit.
    pub fn new() -> Comparison
        ensures none { result ≡ record { page = 0; here = 0; there = 0; mismatch = None } }
        ensures compared { AreCompared result (0 ∷ []) (0 ∷ []) }
    {
        Comparison {
            page: 0,
            here: 0,
            there: 0,
            mismatch: None,
        }
    }

    /// Goes on to the offsets after one record more.
    #[inline(always)]
    pub fn push(&mut self, here: u64, there: u64)
        requires more { self.old.page < MOST_PAGES }
        requires here { self.old.here ≤ here }
        requires there { self.old.there ≤ there }
        ensures page { self.new.page ≡ self.old.page + 1 }
        ensures here { self.new.here ≡ here }
        ensures there { self.new.there ≡ there }
        ensures compared { (p q : List ℕ) → AreCompared self.old p q
            → AreCompared self.new (p ++ here ∷ []) (q ++ there ∷ []) }
    {
        keep_first(
            &mut self.mismatch,
            self.page,
            here - self.here,
            there - self.there,
        );
        self.page += 1;
        self.here = here;
        self.there = there;
    }

    /// The first page whose record has another length there than here, with its length here and its length there, in
    /// bits.
    pub fn first_mismatch(&self) -> Option<(u64, u64, u64)>
        ensures value { result ≡ self.now.mismatch }
        ensures judges { (p q : List ℕ) → AreCompared self.now p q → Judges result p q }
    {
        self.mismatch
    }
}

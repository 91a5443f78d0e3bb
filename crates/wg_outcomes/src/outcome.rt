//! What comes of a generated graph, and its text.
ghost use Rattle.std.specs.Prelude.{◌≡◌, ◌+◌, ◌≤◌, ◌++◌, length};
ghost use Rattle.wg_outcomes.specs.Bulk.{outcome_text, page_or_dash};
ghost use Rattle.wg_outcomes.specs.declared.text.TheConstants.{MOST_TEXT};

use crate::text::Text;

/// The rounds of a ranking of generated pages.
pub const BULK_ROUNDS: u64 = 20;

/// What the archive of a graph and the ranking of its pages come to: how many pages and arcs there are, how many bits
/// the records have, how many of them have a reference above 0, which page is the first, if there is one, and to how
/// many pages their bounds leave one position alone.
#[derive(Clone, Copy, Debug)]
pub struct Outcome {
    pub pages: u64,
    pub arcs: u64,
    pub bits: u64,
    pub referring: u64,
    pub first: Option<u64>,
    pub sure: u64,
}

impl Outcome {
    /// A line for each number.
    pub fn text(&self) -> Text
        ensures { result ≡ outcome_text self.now }
    {
        let text = Text::new()
            .with("nodes ")
            .with_number(self.pages)
            .with("\narcs ")
            .with_number(self.arcs)
            .with("\nbits ")
            .with_number(self.bits)
            .with("\nreferring ")
            .with_number(self.referring)
            .with("\nfirst ");
        with_page(text, self.first)
            .with("\nsure ")
            .with_number(self.sure)
            .with("\n")
    }
}

// The text with a page more, or a dash for none.
fn with_page(text: Text, page: Option<u64>) -> Text
    requires { length text + 20 ≤ MOST_TEXT }
    ensures text { result ≡ text ++ page_or_dash page }
    ensures length { length result ≤ length text + 20 }
{
    match page {
        Some(page) => text.with_number(page),
        None => text.with("-"),
    }
}

/// The most pages of a graph whose runs are held: the numbers of pages, and of the place behind the last one, are of
/// 32 bits.
pub const MOST_PAGES_IN_RUNS: u64 = 4_294_967_295;

/// Pages that follow one another: from page `from` on, up to the page before `to`.
#[derive(Clone, Copy, Debug, PartialEq, Eq)]
pub struct PageRun {
    /// The first page.
    pub from: u32,
    /// The page behind the last one.
    pub to: u32,
}

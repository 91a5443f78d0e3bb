// A worked archive, bit by bit.

/// An archive that is in order, and what it holds.
#[derive(Clone, Copy, Debug)]
pub struct Sample {
    /// How many pages it has.
    pub nodes: u64,
    /// How many arcs it has.
    pub arcs: u64,
    /// The bits of the graph file. One blank parts the words of a record, and two part the records.
    pub graph: &'static str,
    /// The bits of the offsets file.
    pub offsets: &'static str,
    /// The successors of each page.
    pub lists: &'static [&'static [u64]],
    /// The offset of each record, and the end of the last.
    pub places: &'static [u64],
}

/// Page 1 copies the list of page 0.
pub const COPIED: Sample = Sample {
    nodes: 3,
    arcs: 4,
    graph: "011 1 1 1011 100  011 01 1  1",
    offsets: "1 0001101 00111 010",
    lists: &[&[1, 2], &[1, 2], &[]],
    places: &[0, 12, 18, 19],
};

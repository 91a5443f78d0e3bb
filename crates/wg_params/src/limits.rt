/// The most pages of a graph.
pub const MOST_PAGES: u64 = 68_719_476_735;

/// The most arcs of a graph.
pub const MOST_ARCS: u64 = 1_099_511_627_776;

/// How many pages back a reference may reach at most.
pub const MOST_WINDOW: u64 = 65_535;

/// The greatest limit on the references that lead from one page to the next; there may also be none.
pub const MOST_CHAIN: u64 = 2_147_483_647;

/// The greatest least length of an interval.
pub const MOST_INTERVAL: u64 = 2_147_483_647;

/// The greatest parameter k of a zeta code.
pub const MOST_ZETA: u32 = 31;

/// The greatest damping of a ranking, in thousandths.
pub const MOST_DAMPING: u64 = 999;

/// The most rounds of a ranking.
pub const MOST_ROUNDS: u64 = 10_000;

/// The most pages of a generated graph.
pub const MOST_GENERATED: u64 = 1 << 24;

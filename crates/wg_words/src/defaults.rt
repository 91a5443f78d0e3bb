/// The rounds of a `rank` whose words give none.
pub const DEFAULT_ROUNDS: u64 = 100;

/// The damping of a `rank` whose words give none, in thousandths.
pub const DEFAULT_DAMPING: u64 = 850;

/// How many pages a `rank` lists whose words do not say.
pub const DEFAULT_TOP: u64 = 10;

/// How many pages back a reference may reach in an archive whose words do not say.
pub const DEFAULT_WINDOW: u64 = 7;

/// How many references may lead from one page to the next.
pub const DEFAULT_CHAIN: u64 = 3;

/// The least length of an interval.
pub const DEFAULT_INTERVAL: u64 = 4;

/// The parameter k of zeta codes.
pub const DEFAULT_ZETA: u32 = 3;

/// The word for the code of outdegrees.
pub const DEFAULT_OUTDEGREES: &str = "gamma";

/// The word for the code of references.
pub const DEFAULT_REFERENCES: &str = "unary";

/// The word for the code of block counts.
pub const DEFAULT_BLOCK_COUNTS: &str = "gamma";

/// The word for the code of blocks.
pub const DEFAULT_BLOCKS: &str = "gamma";

/// The word for the code of residuals.
pub const DEFAULT_RESIDUALS: &str = "zeta";

/// The word for the code of offsets.
pub const DEFAULT_OFFSETS: &str = "gamma";

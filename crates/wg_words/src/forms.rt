//! The table of the commands: what each takes.
//!
//! Contracts cite it, so its rows are tuples: a constant that is cited can't be of structs.

use Arity::{Optional, Required, Several, Word};

/// What an argument is.
#[derive(Clone, Copy)]
pub enum Arity {
    /// A word that must be there.
    Word,
    /// One word or more.
    Several,
    /// An option of one value, which must be there.
    Required,
    /// An option of one value, which may be absent.
    Optional,
}

/// One argument of a command: its name, and what it is.
pub type Argument = (&'static str, Arity);

/// A command: its name, its words in their order, and its options.
pub type Form = (&'static str, &'static [Argument], &'static [Argument]);

// The archive of a command.
const BASE: &[Argument] = &[("base", Word)];

// The archive that is read and the one that is written.
const TWO_ARCHIVES: &[Argument] = &[("in", Word), ("out", Word)];

// The options that say how an archive is written.
const LAYOUT: &[Argument] = &[
    ("window", Optional),
    ("chain", Optional),
    ("interval", Optional),
    ("zeta", Optional),
    ("outdegrees", Optional),
    ("references", Optional),
    ("blockcounts", Optional),
    ("blocks", Optional),
    ("residuals", Optional),
    ("offsets", Optional),
];

const RANK: &[Argument] = &[
    ("rounds", Optional),
    ("damping", Optional),
    ("top", Optional),
    ("weights", Optional),
    ("certificate", Optional),
];

/// All commands.
pub const FORMS: [Form; 15] = [
    ("check", BASE, &[]),
    ("arcs", BASE, &[]),
    ("offsets", BASE, &[]),
    ("ascii", BASE, &[]),
    ("show", &[("base", Word), ("page", Several)], &[]),
    ("spot", &[("base", Word), ("page", Word)], &[]),
    ("rank", BASE, RANK),
    (
        "verify",
        &[("base", Word), ("certificate", Word)],
        &[("weights", Optional)],
    ),
    (
        "build",
        &[("arcs", Word), ("base", Word), ("nodes", Required)],
        LAYOUT,
    ),
    ("import", &[("text", Word), ("base", Word)], LAYOUT),
    (
        "quotient",
        &[
            ("in", Word),
            ("map", Word),
            ("out", Word),
            ("classes", Required),
        ],
        LAYOUT,
    ),
    ("recode", TWO_ARCHIVES, LAYOUT),
    (
        "union",
        &[("in", Word), ("second", Word), ("out", Word)],
        LAYOUT,
    ),
    ("transpose", TWO_ARCHIVES, LAYOUT),
    ("bulk", &[("seed", Word), ("pages", Word)], &[]),
];

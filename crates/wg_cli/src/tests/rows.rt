//! Worked cases of the program, a step on a line: what its files hold, the words, and what then stands on its outputs
//! and in its files. A line that ends in a backslash goes on in the next.
//!
//! In a text `|` is the end of a line, and `%` with two digits of base 16 the byte of this number. Bits are ones and
//! zeros, which blanks may part, and zeros up to a whole byte; after `*` stands how often the bits behind it come.
//!
//! | step | what it does |
//! |---|---|
//! | `case NAME` | begins anew, with no files; it is gone through with calls that move 4096, 3, and 1 bytes |
//! | `pieces K` | begins anew; this case is gone through once, with calls that move at most `K` bytes |
//! | `let NAME STEP` | keeps a step; several may have one name |
//! | `use NAME BASE TEXT` | does the steps of this name, with `BASE` for `$` and `TEXT` for `&` |
//! | `text FILE TEXT`, `bits FILE BITS` | gives a file |
//! | `lists FILE PAGES COUNT APART TURN` | gives an arc list: see `lists_of` |
//! | `save FILE` | gives a file of what the last run printed |
//! | `change FILE PLACE LETTERS` | has a file go on with these letters at a place |
//! | `run WORDS` | runs the program; `''` is the empty word |
//! | `run-zeros FILE LENGTH WORDS` | runs it over one file of so many zeros |
//! | `failing CALL K` | does the case again up to its first run, in which call `K` of this kind fails |
//!
//! A call is a `read`, `create` or `append` of the files, a `write` to the output, or a `report` on standard error.
//!
//! | step | what is so |
//! |---|---|
//! | `prints TEXT`, `prints-file FILE` | the run ended with status 0 and printed this alone, and reported nothing |
//! | `begins TEXT` | the same, and what it printed begins so |
//! | `refuses STATUS TEXT` | it ended with this status and reported this alone, and printed nothing |
//! | `status STATUS`, `reports TEXT` | it ended with this status, and reported this |
//! | `prints-only COUNT TEXT`, `reports-only COUNT TEXT` | so many of the first bytes of the text went out |
//! | `holds FILE TEXT`, `holds-bits FILE BITS`, `lacks FILE` | a file holds this, or is not there |
//! | `stands NAME BASE TEXT` | there are the files that the steps of this name give |
//! | `each CALL K to L STEP` | `STEP` is so after `failing CALL K`, and so on up to `L`; `$` are the calls before |

mod archives;
mod built;
mod certificates;
mod failing;
mod kept;
mod large;
mod lists;
mod longer;
mod made;
mod properties;
mod ranked;
mod refused;
mod spoiled;
mod spotted;
mod stopped;
mod words;

pub use spoiled::WRONG;

/// Those that are gone through with calls that move at most 4096, 3, and 1 bytes. (A function, since the prover would
/// take a constant of this size anew at each step beside it.)
pub fn rows() -> [&'static str; 17] {
    [
        kept::KEPT,
        words::WORDS,
        archives::ARCHIVES,
        longer::LONGER,
        refused::REFUSED,
        refused::UNREAD,
        properties::PROPERTIES,
        lists::LISTS,
        built::BUILT,
        made::MADE,
        ranked::RANKED,
        certificates::CERTIFICATES,
        spotted::SPOTTED,
        failing::READS,
        stopped::FILES,
        failing::WRITES,
        spoiled::SPOILED,
    ]
}

/// Those that are gone through once, since they are larger.
pub fn large_rows() -> [&'static str; 3] {
    [kept::KEPT, large::LARGE, spoiled::SPOILED]
}

//! The parameters of an archive: how many pages and arcs it has, how far its references reach, and in which codes its
//! fields are written.
//!
//! [`Code`] names a code for whole numbers. A [`Layout`] says how an archive is written, whatever graph it holds, and
//! may be anything. [`Params`] keeps one archive's parameters within their limits, the constants of this crate;
//! [`Params::new`] makes it of all parameters one by one, and [`Params::with_layout`] of a layout. Both name the first
//! [`Key`] that is out of its limits. Whoever holds a `Params` can rely on the limits: each call that reads a field
//! ensures them.
//!
//! Parameters of an archive in the default codes ([`Codes::defaults`]), and some that are refused:
//!
//! ```rust
//! let params = Params::new(
//!     3,
//!     4,
//!     7,
//!     None,
//!     4,
//!     3,
//!     Code::Gamma,
//!     Code::Unary,
//!     Code::Gamma,
//!     Code::Gamma,
//!     Code::Zeta(3),
//!     Code::Gamma,
//! )?;
//! assert!(rt; params.nodes() == 3 && params.residuals() == Code::Zeta(3));
//! // offsets are in gamma or delta
//! let layout = params.layout();
//! let codes = Codes {
//!     offsets: Code::Unary,
//!     ..layout.codes
//! };
//! let other = Params::with_layout(3, 4, Layout { codes, ..layout });
//! let key = Key::CompressionFlags;
//! assert!(rt; other.err() == Some(BadParam { key }));
//! Ok(())
//! ```
#![tactic(auto)]

mod code;
mod key;
mod layout;
mod limits;
mod params;

pub use code::Code;
pub use key::{BadParam, Key, key_name};
pub use layout::{Codes, Layout};
pub use limits::{
    MOST_ARCS, MOST_CHAIN, MOST_DAMPING, MOST_GENERATED, MOST_INTERVAL, MOST_PAGES, MOST_ROUNDS,
    MOST_WINDOW, MOST_ZETA,
};
pub use params::Params;

//! The blocks of a record.
ghost use Rattle.std.specs.Prelude.{◌≡◌, ◌^◌, ◌<◌};
ghost use Rattle.wg_graph.specs.Copied.{block_at};

/// A block's length: the first is stored as it is, later ones less 1.
#[inline(always)]
pub fn block_of(index: u64, stored: u64) -> u64
    requires { stored < 2 ^ 63 }
    ensures { result ≡ block_at index stored }
{
    if index == 0 { stored } else { stored + 1 }
}

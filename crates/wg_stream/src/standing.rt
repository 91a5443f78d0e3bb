//! Bits that stand for a graph.
ghost use Rattle.std.specs.Prelude.{◌≡◌, Ok};
ghost use Rattle.wg_bits.specs.Bits.{bits_of};
ghost use Rattle.wg_grammar.specs.Archive.{Accepted, ReadsGraph};
ghost use Rattle.wg_stream.specs.Sweeping.{HaveGraph};
ghost use Rattle.wg_stream.specs.OneStands.{have_one};

use wg_params::Params;

// The bytes of a graph file that stand for a graph, of which there is one.
#[derive(Debug, Drop)]
pub(crate) struct Standing<'a> {
    pub(crate) bytes: &'a [u8],
    pub(crate) params: Params,
    ghost graph: { HaveGraph params (bits_of bytes.now) } by { have_one params (bits_of bytes.now) },
}

impl<'a> Standing<'a> {
    pub(crate) fn of(bytes: &'a [u8], params: Params) -> Standing<'a>
        requires { (a : Accepted) × ReadsGraph params (bits_of bytes.now) (Ok a) }
        ensures bytes { result.bytes.now ≡ bytes.now }
        ensures params { result.params ≡ params }
    {
        // tells the limits
        params.nodes();
        Standing { bytes, params }
    }
}

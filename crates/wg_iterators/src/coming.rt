//! The successors of a page, as a list whose numbers come one by one.

use crate::Successors;
use wg_shape::Coming;

impl<'a> Coming for Successors<'a> {
    ghost coming = { λ s. s.list };

    #[inline(always)]
    fn next(&mut self) -> Option<u64> {
        // tells proofs that what is to come ascends
        let _outdegree = self.outdegree();
        Successors::next(self)
    }
}

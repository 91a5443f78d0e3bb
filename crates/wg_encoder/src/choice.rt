ghost use Rattle.std.specs.Prelude.{ℕ, ◌+◌, List};
ghost use Rattle.wg_params.specs.Parameters.{Parameters};
ghost use Rattle.wg_grammar.specs.Context.{Context};
ghost use Rattle.wg_encoder.specs.Cost.{IsFewer};
ghost use Rattle.wg_encoder.specs.Encoding.{offer_of, IsBest};

/// A reference, and how many bits the record takes by it.
#[derive(Clone, Copy)]
pub(crate) struct Choice {
    pub reference: u64,
    pub bits: u64,
}

impl Choice {
    /// This choice, or the reference that comes next if that one is offered with fewer bits; an offer of more is not
    /// asked for.
    #[inline(always)]
    pub(crate) fn or(self, reference: u64, offered: Option<u64>) -> Choice
        ensures { (p : Parameters) (c : Context) (list : List ℕ) → IsBest p c list reference self
            → IsFewer self.bits (offer_of p c list reference) offered → IsBest p c list (reference + 1) result }
    {
        match offered {
            Some(bits) => {
                if bits < self.bits {
                    Choice { reference, bits }
                } else {
                    self
                }
            }
            None => self,
        }
    }
}

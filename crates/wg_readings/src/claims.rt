//! What a certificate claims.
ghost use Rattle.std.specs.Prelude.{◌≡◌, ◌⊎◌, IfErr, IfOk, length};
ghost use Rattle.wg_outcomes.specs.Answers.{Steps};
ghost use Rattle.wg_outcomes.specs.Judged.{with_claim};
ghost use Rattle.wg_readings.specs.Loading.{IsBadCertificate};

use std::alloc::Global;
use wg_outcomes::{Ending, Status};
use wg_rank::{CertError, Certificate, read_certificate};

/// What a certificate's text claims of so many pages.
pub fn claim_of_text(alloc: Global, bytes: &[u8], nodes: u64) -> Result<Certificate, Ending>
    ensures steps { Steps (with_claim nodes bytes.now) result }
    ensures only { IfErr result (λ e. (e.status ≡ Status.Memory) ⊎ IsBadCertificate e) }
    ensures pages { IfOk result (λ c. length c.low ≡ nodes) }
{
    match read_certificate(alloc, bytes, nodes) {
        Ok(certificate) => Ok(certificate),
        Err(CertError::Fault(fault)) => Err(Ending::of(Status::BadCertificate(fault))),
        Err(CertError::Memory) => Err(Ending::of(Status::Memory)),
    }
}

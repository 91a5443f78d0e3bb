// A certificate from its text.

ghost use Rattle.std.specs.Prelude.{◌≡◌, ℕ, ◌+◌, ◌<◌, ◌≤◌, All, Ok, Err, IfOk, IfErr, OnOk, MatchOption, [], ◌∷◌, ◌++◌, length, drop, vec_len};
ghost use Rattle.wg_params.specs.declared.limits.TheConstants.{MOST_PAGES, MOST_DAMPING};
ghost use Rattle.wg_num.specs.Lines.{lines_of};
ghost use Rattle.wg_rank.specs.CertificateLines.{StandsFor};
ghost use Rattle.wg_rank.specs.CertificateText.{number_after, before, damping_of, pages_of, bounds_of, claim_of, IsRead, AreRead};
ghost use Rattle.wg_rank.specs.declared.limits.TheConstants.{UNITS};

use crate::{CertError, CertFault, CertKind, Certificate};
use std::alloc::{AllocError, Global};
use wg_num::{first_line, read_decimal, read_units};
use wg_params::{MOST_DAMPING, MOST_PAGES};

// The first line and what comes after it, if there is one.
fn next_line(rest: &[u8]) -> Option<(&[u8], &[u8])>
    ensures { MatchOption result (lines_of rest.now ≡ []) (λ x. lines_of rest.now ≡ x.0.now ∷ lines_of x.1.now) }
{
    if rest.is_empty() {
        return None;
    }
    Some(first_line(rest))
}

// The number after a word, if a line is both and nothing else.
fn number_after(word: &[u8], line: &[u8]) -> Option<u64>
    ensures { result ≡ number_after word.now line.now }
{
    if !line.starts_with(word) {
        return None;
    }
    read_decimal(&line[word.len()..])
}

// The damping in the first line, and what comes after it.
fn read_damping(bytes: &[u8]) -> Result<(u64, &[u8]), CertFault>
    ensures ok { IfOk result (λ x. damping_of (lines_of bytes.now) ≡ Ok x.0) }
    ensures damped { IfOk result (λ x. x.0 ≤ MOST_DAMPING) }
    ensures rest { IfOk result (λ x. drop 1 (lines_of bytes.now) ≡ lines_of x.1.now) }
    ensures err { IfErr result (λ e. damping_of (lines_of bytes.now) ≡ Err e) }
{
    let (line, rest) = match next_line(bytes) {
        Some(x) => x,
        None => {
            return Err(CertFault::Line {
                line: 1,
                kind: CertKind::Missing,
            });
        }
    };
    match number_after(b"damping ", line) {
        Some(damping) if damping <= MOST_DAMPING => Ok((damping, rest)),
        _ => Err(CertFault::Line {
            line: 1,
            kind: CertKind::Shape,
        }),
    }
}

// What comes after the line of `n` pages.
fn read_pages(bytes: &[u8], n: u64) -> Result<&[u8], CertFault>
    ensures ok { IfOk result (λ _. pages_of n (lines_of bytes.now) ≡ Ok tt) }
    ensures rest { IfOk result (λ x. drop 1 (lines_of bytes.now) ≡ lines_of x.now) }
    ensures err { IfErr result (λ e. pages_of n (lines_of bytes.now) ≡ Err e) }
{
    let (line, rest) = match next_line(bytes) {
        Some(x) => x,
        None => {
            return Err(CertFault::Line {
                line: 2,
                kind: CertKind::Missing,
            });
        }
    };
    match number_after(b"pages ", line) {
        None => Err(CertFault::Line {
            line: 2,
            kind: CertKind::Shape,
        }),
        Some(pages) => {
            if pages == n {
                Ok(rest)
            } else {
                Err(CertFault::Line {
                    line: 2,
                    kind: CertKind::Pages,
                })
            }
        }
    }
}

// The bound in the first line, which has this number, and what comes after it.
fn read_bound(bytes: &[u8], line: u64) -> Result<(u128, &[u8]), CertFault>
    ensures ok { IfOk result (λ x. (n : ℕ)
        → bounds_of line (n + 1) (lines_of bytes.now) ≡ before x.0 (bounds_of (line + 1) n (lines_of x.1.now))) }
    ensures within { IfOk result (λ x. x.0 ≤ UNITS) }
    ensures err { IfErr result (λ e. (n : ℕ) → bounds_of line (n + 1) (lines_of bytes.now) ≡ Err e) }
{
    match next_line(bytes) {
        None => Err(CertFault::Line {
            line,
            kind: CertKind::Missing,
        }),
        Some((text, rest)) => match read_units(text) {
            Some(units) => Ok((units, rest)),
            None => Err(CertFault::Line {
                line,
                kind: CertKind::Shape,
            }),
        },
    }
}

fn keep(low: &mut Vec<u128>, units: u128) -> Result<(), AllocError>
    ensures { OnOk result (low.new.items ≡ low.old.items ++ units ∷ []) }
{
    low.push(units)?;
    Ok(())
}

// The bounds of `n` pages, from the third line on. There is room for those of MOST_PAGES pages at most.
fn read_bounds(alloc: Global, bytes: &[u8], n: u64) -> Result<Vec<u128>, CertError>
    ensures read { AreRead (bounds_of 3 n (lines_of bytes.now)) result }
    ensures count { IfOk result (λ low. vec_len low ≡ n) }
    ensures few { IfOk result (λ low. vec_len low ≤ MOST_PAGES) }
    ensures within { IfOk result (λ low. All (λ x. x ≤ UNITS) low.items) }
{
    let mut low = Vec::new(alloc);
    let mut rest = bytes;
    for i in 0..n {
        let (units, after) = read_bound(rest, 3 + i)?;
        if i >= MOST_PAGES {
            return Err(CertError::Memory);
        }
        keep(&mut low, units)?;
        rest = after;
    }
    match next_line(rest) {
        None => Ok(low),
        Some(_) => Err(CertError::Fault(CertFault::Line {
            line: 3 + n,
            kind: CertKind::Extra,
        })),
    }
}

/// Reads a certificate of `n` pages, or names its first fault. It takes 16 bytes for each bound as the lines come, and
/// one pass over the text. A certificate holds at most 2^36 - 1 bounds; a text with more of them is answered as if
/// there were no memory for the next.
pub fn read_certificate(alloc: Global, bytes: &[u8], n: u64) -> Result<Certificate, CertError>
    ensures read { IsRead (claim_of n bytes.now) result }
    ensures stands { StandsFor n bytes.now result }
    ensures pages { IfOk result (λ c. length c.low ≡ n) }
{
    let (damping, rest) = read_damping(bytes)?;
    let rest = read_pages(rest, n)?;
    let low = read_bounds(alloc, rest, n)?;
    match Certificate::new(damping, low) {
        Some(certificate) => Ok(certificate),
        None => Err(CertError::Fault(CertFault::Sum)),
    }
}

//! The value of one field, and the page that it means.
ghost use Rattle.std.specs.Prelude.{◌+◌, ◌^◌, ◌<◌, ◌≤◌, Bool, List, None, Some, IfOk};
ghost use Rattle.std.specs.Option.{ForSome};
ghost use Rattle.wg_params.specs.Codes.{IsCode};
ghost use Rattle.wg_params.specs.declared.limits.TheConstants.{MOST_PAGES};
ghost use Rattle.wg_codes.specs.Fold.{number_of_gap};
ghost use Rattle.wg_grammar.specs.Errors.{OnFault, OnRefusal, WantsNoMemory};
ghost use Rattle.wg_decoder.specs.Stages.Leading.{IsWordAt, IsNoWordAt, IsNumberAt, IsNoNumberAt};

use wg_codes::{Read, unfold_from};
use wg_grammar::{Fault, Field, Kind, ReadError, Source};
use wg_params::Code;

// The value of the word that comes next. The usual code is asked for first, so that its words need not be told from
// those of five.
#[inline(always)]
pub fn usual_value<S: Source>(
    usual: Code,
    page: u64,
    field: Field,
    code: Code,
    source: &mut S,
) -> Result<u64, ReadError<Fault, S::Refusal>>
    requires { IsCode code }
    ensures later { S.later source.old source.new }
    ensures no_memory { WantsNoMemory result }
    ensures refused { OnRefusal result (S.caused source.old source.new) }
    ensures ok { (bits : List Bool) → S.reads_from source.old bits
        → IfOk result (λ v. IsWordAt code bits (S.offset source.old) v (S.offset source.new)) }
    ensures fault { (bits : List Bool) → S.reads_from source.old bits
        → OnFault result (λ e. IsNoWordAt field code bits (S.offset source.old) page e) }
{
    let at = source.at();
    let word = if code == usual {
        source.read(usual)
    } else {
        source.read(code)
    };
    let read = match word {
        Ok(read) => read,
        Err(refusal) => return Err(ReadError::Refused(refusal)),
    };
    match read {
        Read::Value(value) => Ok(value),
        Read::Cut => Err(ReadError::Fault(Fault {
            page,
            at,
            field,
            kind: Kind::Cut,
        })),
        Read::NoWord => Err(ReadError::Fault(Fault {
            page,
            at,
            field,
            kind: Kind::NoWord,
        })),
    }
}

// The value of the word that comes next.
#[inline(always)]
pub fn value<S: Source>(
    page: u64,
    field: Field,
    code: Code,
    source: &mut S,
) -> Result<u64, ReadError<Fault, S::Refusal>>
    requires { IsCode code }
    ensures later { S.later source.old source.new }
    ensures no_memory { WantsNoMemory result }
    ensures refused { OnRefusal result (S.caused source.old source.new) }
    ensures ok { (bits : List Bool) → S.reads_from source.old bits
        → IfOk result (λ v. IsWordAt code bits (S.offset source.old) v (S.offset source.new)) }
    ensures fault { (bits : List Bool) → S.reads_from source.old bits
        → OnFault result (λ e. IsNoWordAt field code bits (S.offset source.old) page e) }
{
    usual_value(code, page, field, code, source)
}

/// The page that the word that comes next means: by its distance from `page`, if nothing comes before it; else by
/// its distance from `before`, less 1.
#[inline(always)]
pub fn number<S: Source>(
    nodes: u64,
    page: u64,
    before: Option<u64>,
    field: Field,
    code: Code,
    source: &mut S,
) -> Result<u64, ReadError<Fault, S::Refusal>>
    requires page { page ≤ MOST_PAGES }
    requires code { IsCode code }
    requires before { ForSome before (λ b. b < 2 ^ 63) }
    ensures later { S.later source.old source.new }
    ensures refused { OnRefusal result (S.caused source.old source.new) }
    ensures below { IfOk result (λ y. y < nodes) }
    ensures above { IfOk result (λ y. ForSome before (λ b. b < y)) }
    ensures ok { (bits : List Bool) → S.reads_from source.old bits
        → IfOk result (λ y. IsNumberAt code (number_of_gap page before) bits (S.offset source.old) y
        (S.offset source.new)) }
    ensures fault { (bits : List Bool) → S.reads_from source.old bits
        → OnFault result (λ e. IsNoNumberAt field code (number_of_gap page before) nodes bits (S.offset source.old)
        page e) }
{
    match before {
        None => first_number(nodes, page, field, code, source),
        Some(before) => later_number(nodes, page, field, code, before, source),
    }
}

/// The page that the word that comes next means by its distance from `page`.
#[inline(always)]
pub fn first_number<S: Source>(
    nodes: u64,
    page: u64,
    field: Field,
    code: Code,
    source: &mut S,
) -> Result<u64, ReadError<Fault, S::Refusal>>
    requires page { page ≤ MOST_PAGES }
    requires code { IsCode code }
    ensures later { S.later source.old source.new }
    ensures refused { OnRefusal result (S.caused source.old source.new) }
    ensures below { IfOk result (λ y. y < nodes) }
    ensures ok { (bits : List Bool) → S.reads_from source.old bits
        → IfOk result (λ y. IsNumberAt code (number_of_gap page None) bits (S.offset source.old) y
        (S.offset source.new)) }
    ensures fault { (bits : List Bool) → S.reads_from source.old bits
        → OnFault result (λ e. IsNoNumberAt field code (number_of_gap page None) nodes bits (S.offset source.old) page
        e) }
{
    let at = source.at();
    let value = value(page, field, code, source)?;
    let refused = Fault {
        page,
        at,
        field,
        kind: Kind::Range,
    };
    match unfold_from(page, value) {
        Some(number) if number < nodes => Ok(number),
        _ => Err(ReadError::Fault(refused)),
    }
}

/// The page that the word that comes next means by its distance from `before`, less 1.
#[inline(always)]
pub fn later_number<S: Source>(
    nodes: u64,
    page: u64,
    field: Field,
    code: Code,
    before: u64,
    source: &mut S,
) -> Result<u64, ReadError<Fault, S::Refusal>>
    requires code { IsCode code }
    requires before { before < 2 ^ 63 }
    ensures later { S.later source.old source.new }
    ensures refused { OnRefusal result (S.caused source.old source.new) }
    ensures below { IfOk result (λ y. y < nodes) }
    ensures above { IfOk result (λ y. before < y) }
    ensures ok { (bits : List Bool) → S.reads_from source.old bits
        → IfOk result (λ y. IsNumberAt code (number_of_gap page (Some before)) bits (S.offset source.old) y
        (S.offset source.new)) }
    ensures fault { (bits : List Bool) → S.reads_from source.old bits
        → OnFault result (λ e. IsNoNumberAt field code (number_of_gap page (Some before)) nodes bits
        (S.offset source.old) page e) }
{
    let least = before + 1;
    let at = source.at();
    let value = value(page, field, code, source)?;
    if value >= nodes.saturating_sub(least) {
        return Err(ReadError::Fault(Fault {
            page,
            at,
            field,
            kind: Kind::Range,
        }));
    }
    Ok(least + value)
}

ghost use Rattle.std.specs.Prelude.{◌≡◌, Some, None, IfOk, option_and_then, option_map};
ghost use Rattle.clap.specs.Words.{subcommand_rows_of, rows_of, found_of};
ghost use Rattle.wg_words.specs.Asked.{IsAsked, more_on};
ghost use Rattle.wg_words.specs.Jobs.{IsWithin, job_of, job_from};
ghost use Rattle.wg_words.specs.Jobs.{quotient_in, conversion_in, recoding, union_in, transposing, bulk_in};
ghost use Rattle.wg_words.specs.Jobs.{job_on_base, job_on, show_on, spot_on, rank_from, rank_on};
ghost use Rattle.wg_words.specs.Jobs.{verify_on, build_on, import_on};

use crate::commands::command;
use crate::conversion::{copied, pair_at, two_names};
use crate::defaults::{DEFAULT_DAMPING, DEFAULT_ROUNDS, DEFAULT_TOP};
use crate::files::{is_file_of, overwrites};
use crate::options::layout_at;
use crate::values::{name_at, number_at, numbers_at, optional_name_at, required_at, unlimited_at};
use crate::{Job, JobError, Name, Origin, RankJob, VerifyJob, Words, WriteJob};
use clap::ArgMatches;
use clap::error::ErrorKind;
use std::alloc::{AllocError, Global};
use wg_params::{MOST_DAMPING, MOST_GENERATED, MOST_PAGES, MOST_ROUNDS};

/// The job of the words. It takes memory for `clap`'s tables and for the names of the job.
pub fn job(alloc: Global, words: &Words) -> Result<Job, JobError>
    ensures job { IfOk result (λ job. job_of words.now ≡ Some job) }
    ensures within { IfOk result (λ job. IsWithin job) }
    ensures usage { result ≡ Err JobError.Usage → job_of words.now ≡ None }
{
    match command(alloc)?.try_get_matches_from(words.as_slice()) {
        Ok(matches) => job_in(alloc, &matches),
        Err(error) => match error.kind() {
            ErrorKind::OutOfMemory => Err(JobError::Memory),
            _ => Err(JobError::Usage),
        },
    }
}

// The job of the subcommand that was matched.
fn job_in(alloc: Global, matches: &ArgMatches<'_>) -> Result<Job, JobError>
    ensures { IsAsked (option_and_then job_from (subcommand_rows_of matches.now)) result }
{
    match matches.subcommand() {
        Some((command, found)) => job_from(alloc, command, found),
        None => Err(JobError::Usage),
    }
}

// The job of one subcommand.
fn job_from(alloc: Global, command: &str, found: &ArgMatches<'_>) -> Result<Job, JobError>
    ensures { IsAsked (job_from (command.now, rows_of (found_of found.now))) result }
{
    match command {
        "quotient" => quotient_in(alloc, found),
        "recode" => recode_in(alloc, found),
        "union" => union_in(alloc, found),
        "transpose" => transpose_in(alloc, found),
        "bulk" => bulk_in(found),
        _ => job_on_base(alloc, command, found),
    }
}

// The quotient of an archive by a map that is none of the files that are written.
fn quotient_in(alloc: Global, found: &ArgMatches<'_>) -> Result<Job, JobError>
    ensures { IsAsked (quotient_in (rows_of (found_of found.now))) result }
{
    let Some(pair) = pair_at(found) else {
        return Err(JobError::Usage);
    };
    let Some(map) = name_at(found, "map") else {
        return Err(JobError::Usage);
    };
    if is_file_of(pair.output, map) {
        return Err(JobError::Usage);
    }
    let Some(classes) = required_at(found, "classes", MOST_PAGES) else {
        return Err(JobError::Usage);
    };
    let map = Name::new(alloc, map)?;
    let conversion = copied(alloc, pair)?;
    Ok(Job::Write(WriteJob {
        output: conversion.output,
        layout: conversion.layout,
        origin: Origin::Quotient {
            input: conversion.input,
            map,
            classes,
        },
    }))
}

fn recode_in(alloc: Global, found: &ArgMatches<'_>) -> Result<Job, JobError>
    ensures { IsAsked (option_map recoding (conversion_in (rows_of (found_of found.now)))) result }
{
    let Some(pair) = pair_at(found) else {
        return Err(JobError::Usage);
    };
    let conversion = copied(alloc, pair)?;
    Ok(Job::Write(WriteJob {
        output: conversion.output,
        layout: conversion.layout,
        origin: Origin::Recode {
            input: conversion.input,
        },
    }))
}

// The union of two archives, unless the second has the name of what is written.
fn union_in(alloc: Global, found: &ArgMatches<'_>) -> Result<Job, JobError>
    ensures { IsAsked (union_in (rows_of (found_of found.now))) result }
{
    let Some(pair) = pair_at(found) else {
        return Err(JobError::Usage);
    };
    let Some(second) = name_at(found, "second") else {
        return Err(JobError::Usage);
    };
    if second == pair.output {
        return Err(JobError::Usage);
    }
    let second = Name::new(alloc, second)?;
    let conversion = copied(alloc, pair)?;
    Ok(Job::Write(WriteJob {
        output: conversion.output,
        layout: conversion.layout,
        origin: Origin::Union {
            first: conversion.input,
            second,
        },
    }))
}

fn transpose_in(alloc: Global, found: &ArgMatches<'_>) -> Result<Job, JobError>
    ensures { IsAsked (option_map transposing (conversion_in (rows_of (found_of found.now)))) result }
{
    let Some(pair) = pair_at(found) else {
        return Err(JobError::Usage);
    };
    let conversion = copied(alloc, pair)?;
    Ok(Job::Write(WriteJob {
        output: conversion.output,
        layout: conversion.layout,
        origin: Origin::Transpose {
            input: conversion.input,
        },
    }))
}

// What an archive of a generated graph comes to, with the seed and the pages that the words give.
fn bulk_in(found: &ArgMatches<'_>) -> Result<Job, JobError>
    ensures { IsAsked (bulk_in (rows_of (found_of found.now))) result }
{
    let Some(seed) = unlimited_at(found, "seed") else {
        return Err(JobError::Usage);
    };
    let Some(pages) = required_at(found, "pages", MOST_GENERATED) else {
        return Err(JobError::Usage);
    };
    Ok(Job::Bulk { seed, pages })
}

// The job of a command on one archive, which the words name.
fn job_on_base(alloc: Global, command: &str, found: &ArgMatches<'_>) -> Result<Job, JobError>
    ensures { IsAsked (job_on_base command.now (rows_of (found_of found.now))) result }
{
    match name_at(found, "base") {
        Some(base) => job_on(alloc, command, found, base),
        None => Err(JobError::Usage),
    }
}

// The job of a command on one archive.
fn job_on(alloc: Global, command: &str, found: &ArgMatches<'_>, base: &str) -> Result<Job, JobError>
    ensures { IsAsked (job_on command.now (rows_of (found_of found.now)) base.now) result }
{
    match command {
        "check" => Ok(Job::Check {
            base: Name::new(alloc, base)?,
        }),
        "arcs" => Ok(Job::Arcs {
            base: Name::new(alloc, base)?,
        }),
        "ascii" => Ok(Job::Ascii {
            base: Name::new(alloc, base)?,
        }),
        "offsets" => Ok(Job::Offsets {
            base: Name::new(alloc, base)?,
        }),
        _ => more_on(alloc, command, found, base),
    }
}

// The job of a command that takes more than the archive.
fn more_on(
    alloc: Global,
    command: &str,
    found: &ArgMatches<'_>,
    base: &str,
) -> Result<Job, JobError>
    ensures { IsAsked (more_on command.now (rows_of (found_of found.now)) base.now) result }
{
    match command {
        "show" => show_on(alloc, found, base),
        "spot" => spot_on(alloc, found, base),
        "rank" => rank_on(alloc, found, base),
        "verify" => verify_on(alloc, found, base),
        "build" => build_on(alloc, found, base),
        "import" => import_on(alloc, found, base),
        _ => Err(JobError::Usage),
    }
}

// The successors of the pages that the words name.
fn show_on(alloc: Global, found: &ArgMatches<'_>, base: &str) -> Result<Job, JobError>
    ensures { IsAsked (show_on (rows_of (found_of found.now)) base.now) result }
{
    let Some(pages) = numbers_at(alloc, found, "page")? else {
        return Err(JobError::Usage);
    };
    Ok(Job::Show {
        base: Name::new(alloc, base)?,
        pages,
    })
}

// The successors of the page that the words name, of an archive that is not checked.
fn spot_on(alloc: Global, found: &ArgMatches<'_>, base: &str) -> Result<Job, JobError>
    ensures { IsAsked (spot_on (rows_of (found_of found.now)) base.now) result }
{
    let Some(page) = unlimited_at(found, "page") else {
        return Err(JobError::Usage);
    };
    Ok(Job::Spot {
        base: Name::new(alloc, base)?,
        page,
    })
}

// The ranking of an archive, with weights and a certificate if the options name them: the certificate is none of the
// files that are read.
fn rank_on(alloc: Global, found: &ArgMatches<'_>, base: &str) -> Result<Job, JobError>
    ensures { IsAsked (rank_on (rows_of (found_of found.now)) base.now) result }
{
    let Some(weights) = optional_name_at(found, "weights") else {
        return Err(JobError::Usage);
    };
    let Some(certificate) = optional_name_at(found, "certificate") else {
        return Err(JobError::Usage);
    };
    if overwrites(base, weights, certificate) {
        return Err(JobError::Usage);
    }
    rank_from(alloc, found, base, weights, certificate)
}

// The ranking of an archive, with the numbers that the options give.
fn rank_from(
    alloc: Global,
    found: &ArgMatches<'_>,
    base: &str,
    weights: Option<&str>,
    certificate: Option<&str>,
) -> Result<Job, JobError>
    ensures { IsAsked (rank_from (rows_of (found_of found.now)) base.now
        (option_map (λ s. s.now) weights.entry) (option_map (λ s. s.now) certificate.entry)) result }
{
    let Some(rounds) = number_at(found, "rounds", DEFAULT_ROUNDS, MOST_ROUNDS) else {
        return Err(JobError::Usage);
    };
    let Some(damping) = number_at(found, "damping", DEFAULT_DAMPING, MOST_DAMPING) else {
        return Err(JobError::Usage);
    };
    let Some(top) = number_at(found, "top", DEFAULT_TOP, MOST_PAGES) else {
        return Err(JobError::Usage);
    };
    let base = Name::new(alloc, base)?;
    let weights = optional(alloc, weights)?;
    Ok(Job::Rank(RankJob {
        base,
        rounds,
        damping,
        top,
        weights,
        certificate: optional(alloc, certificate)?,
    }))
}

// A copy of the name, if one is given.
fn optional(alloc: Global, name: Option<&str>) -> Result<Option<Name>, AllocError>
    ensures { IfOk result (λ copy. copy ≡ option_map (λ s. s.now) name.entry) }
{
    match name {
        None => Ok(None),
        Some(name) => Ok(Some(Name::new(alloc, name)?)),
    }
}

// The verification of a certificate against an archive, with weights if the option names them.
fn verify_on(alloc: Global, found: &ArgMatches<'_>, base: &str) -> Result<Job, JobError>
    ensures { IsAsked (verify_on (rows_of (found_of found.now)) base.now) result }
{
    let Some(certificate) = name_at(found, "certificate") else {
        return Err(JobError::Usage);
    };
    let Some(weights) = optional_name_at(found, "weights") else {
        return Err(JobError::Usage);
    };
    let (base, certificate) = two_names(alloc, base, certificate)?;
    Ok(Job::Verify(VerifyJob {
        base,
        certificate,
        weights: optional(alloc, weights)?,
    }))
}

// The building of an archive from an arc list that is none of its files, with the pages and the layout that the options
// give.
fn build_on(alloc: Global, found: &ArgMatches<'_>, base: &str) -> Result<Job, JobError>
    ensures { IsAsked (build_on (rows_of (found_of found.now)) base.now) result }
{
    let Some(arcs) = name_at(found, "arcs") else {
        return Err(JobError::Usage);
    };
    if is_file_of(base, arcs) {
        return Err(JobError::Usage);
    }
    let Some(nodes) = required_at(found, "nodes", MOST_PAGES) else {
        return Err(JobError::Usage);
    };
    let Some(layout) = layout_at(found) else {
        return Err(JobError::Usage);
    };
    let (arcs, output) = two_names(alloc, arcs, base)?;
    Ok(Job::Write(WriteJob {
        output,
        layout,
        origin: Origin::Build { arcs, nodes },
    }))
}

// The building of an archive from an ASCIIGraph text that is none of its files, with the layout that the options give.
fn import_on(alloc: Global, found: &ArgMatches<'_>, base: &str) -> Result<Job, JobError>
    ensures { IsAsked (import_on (rows_of (found_of found.now)) base.now) result }
{
    let Some(text) = name_at(found, "text") else {
        return Err(JobError::Usage);
    };
    if is_file_of(base, text) {
        return Err(JobError::Usage);
    }
    let Some(layout) = layout_at(found) else {
        return Err(JobError::Usage);
    };
    let (text, output) = two_names(alloc, text, base)?;
    Ok(Job::Write(WriteJob {
        output,
        layout,
        origin: Origin::Import { text },
    }))
}

//! The names of a job's files, in the order in which the definitions list them.
ghost use Rattle.std.specs.Prelude.{◌≡◌};
ghost use Rattle.wg_outcomes.specs.JobFiles.{files_of_origin, input_name, output_name};
ghost use Rattle.wg_outcomes.specs.Names.{archive_files, archive_named, certificate_file, certificate_outputs, list_file, map_file, name_of_input, name_of_output, record_files, second_files, text_file, weights_file};

use crate::Input;
use crate::file_name::FileName;
use wg_outside::{GRAPH, OFFSETS, Output, PROPERTIES};
use wg_words::{Job, Name, Origin};

/// The name of a job's input.
pub(crate) fn input_name(job: &Job, input: Input) -> Option<FileName<'_>>
    ensures { result ≡ input_name job.now input }
{
    match job {
        Job::Check { base } | Job::Show { base, .. } | Job::Spot { base, .. } => {
            archive_file(base, input)
        }
        Job::Arcs { base } | Job::Ascii { base } | Job::Offsets { base } => {
            record_file(base, input)
        }
        Job::Rank(job) => { record_file(&job.base, input).or(weights_file(&job.weights, input)) }
        Job::Verify(job) => record_file(&job.base, input).or(weights_file(&job.weights, input).or(
            certificate_file(&job.certificate, input),
        )),
        Job::Write(job) => origin_file(&job.origin, input),
        Job::Bulk { .. } => None,
    }
}

// The name of one of the files that an archive is made of.
fn origin_file(origin: &Origin, input: Input) -> Option<FileName<'_>>
    ensures { result ≡ name_of_input (files_of_origin origin.now) input }
{
    match origin {
        Origin::Build { arcs, .. } => list_file(arcs, input),
        Origin::Import { text } => text_file(text, input),
        Origin::Quotient {
            input: base,
            map,
            ..
        } => { record_file(base, input).or(map_file(map, input)) }
        Origin::Recode { input: base } | Origin::Transpose { input: base } => {
            record_file(base, input)
        }
        Origin::Union { first, second } => archive_file(first, input).or(second_file(
            second, input,
        )),
    }
}

// The name of one of an archive's files.
fn archive_file(base: &Name, input: Input) -> Option<FileName<'_>>
    ensures { result ≡ name_of_input (archive_files base.now) input }
{
    match input {
        Input::Properties => Some(FileName::with_suffix(base, PROPERTIES)),
        Input::Graph => Some(FileName::with_suffix(base, GRAPH)),
        Input::Offsets => Some(FileName::with_suffix(base, OFFSETS)),
        _ => None,
    }
}

// The name of one of the files of an archive that is read as the second.
fn second_file(base: &Name, input: Input) -> Option<FileName<'_>>
    ensures { result ≡ name_of_input (second_files base.now) input }
{
    match input {
        Input::SecondProperties => Some(FileName::with_suffix(base, PROPERTIES)),
        Input::SecondGraph => Some(FileName::with_suffix(base, GRAPH)),
        Input::SecondOffsets => Some(FileName::with_suffix(base, OFFSETS)),
        _ => None,
    }
}

// The name of one of the files of an archive's records.
fn record_file(base: &Name, input: Input) -> Option<FileName<'_>>
    ensures { result ≡ name_of_input (record_files base.now) input }
{
    match input {
        Input::Properties => Some(FileName::with_suffix(base, PROPERTIES)),
        Input::Graph => Some(FileName::with_suffix(base, GRAPH)),
        _ => None,
    }
}

// The name of the weights, if they are named.
fn weights_file(weights: &Option<Name>, input: Input) -> Option<FileName<'_>>
    ensures { result ≡ name_of_input (weights_file weights.now) input }
{
    match (weights, input) {
        (Some(weights), Input::Weights) => Some(FileName::of(weights)),
        _ => None,
    }
}

fn certificate_file(certificate: &Name, input: Input) -> Option<FileName<'_>>
    ensures { result ≡ name_of_input (certificate_file certificate.now) input }
{
    match input {
        Input::Certificate => Some(FileName::of(certificate)),
        _ => None,
    }
}

fn map_file(map: &Name, input: Input) -> Option<FileName<'_>>
    ensures { result ≡ name_of_input (map_file map.now) input }
{
    match input {
        Input::Map => Some(FileName::of(map)),
        _ => None,
    }
}

fn list_file(arcs: &Name, input: Input) -> Option<FileName<'_>>
    ensures { result ≡ name_of_input (list_file arcs.now) input }
{
    match input {
        Input::ArcList => Some(FileName::of(arcs)),
        _ => None,
    }
}

fn text_file(text: &Name, input: Input) -> Option<FileName<'_>>
    ensures { result ≡ name_of_input (text_file text.now) input }
{
    match input {
        Input::Text => Some(FileName::of(text)),
        _ => None,
    }
}

/// The name of a file that a job writes.
pub(crate) fn output_name(job: &Job, output: Output) -> Option<FileName<'_>>
    ensures { result ≡ output_name job.now output }
{
    match job {
        Job::Check { .. }
        | Job::Arcs { .. }
        | Job::Ascii { .. }
        | Job::Offsets { .. }
        | Job::Show { .. }
        | Job::Spot { .. }
        | Job::Verify(_)
        | Job::Bulk { .. } => None,
        Job::Rank(job) => certificate_to(&job.certificate, output),
        Job::Write(job) => archive_to(&job.output, output),
    }
}

// The name of one of the files of an archive that is written.
fn archive_to(base: &Name, output: Output) -> Option<FileName<'_>>
    ensures { result ≡ archive_named base.now output }
{
    match output {
        Output::Properties => Some(FileName::with_suffix(base, PROPERTIES)),
        Output::Graph => Some(FileName::with_suffix(base, GRAPH)),
        Output::Offsets => Some(FileName::with_suffix(base, OFFSETS)),
        Output::Certificate | Output::Out => None,
    }
}

// The name of the certificate that is written, if one is named.
fn certificate_to(certificate: &Option<Name>, output: Output) -> Option<FileName<'_>>
    ensures { result ≡ name_of_output (certificate_outputs certificate.now) output }
{
    match (certificate, output) {
        (Some(name), Output::Certificate) => Some(FileName::of(name)),
        _ => None,
    }
}

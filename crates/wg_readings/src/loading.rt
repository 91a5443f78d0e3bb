//! Files that are read whole and validated: those of an archive, weights, certificates and maps.
ghost use Rattle.std.specs.Prelude.{◌≡◌, ℕ, List, Option, IsSome, Some};
ghost use Rattle.wg_readings.specs.Loading.{LoadsBy, LoadsCertificateBy, LoadsGraphBy, LoadsParamsBy};
ghost use Rattle.wg_readings.specs.Loading.{LoadsMapBy, LoadsWeightsBy};
ghost use Rattle.wg_outcomes.specs.Names.{file_of, suffix_of};
ghost use Rattle.wg_outcomes.specs.declared.status.Input.{Input};

use crate::archive::{graph_of_records, parameters};
use crate::claims::claim_of_text;
use crate::classes::classes_of_text;
use crate::lines::unread;
use crate::weights::weights_of_text;
use std::alloc::Global;
use wg_graph::{Graph, List as Numbers};
use wg_outcomes::{Ending, Input, suffix};
use wg_outside::{Depot, List8, read_whole};
use wg_params::Params;
use wg_rank::Certificate;
use wg_words::Name;

/// Reads a file of this name whole, which is an input of a job.
pub fn load_file<D: Depot>(
    alloc: Global,
    depot: &mut D,
    name: &str,
    input: Input,
) -> Result<List8, Ending>
    ensures { (names : Input → Option (List ℕ)) → names input ≡ Some name.now
        → LoadsBy ⟦<D as Depot>⟧ names input depot.old depot.new result }
{
    match read_whole(alloc, depot, name) {
        Ok(bytes) => Ok(bytes),
        Err(error) => Err(unread(error, input)),
    }
}

/// Reads one of an archive's files whole.
pub fn load<D: Depot>(
    alloc: Global,
    depot: &mut D,
    base: &Name,
    input: Input,
) -> Result<List8, Ending>
    requires { IsSome (suffix_of input) }
    ensures { LoadsBy ⟦<D as Depot>⟧ (file_of base.now) input depot.old depot.new result }
{
    let Some(suffix) = suffix(input) else {
        unreachable!()
    };
    let name = base.with_suffix(alloc, suffix)?;
    load_file(alloc, depot, name.as_str(), input)
}

/// Reads the parameters of an archive.
pub fn load_params<D: Depot>(alloc: Global, depot: &mut D, base: &Name) -> Result<Params, Ending>
    ensures { LoadsParamsBy ⟦<D as Depot>⟧ base.now depot.old depot.new result }
{
    let text = load(alloc, depot, base, Input::Properties)?;
    parameters(text.as_slice())
}

/// Reads the graph of an archive. Beside the graph it holds the bytes of its file, until it is read.
pub fn load_graph<D: Depot>(
    alloc: Global,
    params: &Params,
    depot: &mut D,
    base: &Name,
) -> Result<Graph, Ending>
    ensures { LoadsGraphBy ⟦<D as Depot>⟧ base.now params.now depot.old depot.new result }
{
    let bytes = load(alloc, depot, base, Input::Graph)?;
    graph_of_records(alloc, params, bytes.as_slice())
}

/// Reads the weights of so many pages, if a file of them is named; without one, each page weighs the same. Beside
/// the weights, 8 bytes each, it holds the bytes of the file, until it is read.
pub fn load_weights<D: Depot>(
    alloc: Global,
    nodes: u64,
    depot: &mut D,
    name: &Option<Name>,
) -> Result<Option<Numbers>, Ending>
    ensures { LoadsWeightsBy ⟦<D as Depot>⟧ name.now nodes depot.old depot.new result }
{
    let Some(name) = name else {
        return Ok(None);
    };
    let bytes = load_file(alloc, depot, name.as_str(), Input::Weights)?;
    let weights = weights_of_text(alloc, bytes.as_slice(), nodes)?;
    Ok(Some(weights))
}

/// Reads what a certificate claims of so many pages. Beside its bounds, 16 bytes each, it holds the bytes of the file,
/// until it is read.
pub fn load_certificate<D: Depot>(
    alloc: Global,
    nodes: u64,
    depot: &mut D,
    name: &Name,
) -> Result<Certificate, Ending>
    ensures { LoadsCertificateBy ⟦<D as Depot>⟧ name.now nodes depot.old depot.new result }
{
    let bytes = load_file(alloc, depot, name.as_str(), Input::Certificate)?;
    claim_of_text(alloc, bytes.as_slice(), nodes)
}

/// Reads the classes of so many pages, each below the limit. Beside the classes, 8 bytes each, it holds the bytes of
/// the file, until it is read.
pub fn load_map<D: Depot>(
    alloc: Global,
    nodes: u64,
    limit: u64,
    depot: &mut D,
    name: &Name,
) -> Result<Numbers, Ending>
    ensures { LoadsMapBy ⟦<D as Depot>⟧ name.now nodes limit depot.old depot.new result }
{
    let bytes = load_file(alloc, depot, name.as_str(), Input::Map)?;
    classes_of_text(alloc, bytes.as_slice(), nodes, limit)
}

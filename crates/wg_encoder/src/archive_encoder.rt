//! The encoding of list after list into memory.
ghost use Rattle.std.specs.Prelude.{◌≡◌, ℕ, ◌+◌, ◌<◌, ◌≤◌, List, [], ◌∷◌, ◌++◌, length, IfOk, Some};
ghost use Rattle.std.specs.FinMap as fin;
ghost use Rattle.wg_outside.specs.Suffixes.{graph_name, offsets_name};
ghost use Rattle.wg_params.specs.Parameters.{Parameters};
ghost use Rattle.wg_properties.specs.Text.{text_of};
ghost use Rattle.wg_graph.specs.Digraph.{arc_count};
ghost use Rattle.wg_greedy.specs.Laws.{IsList};
ghost use Rattle.wg_encoder.specs.ArchiveInMemory.{encoded, HasEncoded};
ghost use Rattle.wg_encoder.specs.declared.error.EncodeError.TheVariants as errors;

use crate::archive::EncodedArchive;
use crate::error::EncodeError;
use crate::list_encoder::ListEncoder;
use crate::summary::Summary;
use std::alloc::{AllocError, Global};
use std::marker::Model;
use wg_graph::Graph;
use wg_io::SteadyDepot;
use wg_outside::{GRAPH, OFFSETS, PROPERTIES};
use wg_params::Params;

// No call moves more bytes than this, which is as many as there may be.
const PIECE: u64 = u64::MAX;

// The name of the archive in memory.
const NAME: &str = "";

/// Encodes lists, one after the other, into an archive in memory. They are the lists of pages 0, 1 and so on, and each
/// is handed in once.
///
/// It holds what an [`Encoder`](crate::Encoder) holds beside the graph, and the bytes of the two files as far as they
/// have come, each with room for at most twice as many. How many arcs the lists have need not be known before: the
/// bytes are those of any number that is no less.
#[derive(Debug)]
pub struct ArchiveEncoder {
    lists: ListEncoder,
    // in memory of its own, since an encoder is moved at each list
    files: Box<SteadyDepot>,
}

impl Drop for ArchiveEncoder {
    fn drop(self) {
        let ArchiveEncoder { lists, files } = self;
    }
}

impl Model for ArchiveEncoder {
    ghost use Rattle.std.specs.Prelude.{ℕ, List};
    ghost use Rattle.wg_encoder.specs.ArchiveInMemory.{EncodedSoFar, so_far, HasEncoded};

    ghost Value = { EncodedSoFar };

    ghost view = { λ e. so_far e.lists e.files.value.files };

    ghost invariant = { λ e. (lists : List (List ℕ)) × HasEncoded (so_far e.lists e.files.value.files) lists };
}

impl ArchiveEncoder {
    /// Before the first list.
    pub fn new(alloc: Global, params: Params) -> Result<ArchiveEncoder, AllocError>
        ensures params { IfOk result (λ e. e.params ≡ params) }
        ensures page { IfOk result (λ e. e.page ≡ 0) }
        ensures arcs { IfOk result (λ e. e.arcs ≡ 0) }
        ensures encoded { IfOk result (λ e. HasEncoded e []) }
    {
        let files = Box::new(alloc, empty_files(alloc)?)?;
        let lists = ListEncoder::new(alloc, params)?;
        Ok(ArchiveEncoder { lists, files })
    }

    /// The page whose list comes next: how many lists were encoded.
    pub fn page(&self) -> u64
        ensures value { result ≡ self.now.page }
        ensures within { result ≤ self.now.params.nodes }
    {
        self.lists.page()
    }

    /// How many numbers the lists have that were encoded.
    pub fn arcs(&self) -> u64
        ensures value { result ≡ self.now.arcs }
        ensures within { result ≤ self.now.params.arcs }
    {
        self.lists.arcs()
    }

    /// Encodes the list that comes next, by the reference that makes its record the shortest.
    #[inline(always)]
    pub fn add(self, list: &[u64]) -> Result<ArchiveEncoder, AllocError>
        requires page { self.page < self.params.nodes }
        requires list { IsList self.params list.now }
        requires arcs { self.arcs + length list.now ≤ self.params.arcs }
        ensures params { IfOk result (λ e. e.params ≡ self.params) }
        ensures page { IfOk result (λ e. e.page ≡ self.page + 1) }
        ensures arcs { IfOk result (λ e. e.arcs ≡ self.arcs + length list.now) }
        ensures encoded { (lists : List (List ℕ)) → HasEncoded self lists
            → IfOk result (λ e. HasEncoded e (lists ++ list.now ∷ [])) }
    {
        let ArchiveEncoder { lists, mut files } = self;
        match lists.next(list, &mut *files, NAME) {
            Ok(lists) => Ok(ArchiveEncoder { lists, files }),
            Err(error) => Err(wanting(error)),
        }
    }

    /// The archive of the lists, once those of all pages were encoded, with the properties text of these parameters:
    /// those that it began with, but for the number of arcs, which is the lists'. It takes the memory of the text.
    pub fn finish(self, alloc: Global, params: &Params) -> Result<EncodedArchive, AllocError>
        requires { self.page ≡ self.params.nodes }
        ensures { (lists : List (List ℕ)) → HasEncoded self lists
            → params.now ≡ record self.params { arcs = params.now.arcs }
            → IfOk result (λ a. a ≡ encoded params.now (text_of params.now) lists) }
    {
        let text = wg_properties::write(alloc, params)?;
        self.end(text.as_slice())
    }

    // The archive of the lists, with this properties text.
    fn end(self, properties: &[u8]) -> Result<EncodedArchive, AllocError>
        requires pages { self.page ≡ self.params.nodes }
        ensures { (lists : List (List ℕ)) (p : Parameters) → HasEncoded self lists
            → p ≡ record self.params { arcs = p.arcs } → IfOk result (λ a. a ≡ encoded p properties.now lists) }
    {
        let ArchiveEncoder { lists, files } = self;
        let referring = lists.referring();
        let mut depot = Box::into_inner(files);
        match lists.finish(&mut depot, NAME) {
            Ok(bits) => {
                depot.put_file(PROPERTIES, properties)?;
                let summary = Summary { bits, referring };
                Ok(EncodedArchive { depot, summary })
            }
            Err(error) => Err(wanting(error)),
        }
    }
}

// A depot with an empty graph file and an empty offsets file.
fn empty_files(alloc: Global) -> Result<SteadyDepot, AllocError>
    ensures graph { IfOk result (λ depot. fin.get depot.files (graph_name []) ≡ Some []) }
    ensures offsets { IfOk result (λ depot. fin.get depot.files (offsets_name []) ≡ Some []) }
{
    let mut depot = SteadyDepot::new(alloc, PIECE);
    depot.put_file(GRAPH, b"")?;
    depot.put_file(OFFSETS, b"")?;
    Ok(depot)
}

// Out of memory is the only error if the files are in memory.
fn wanting(error: EncodeError) -> AllocError
    requires { error ≡ errors.Memory }
{
    match error {
        EncodeError::Memory => AllocError,
        EncodeError::Failed(_) => unreachable!(),
    }
}

/// The archive of a graph, in memory, with the properties text of its parameters. Beside the graph it holds what an
/// [`ArchiveEncoder`] holds.
pub fn encode(alloc: Global, params: Params, graph: &Graph) -> Result<EncodedArchive, AllocError>
    requires nodes { params.nodes ≡ graph.now.nodes }
    requires arcs { params.arcs ≡ arc_count graph.now }
    ensures { IfOk result (λ a. a ≡ encoded params (text_of params) graph.now.lists) }
{
    let mut encoder = ArchiveEncoder::new(alloc, params)?;
    while encoder.page() < graph.nodes() {
        let list = graph.list(encoder.page());
        encoder = encoder.add(list)?;
    }
    encoder.finish(alloc, &params)
}

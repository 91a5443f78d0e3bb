//! An archive in memory on its way into its three files. The properties come last: until they are whole, no one takes
//! the files for an archive.
ghost use Rattle.std.specs.Prelude.{◌≡◌, ℕ, List, IsTrue, IfOk};
ghost use Rattle.wg_greedy.specs.Archive.{Archive};
ghost use Rattle.wg_outcomes.specs.Written.{ArchiveFiles, archive_in, emptied};
ghost use Rattle.wg_writing.specs.Writing.{WritesFilesBy, names_of, whole};

use std::alloc::{AllocError, Global};
use wg_encoder::EncodedArchive;
use wg_outcomes::{Ending, create_file, fill_file};
use wg_outside::{Depot, GRAPH, OFFSETS, Output, PROPERTIES};
use wg_words::Name;

/// The names of an archive's files.
#[derive(Drop)]
pub struct FileNames {
    pub properties: Name,
    pub graph: Name,
    pub offsets: Name,
}

// The names of an archive's files, before any of them is touched.
fn names_of(alloc: Global, base: &Name) -> Result<FileNames, AllocError>
    ensures { IfOk result (λ names. names ≡ names_of base.now) }
{
    let properties = base.with_suffix(alloc, PROPERTIES)?;
    let graph = base.with_suffix(alloc, GRAPH)?;
    let offsets = base.with_suffix(alloc, OFFSETS)?;
    Ok(FileNames {
        properties,
        graph,
        offsets,
    })
}

// Leaves the three files empty, the properties first.
fn create_files<D: Depot>(depot: &mut D, names: &FileNames) -> Result<(), Ending>
    ensures { (a : Archive) (base : List ℕ) → names.now ≡ names_of base
        → WritesFilesBy ⟦<D as Depot>⟧ a base (archive_in base (D.files depot.old)) emptied
        depot.old depot.new result }
{
    create_file(depot, &names.properties, Output::Properties)?;
    create_file(depot, &names.graph, Output::Graph)?;
    create_file(depot, &names.offsets, Output::Offsets)
}

// Fills the three files, which are empty, the properties last.
fn fill_files<D: Depot>(
    depot: &mut D,
    names: &FileNames,
    archive: &EncodedArchive,
) -> Result<(), Ending>
    ensures { (base : List ℕ) (first : ArchiveFiles) → names.now ≡ names_of base
        → (IsTrue D.told → archive_in base (D.files depot.old) ≡ emptied)
        → WritesFilesBy ⟦<D as Depot>⟧ archive.now.files base first (whole archive.now.files)
        depot.old depot.new result }
{
    fill_file(depot, &names.graph, archive.graph(), Output::Graph)?;
    fill_file(depot, &names.offsets, archive.offsets(), Output::Offsets)?;
    fill_file(
        depot,
        &names.properties,
        archive.properties(),
        Output::Properties,
    )
}

/// Writes an archive that is held in memory: creates the three files, the properties first, and appends the records,
/// the offsets, and last the properties. It takes the memory of the names, before it touches a file.
pub fn write_archive<D: Depot>(
    alloc: Global,
    archive: &EncodedArchive,
    base: &Name,
    depot: &mut D,
) -> Result<(), Ending>
    ensures { WritesFilesBy ⟦<D as Depot>⟧ archive.now.files base.now (archive_in base.now (D.files depot.old))
        (whole archive.now.files) depot.old depot.new result }
{
    let names = names_of(alloc, base)?;
    create_files(depot, &names)?;
    fill_files(depot, &names, archive)
}

// The names of the two files, held from page to page.
ghost use Rattle.std.specs.Prelude.{◌≡◌, ◌++◌, IfOk, IsTrue, string_bytes};
ghost use Rattle.wg_outside.specs.Suffixes.{graph_name, offsets_name};

use std::alloc::{AllocError, Global};
use std::marker::Model;
use wg_outside::{GRAPH, OFFSETS};

/// The name of an archive, with the names of its graph file and its offsets file.
#[derive(Debug, Drop)]
pub(crate) struct FileNames {
    base: String,
    graph: String,
    offsets: String,
}

impl Model for FileNames {
    ghost use Rattle.std.specs.Prelude.{◌≡◌, List, ℕ, string_bytes};
    ghost use Rattle.wg_outside.specs.Suffixes.{graph_name, offsets_name};

    ghost Value = { List ℕ };

    ghost view = { λ n. string_bytes n.base };

    ghost invariant = { λ n. (string_bytes n.graph ≡ graph_name (string_bytes n.base)) × (string_bytes n.offsets ≡ offsets_name (string_bytes n.base)) };
}

impl FileNames {
    pub(crate) fn of(alloc: Global, base: &str) -> Result<FileNames, AllocError>
        ensures { IfOk result (λ names. names ≡ base.now) }
    {
        Ok(FileNames {
            base: String::from_str(alloc, base)?,
            graph: joined(alloc, base, GRAPH)?,
            offsets: joined(alloc, base, OFFSETS)?,
        })
    }

    /// Whether these are the names of the files of this archive.
    pub(crate) fn are_of(&self, base: &str) -> bool
        ensures { IsTrue result → self.now ≡ base.now }
    {
        self.base.as_str() == base
    }

    pub(crate) fn graph(&self) -> &str
        ensures { result.now ≡ graph_name self.now }
    {
        self.graph.as_str()
    }

    pub(crate) fn offsets(&self) -> &str
        ensures { result.now ≡ offsets_name self.now }
    {
        self.offsets.as_str()
    }
}

fn joined(alloc: Global, base: &str, suffix: &str) -> Result<String, AllocError>
    ensures { IfOk result (λ text. string_bytes text ≡ base.now ++ suffix.now) }
{
    let mut text = String::from_str(alloc, base)?;
    text.push_str(suffix)?;
    Ok(text)
}

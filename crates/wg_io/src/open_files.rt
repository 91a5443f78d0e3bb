// Files of the system that stay open.
ghost use Rattle.std.specs.Prelude.{◌≡◌, ◌+◌, ◌≤◌};

use std::alloc::Global;
use std::fs::File;
use std::marker::Model;

// How many files stay open at most: as many as a command reads in turn, and two more.
const MOST_OPEN: usize = 4;

// An open file, and the name that it was opened by.
#[derive(Debug, Drop)]
struct OpenFile {
    name: String,
    file: File,
}

/// The files that were opened last, at most four, each with a copy of its name.
#[derive(Debug, Drop)]
pub(crate) struct OpenFiles {
    // the one that was opened first stands first
    files: Vec<OpenFile>,
}

// seen as how many they are
impl Model for OpenFiles {
    ghost use Rattle.std.specs.Prelude.{ℕ, ◌≤◌, length};
    ghost use Rattle.wg_io.specs.declared.open_files.TheConstants.{MOST_OPEN};

    ghost Value = { ℕ };

    ghost view = { λ o. length o.files.items };

    ghost invariant = { λ o. length o.files.items ≤ MOST_OPEN };
}

impl OpenFiles {
    pub(crate) fn new(alloc: Global) -> OpenFiles
        ensures { result ≡ 0 }
    {
        OpenFiles {
            files: Vec::new(alloc),
        }
    }

    /// The open file of this name.
    pub(crate) fn get(&mut self, name: &str) -> Option<&mut File> {
        for open in self.files.iter_mut() {
            if open.name.as_str() == name {
                return Some(&mut open.file);
            }
        }
        None
    }

    /// Keeps a file open, in place of the one that was opened first if there are four. If there is no memory for its
    /// name, it is closed.
    pub(crate) fn hold(&mut self, alloc: Global, name: &str, file: File)
        ensures { self.new ≤ self.old + 1 }
    {
        let Ok(name) = String::from_str(alloc, name) else {
            return;
        };
        if self.files.len() == MOST_OPEN {
            self.files.remove(0);
        }
        let _ = self.files.push(OpenFile { name, file });
    }

    /// Closes the file of this name, if it is open.
    pub(crate) fn close(&mut self, name: &str)
        ensures { self.new ≤ self.old }
    {
        self.files.retain(|open| open.name.as_str() != name);
    }
}

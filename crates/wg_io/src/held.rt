// Files in memory.
ghost use Rattle.std.specs.Prelude.{◌≡◌, ◌<◌, length, All, IfOk, IfSome, IfNone, OnOk, OnErr, option_map};
ghost use Rattle.std.specs.FinMap as map;
ghost use Rattle.wg_outside.specs.Outside.{appended};
ghost use Rattle.wg_io.specs.Held.{files_of, IsAt, IsOther};

use std::alloc::{AllocError, Global};
use std::marker::Model;

/// A file by its name.
#[derive(Debug, Drop)]
pub struct Held {
    name: String,
    bytes: Vec<u8>,
}

/// A map from names to bytes. A look-up goes through the names one by one, for a depot has few of them; bytes are added
/// at a file's end in place.
#[derive(Debug, Drop)]
pub struct HeldFiles {
    alloc: Global,
    helds: Vec<Held>,
}

impl Model for HeldFiles {
    ghost use Rattle.wg_outside.specs.Outside.{Files, files_code};
    ghost use Rattle.wg_io.specs.Held.{files_of};

    ghost Value = { Files };

    ghost coded = { files_code };

    ghost view = { λ a. files_of a.helds.items };
}

impl HeldFiles {
    pub fn new(alloc: Global) -> HeldFiles
        ensures { result ≡ map.empty }
    {
        HeldFiles {
            alloc,
            helds: Vec::new(alloc),
        }
    }

    pub fn get(&self, name: &str) -> Option<&[u8]>
        ensures { option_map (λ bytes. bytes.now) result ≡ map.get self.now name.now }
    {
        let index = index_of(self.helds.as_slice(), name)?;
        Some(self.helds[index].bytes.as_slice())
    }

    /// Gives a name these bytes, in place of those that it had.
    pub fn put(&mut self, name: &str, bytes: &[u8]) -> Result<(), AllocError>
        ensures ok { OnOk result (self.new ≡ map.insert self.old name.now bytes.now) }
        ensures err { OnErr result (self.new ≡ self.old) }
    {
        let bytes = copy_of(self.alloc, bytes)?;
        put(self.alloc, &mut self.helds, name, bytes)
    }

    /// Adds bytes at the end of a file, which is begun if it is absent.
    pub fn extend(&mut self, name: &str, piece: &[u8]) -> Result<(), AllocError>
        requires { 0 < length piece.now }
        ensures ok { OnOk result (self.new ≡ appended self.old name.now piece.now) }
        ensures err { OnErr result (self.new ≡ self.old) }
    {
        extend(self.alloc, &mut self.helds, name, piece)
    }
}

// Where the first file of this name stands.
fn index_of(helds: &[Held], name: &str) -> Option<usize>
    ensures found { IfSome result (λ index. IsAt helds.now name.now index) }
    ensures missing { IfNone result (All (IsOther name.now) helds.now) }
{
    for (index, held) in helds.iter().enumerate() {
        if held.name.as_str() == name {
            return Some(index);
        }
    }
    None
}

fn copy_of(alloc: Global, bytes: &[u8]) -> Result<Vec<u8>, AllocError>
    ensures { IfOk result (λ copy. copy.items ≡ bytes.now) }
{
    bytes.to_vec(alloc)
}

fn put(alloc: Global, helds: &mut Vec<Held>, name: &str, bytes: Vec<u8>) -> Result<(), AllocError>
    ensures ok { OnOk result (files_of helds.new.items ≡ map.insert (files_of helds.old.items) name.now bytes.items) }
    ensures err { OnErr result (files_of helds.new.items ≡ files_of helds.old.items) }
{
    match index_of(helds.as_slice(), name) {
        Some(index) => {
            let held = &mut helds[index];
            held.bytes = bytes;
            Ok(())
        }
        None => {
            let name = String::from_str(alloc, name)?;
            helds.push(Held { name, bytes })?;
            Ok(())
        }
    }
}

fn extend(alloc: Global, helds: &mut Vec<Held>, name: &str, piece: &[u8]) -> Result<(), AllocError>
    requires { 0 < length piece.now }
    ensures ok { OnOk result (files_of helds.new.items ≡ appended (files_of helds.old.items) name.now piece.now) }
    ensures err { OnErr result (files_of helds.new.items ≡ files_of helds.old.items) }
{
    match index_of(helds.as_slice(), name) {
        Some(index) => {
            let held = &mut helds[index];
            held.bytes.extend_from_slice(piece)?;
            Ok(())
        }
        None => put(alloc, helds, name, copy_of(alloc, piece)?),
    }
}

ghost use Rattle.std.specs.Prelude.{◌≡◌, [], ◌∷◌, ◌++◌, OnOk, OnErr, IfOk};
ghost use Rattle.std.specs.Str.{bytes_eq};
ghost use Rattle.std.specs.Option.{option_copied};
ghost use Rattle.outer_edge.specs.FileList.{file_named};

use item_lists::{Copies, Items};
use std::alloc::{AllocError, Global};
use std::marker::Model;

/// A file that is kept in memory, seen as the pair of its name and its bytes.
#[derive(Debug, Drop)]
struct StoredFile {
    name: Copies<u8>,
    bytes: Copies<u8>,
}

impl Model for StoredFile {
    ghost use Rattle.std.specs.Prelude.{ℕ, List};

    ghost Value = { List ℕ × List ℕ };

    ghost view = { λ file. (file.name, file.bytes) };
}

impl StoredFile {
    fn new(alloc: Global, name: &str, bytes: &[u8]) -> Result<StoredFile, AllocError>
        ensures { IfOk result (λ file. file ≡ (name.now, bytes.now)) }
    {
        Ok(StoredFile {
            name: Copies::new(alloc, name.as_bytes())?,
            bytes: Copies::new(alloc, bytes)?,
        })
    }

    fn is_named(&self, name: &str) -> bool
        ensures { result ≡ bytes_eq self.now.0 name.now }
    {
        self.name.as_slice() == name.as_bytes()
    }

    fn bytes(&self) -> &[u8]
        ensures { result.now ≡ self.now.1 }
    {
        self.bytes.as_slice()
    }
}

/// Files that are kept in memory, seen as the list of the pairs of their names and bytes.
#[derive(Debug, Drop)]
pub struct FileList {
    alloc: Global,
    files: Items<StoredFile>,
}

impl Model for FileList {
    ghost use Rattle.std.specs.Prelude.{ℕ, List};

    ghost Value = { List (List ℕ × List ℕ) };

    ghost view = { λ list. list.files };
}

impl FileList {
    /// No files. It takes no memory.
    pub fn new(alloc: Global) -> FileList
        ensures { result ≡ [] }
    {
        FileList {
            alloc,
            files: Items::new(alloc),
        }
    }

    /// Adds a file at the end. Of a name that is there already, the first file stays the one that
    /// is read.
    pub fn push(&mut self, name: &str, bytes: &[u8]) -> Result<(), AllocError>
        ensures ok { OnOk result (self.new ≡ self.old ++ (name.now, bytes.now) ∷ []) }
        ensures err { OnErr result (self.new ≡ self.old) }
    {
        let file = StoredFile::new(self.alloc, name, bytes)?;
        self.files.push(file).map_err(|_| AllocError)
    }

    /// The bytes of the first file of that name.
    pub(crate) fn named(&self, name: &str) -> Option<&[u8]>
        ensures { option_copied result ≡ file_named self.now name.now }
    {
        self.files
            .as_slice()
            .iter()
            .find(|file| file.is_named(name))
            .map(|file| file.bytes())
    }
}

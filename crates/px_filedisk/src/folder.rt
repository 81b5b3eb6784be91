// A folder of page files, of which each is opened at its first use.
ghost use Rattle.std.specs.Prelude.{◌↔◌, IsTrue, None};
ghost use Rattle.px_filedisk.specs.Names.{IsPageFile};

use crate::files::Files;
use std::alloc::{AllocError, Global};
use std::collections::BTreeMap;
use std::collections::btree_map::Entry;
use std::fs::{File, OpenOptions};
use std::io::ErrorKind;
use std::os::unix::fs::FileExt;
use std::path::Path;
use std::{fs, io};

/// The page files of a folder, file n under the name `f` followed by n in decimal. No contract says what they hold.
#[derive(Drop)]
pub struct Folder {
    runtime: HostRuntime,
    alloc: Global,
    path: String,
    open: BTreeMap<u32, File>,
}

// Whether a page file may have this name.
fn is_page_file(name: &str) -> bool
    ensures { IsTrue result ↔ IsPageFile name.now }
{
    match name.as_bytes() {
        [b'f', digits @ ..] => !digits.is_empty()
            && digits.iter().all(|byte| byte.is_ascii_digit()),
        _ => false,
    }
}

// Opens a page file without pages.
fn open_empty(runtime: &HostRuntime, alloc: Global, folder: &str, number: u32) -> io::Result<File> {
    let name = format!(in alloc; "f{number}")?;
    let path = Path::new(folder).join(alloc, name.as_str())?;
    OpenOptions::new()
        .read(true)
        .write(true)
        .create(true)
        .truncate(true)
        .open(runtime, path.as_path())
}

impl Folder {
    pub fn new(runtime: HostRuntime, alloc: Global, path: &str) -> Result<Folder, AllocError> {
        let path = String::from_str(alloc, path)?;
        Ok(Folder {
            runtime,
            alloc,
            path,
            open: BTreeMap::new(alloc),
        })
    }

    // A page file. It is emptied at its first use, so that nothing is read that an earlier run left.
    fn file(&mut self, number: u32) -> io::Result<&File> {
        match self.open.entry(number)? {
            Entry::Occupied(entry) => Ok(entry.into_mut()),
            Entry::Vacant(entry) => {
                let file = open_empty(&self.runtime, self.alloc, self.path.as_str(), number)?;
                Ok(entry.insert(file))
            }
        }
    }
}

impl Files for Folder {
    ghost bytes = { λ _ _. None };

    ghost reads_work = { λ _. ⊥ };

    ghost writes_work = { λ _ _. ⊥ };

    ghost failed = { λ _. 0 };

    /// Makes the folder where it is missing, and removes the page files that an earlier run left.
    fn start(&mut self) -> io::Result<()> {
        self.open.clear();
        let path = self.path.as_str();
        fs::create_dir_all(&self.runtime, path)?;
        for entry in fs::read_dir(&self.runtime, path)? {
            match entry {
                Ok(entry) if is_page_file(entry.file_name()) => {
                    fs::remove_file(&self.runtime, entry.path())?;
                }
                Ok(_) => {}
                // A name that is no text is none of ours.
                Err(e) if e.kind() == ErrorKind::InvalidFilename => {}
                Err(e) => return Err(e),
            }
        }
        Ok(())
    }

    fn read_at(&mut self, number: u32, at: u64, into: &mut [u8]) -> io::Result<()> {
        self.file(number)?.read_exact_at(into, at)
    }

    fn write_at(&mut self, number: u32, at: u64, from: &[u8]) -> io::Result<()> {
        self.file(number)?.write_all_at(from, at)
    }

    fn clear(&mut self, number: u32) -> io::Result<()> {
        self.file(number)?.set_len(0)
    }
}

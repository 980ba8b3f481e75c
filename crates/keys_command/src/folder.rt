//! Where the files of parties are put.

use std::fs::{self, OpenOptions};
use std::io::{self, ErrorKind, Write};
use std::os::unix::fs::OpenOptionsExt;
use std::rt::Files;

/// Whom a new file is for: its owner alone, who reads and writes it.
const OWNER_ALONE: u32 = 0o600;

/// A folder that files are put into, each once.
pub trait Folder {
    ghost use Rattle.std.specs.Prelude.{ℕ, List, Option, None, IfOk, OnOk};
    ghost use Rattle.keys_command.specs.Folders.{PutsFile, TellsFile};

    /// The names and texts of its files, in the order in which they were put, if it says them.
    ghost files: { Self → Option (List (List ℕ × List ℕ)) } = { λ _. None };

    /// Whether it has a file of this name.
    fn has(&self, name: &str) -> io::Result<bool>
        ensures { IfOk result (TellsFile (files self.now) name.now) };

    /// Puts a new file of this name and text. One of this name that is there isn't touched: then it gives an error.
    fn put(&mut self, name: &str, text: &[u8]) -> io::Result<()>
        ensures { OnOk result (PutsFile (files self.old) (files self.new) name.now text.now) };
}

/// A folder of the system. Its files are for their owner alone.
#[derive(Drop)]
pub struct FileFolder<'a, R> {
    rt: &'a R,
    path: &'a str,
}

impl<'a, R: Files + AllocGlobal> FileFolder<'a, R> {
    /// The folder at this path, which is made if it isn't there.
    pub fn new(rt: &'a R, path: &'a str) -> io::Result<FileFolder<'a, R>> {
        fs::create_dir_all(rt, path)?;
        Ok(FileFolder { rt, path })
    }
}

impl<R: Files + AllocGlobal> Folder for FileFolder<'_, R> {
    fn has(&self, name: &str) -> io::Result<bool> {
        let path = format!(in self.rt.alloc(); "{}/{name}", self.path)?;
        match fs::symlink_metadata(self.rt, path.as_str()) {
            Ok(_) => Ok(true),
            Err(error) if error.kind() == ErrorKind::NotFound => Ok(false),
            Err(error) => Err(error),
        }
    }

    fn put(&mut self, name: &str, text: &[u8]) -> io::Result<()> {
        let path = format!(in self.rt.alloc(); "{}/{name}", self.path)?;
        let mut how = OpenOptions::new();
        how.write(true).create_new(true).mode(OWNER_ALONE);
        let mut file = how.open(self.rt, path.as_str())?;
        file.write_all(text)?;
        file.flush()
    }
}

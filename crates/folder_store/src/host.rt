//! The files below the current directory, by the system's calls. Each method is one call of std, and adds nothing.
ghost use Rattle.std.specs.Prelude.{◌≡◌};
ghost use Rattle.std.specs.Fs.{metadata_len};

use crate::folder::{Folder, Kind, Standing};
use std::alloc::{AllocGlobal, Global};
use std::fs::{self, File, Files, Metadata, OpenOptions, ReadDir};
use std::io;
use std::os::unix::fs::{FileExt, MetadataExt};

/// The files below the current directory. It tells nothing of them: no contract of the system's calls does.
#[derive(Drop)]
pub struct HostFolder<R> {
    rt: R,
}

impl<R> HostFolder<R> {
    pub fn new(rt: R) -> HostFolder<R> {
        HostFolder { rt }
    }
}

fn standing(found: &Metadata) -> Standing
    ensures { result.len ≡ metadata_len found.now }
{
    let kind = if found.is_file() {
        Kind::File
    } else if found.is_dir() {
        Kind::Folder
    } else if found.is_symlink() {
        Kind::Link
    } else {
        Kind::Other
    };
    Standing {
        kind,
        len: found.len(),
        device: found.dev(),
        inode: found.ino(),
    }
}

impl<R: Files<File = File> + AllocGlobal + Clone + Drop> Folder for HostFolder<R> {
    ghost use Rattle.std.specs.Prelude.{[], None, false};

    type File = File;

    type Part = File;

    type Names = ReadDir<R, Global>;

    ghost disk = { λ _. None };

    ghost moments = { λ _. [] };

    ghost kept = { λ _ _. false };

    ghost ends = { λ _. tt };

    ghost lasts = { λ _. tt };

    ghost bytes = { λ _. tt };

    ghost opened = { λ _. None };

    ghost writes = { λ _. 0 };

    ghost to_come = { λ _. [] };

    fn stat(&mut self, path: &str) -> io::Result<Standing> {
        Ok(standing(&fs::metadata(&self.rt, path)?))
    }

    fn stat_itself(&mut self, path: &str) -> io::Result<Standing> {
        Ok(standing(&fs::symlink_metadata(&self.rt, path)?))
    }

    fn open(&mut self, path: &str) -> io::Result<File> {
        fs::open(&self.rt, path)
    }

    fn stat_file(&mut self, file: &File) -> io::Result<Standing> {
        Ok(standing(&file.metadata()?))
    }

    fn read_at(&mut self, file: &File, at: u64, out: &mut [u8]) -> io::Result<usize> {
        file.read_at(out, at)
    }

    fn make(&mut self, path: &str) -> io::Result<File> {
        OpenOptions::new()
            .write(true)
            .create_new(true)
            .open(&self.rt, path)
    }

    fn make_folders(&mut self, path: &str) -> io::Result<()> {
        fs::create_dir_all(&self.rt, path)
    }

    fn write_at(&mut self, part: &mut File, at: u64, piece: &[u8]) -> io::Result<usize> {
        part.write_at(piece, at)
    }

    fn sync(&mut self, part: &File) -> io::Result<()> {
        part.sync_data()
    }

    fn rename(&mut self, from: &str, to: &str) -> io::Result<()> {
        fs::rename(&self.rt, from, to)
    }

    fn remove(&mut self, path: &str) -> io::Result<()> {
        fs::remove_file(&self.rt, path)
    }

    fn list(&mut self, path: &str) -> io::Result<ReadDir<R, Global>> {
        fs::read_dir(&self.rt, path)
    }

    fn next(&mut self, names: &mut ReadDir<R, Global>) -> io::Result<Option<String>> {
        match names.next() {
            None => Ok(None),
            Some(Err(error)) => Err(error),
            Some(Ok(entry)) => Ok(Some(String::from_str(self.rt.alloc(), entry.path().as_str())?)),
        }
    }
}

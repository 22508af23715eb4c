ghost use Rattle.std.specs.Prelude.{◌≡◌, ◌≤◌, length, IfOk, IfSome};
ghost use Rattle.wd_ports.specs.Faults.{no_faults};
ghost use Rattle.wd_ports.specs.declared.told.Side.TheVariants as side;
ghost use Rattle.workerd.specs.System.{files_told};

use crate::trouble::{Trouble, blame, is_no_file, is_no_folder};
use std::alloc::{AllocGlobal, Global};
use std::fs;
use std::fs::OpenFile;
use std::io::Read;
use std::rt::Files as FileSystem;
use wd_base::{Bytes, Seq};
use wd_ports::{Failed, Faults, FileFaults, FileKind, Files, Name, Names};

#[cfg(test)]
mod tests;

/// The most bytes of a file that is read.
const READ_LIMIT: u64 = 536_870_912;

/// A count without faults.
pub const NO_FAULTS: Faults = Faults {
    files: FileFaults {
        read: 0,
        list: 0,
        write: 0,
    },
    listen: 0,
    lookup: 0,
    connect: 0,
    read_accepted: 0,
    read_connected: 0,
    write_accepted: 0,
    write_connected: 0,
};

/// The files of the system, with the count of their faults. It has no links.
#[derive(Drop)]
pub struct SystemFiles<R> {
    rt: R,
    faults: Faults,
}

impl<R> SystemFiles<R> {
    /// The files that the runtime reaches, with no fault counted.
    pub fn new(rt: R) -> SystemFiles<R>
        ensures { result.faults ≡ no_faults }
    {
        SystemFiles {
            rt,
            faults: NO_FAULTS,
        }
    }
}

impl<R: FileSystem + AllocGlobal + Clone + Drop> Files for SystemFiles<R> {
    ghost told = { λ _. files_told };

    ghost faults = { λ f. f.faults };

    ghost usable = { λ _ _. ⊥ };

    ghost side = { λ _ _. side.Accepted };

    ghost gone = { λ _ _. ⊥ };

    fn read(&mut self, alloc: Global, path: &str) -> Result<Option<Bytes>, Failed> {
        match read_file(&self.rt, alloc, path) {
            Ok(found) => Ok(found),
            Err(trouble) => Err(blame(&mut self.faults.files.read, trouble)),
        }
    }

    fn list(&mut self, alloc: Global, path: &str) -> Result<Option<Names>, Failed> {
        match list_folder(&self.rt, alloc, path) {
            Ok(found) => Ok(found),
            Err(trouble) => Err(blame(&mut self.faults.files.list, trouble)),
        }
    }

    fn write(&mut self, _alloc: Global, path: &str, bytes: &[u8]) -> Result<(), Failed> {
        match fs::write(&self.rt, path, bytes) {
            Ok(()) => Ok(()),
            Err(error) => Err(blame(&mut self.faults.files.write, Trouble::from(error))),
        }
    }
}

/// The bytes of the file of a path, at most 536,870,912, and None where no file has it. A longer
/// file is trouble.
pub fn read_file<R: FileSystem>(rt: &R, alloc: Global, path: &str) -> Result<Option<Bytes>, Trouble>
    ensures room { IfOk result (λ found. IfSome found (λ bytes. length bytes ≤ 536870912)) }
{
    let file = match fs::open(rt, path) {
        Ok(file) => file,
        Err(error) if is_no_file(error.kind()) => return Ok(None),
        Err(error) => return Err(Trouble::from(error)),
    };
    if file.metadata()?.len() > READ_LIMIT {
        return Err(Trouble::TooLong);
    }
    let mut bytes = Vec::new(alloc);
    match file.take(READ_LIMIT + 1).read_to_end(&mut bytes) {
        Ok(_) if bytes.len() as u64 <= READ_LIMIT => Ok(Some(Seq::from_vec(bytes))),
        Ok(_) => Err(Trouble::TooLong),
        Err(error) if is_no_file(error.kind()) => Ok(None),
        Err(error) => Err(Trouble::from(error)),
    }
}

/// The files and folders in the folder of a path, links of the file system followed, and None
/// where no folder has it. What is neither is left out.
pub fn list_folder<R: FileSystem + AllocGlobal + Clone + Drop>(
    rt: &R,
    alloc: Global,
    path: &str,
) -> Result<Option<Names>, Trouble> {
    let entries = match fs::read_dir(rt, path) {
        Ok(entries) => entries,
        Err(error) if is_no_folder(error.kind()) => return Ok(None),
        Err(error) => return Err(Trouble::from(error)),
    };
    let mut names = Seq::new(alloc);
    for entry in entries {
        let entry = entry?;
        if let Some(kind) = kind_of(rt, entry.path().as_str())? {
            let text = Seq::copy(alloc, entry.file_name().as_bytes())?;
            names.push(Name { text, kind })?;
        }
    }
    Ok(Some(names))
}

/// What stands at a path, and None where it is neither a file nor a folder, or is no longer there.
fn kind_of(files: &impl FileSystem, path: &str) -> Result<Option<FileKind>, Trouble> {
    match fs::metadata(files, path) {
        Ok(about) if about.is_dir() => Ok(Some(FileKind::Folder)),
        Ok(about) if about.is_file() => Ok(Some(FileKind::File)),
        Ok(_) => Ok(None),
        Err(error) if is_no_file(error.kind()) => Ok(None),
        Err(error) => Err(Trouble::from(error)),
    }
}

//! Stores of files: a name has the new file whole, or what it had before. What a file holds is nowhere told, so
//! no clause says this.

use crate::Failed;
use crate::again::write_whole;
use std::alloc::Global;
use std::fs::{self, File, OpenFile, OpenOptions, Permissions};
use std::io::{self, ErrorKind, Write};
use std::path::PathBuf;
use std::rt::Files;

/// How many names of new files are tried.
const NAMES: u32 = 1000;

/// How many links are followed one after another, as many as the system follows.
const LINKS: u32 = 40;

/// Puts bytes under a name. A new file is written beside the one of that name, with its mode, and renamed
/// over it, so that after a fault the name has what it had. What is no regular file, as a pipe or a device,
/// is written where it is.
pub fn store_file<R: Files>(rt: &R, alloc: Global, name: &str, bytes: &[u8]) -> io::Result<()> {
    match OpenOptions::new().write(true).open(rt, name) {
        Ok(old) => store_over(rt, alloc, name, old, bytes),
        Err(fault) if fault.kind() == ErrorKind::NotFound => {
            match behind_links(rt, alloc, name)? {
                Some(path) => replace(rt, alloc, path.as_str(), None, bytes),
                None => Err(fault),
            }
        }
        Err(fault) => Err(fault),
    }
}

/// The same where the name is that of something which may be written, and which is open.
fn store_over<R: Files>(
    rt: &R,
    alloc: Global,
    name: &str,
    mut old: R::File,
    bytes: &[u8],
) -> io::Result<()> {
    let found = old.metadata()?;
    if !found.is_file() {
        return fill(&mut old, bytes);
    }
    match behind_links(rt, alloc, name)? {
        Some(path) => replace(rt, alloc, path.as_str(), Some(found.permissions()), bytes),
        None => {
            old.set_len(0)?;
            fill(&mut old, bytes)
        }
    }
}

/// The name to which links lead from this one, itself no link. None where one of them stands for an open file
/// of the process, as behind `/dev/stdout`, which has to stay the file that it is.
fn behind_links<R: Files>(rt: &R, alloc: Global, name: &str) -> io::Result<Option<String>> {
    let mut path = String::from_str(alloc, name)?;
    for _ in 0..LINKS {
        if !is_link(rt, path.as_str())? {
            return Ok(Some(path));
        }
        if leads_to_open_file(path.as_str()) {
            return Ok(None);
        }
        path = behind_link(rt, alloc, path.as_str())?;
    }
    Err(io::Error::from(ErrorKind::FilesystemLoop))
}

/// Whether a link of this name stands for an open file of the process.
fn leads_to_open_file(link: &str) -> bool {
    link.starts_with("/proc/") || link.starts_with("/dev/fd/")
}

/// Whether the name is that of a link, which may lead nowhere.
fn is_link<R: Files>(rt: &R, name: &str) -> io::Result<bool> {
    match fs::symlink_metadata(rt, name) {
        Ok(found) => Ok(found.is_symlink()),
        Err(fault) if fault.kind() == ErrorKind::NotFound => Ok(false),
        Err(fault) => Err(fault),
    }
}

/// The name to which a link leads, from the folder in which the link stands.
fn behind_link<R: Files>(rt: &R, alloc: Global, link: &str) -> io::Result<String> {
    let mut path = PathBuf::from_str(alloc, link)?;
    path.pop();
    path.push(rt.read_link(alloc, link)?)?;
    Ok(path.into_string())
}

/// Puts a new file with these bytes under a name that is no link. Where that fails, it is taken away again.
fn replace<R: Files>(
    rt: &R,
    alloc: Global,
    name: &str,
    mode: Option<Permissions>,
    bytes: &[u8],
) -> io::Result<()> {
    let (new_name, new) = make_new(rt, alloc, name)?;
    let replaced = match complete(new, mode, bytes) {
        Ok(()) => fs::rename(rt, new_name.as_str(), name),
        Err(fault) => Err(fault),
    };
    if replaced.is_err() {
        let _ = fs::remove_file(rt, new_name.as_str());
    }
    replaced
}

/// A new file beside the one of this name, and its own name. A file that stands there already, as one that a
/// killed process left, stays.
fn make_new<R: Files>(rt: &R, alloc: Global, name: &str) -> io::Result<(String, R::File)> {
    for number in 0..NAMES {
        let new_name = name_of_new(alloc, name, number)?;
        match File::create_new(rt, new_name.as_str()) {
            Ok(new) => return Ok((new_name, new)),
            Err(fault) if fault.kind() == ErrorKind::AlreadyExists => {}
            Err(fault) => return Err(fault),
        }
    }
    Err(io::Error::from(ErrorKind::AlreadyExists))
}

/// The names that are tried for a new file: NAME.new, NAME.new1, NAME.new2 and so on.
fn name_of_new(alloc: Global, name: &str, number: u32) -> io::Result<String> {
    if number == 0 {
        Ok(format!(in alloc; "{name}.new")?)
    } else {
        Ok(format!(in alloc; "{name}.new{number}")?)
    }
}

/// Gives a new file its mode, before anyone can read bytes in it, and its bytes, until they are on the disk.
fn complete<F: Write + OpenFile + Drop>(
    mut new: F,
    mode: Option<Permissions>,
    bytes: &[u8],
) -> io::Result<()> {
    if let Some(mode) = mode {
        new.set_permissions(mode)?;
    }
    fill(&mut new, bytes)?;
    new.sync_all()
}

/// Writes all of the bytes.
fn fill<F: Write>(file: &mut F, bytes: &[u8]) -> io::Result<()> {
    match write_whole(file, bytes) {
        Ok(()) => Ok(()),
        Err(Failed) => Err(io::Error::from(ErrorKind::Other)),
    }
}

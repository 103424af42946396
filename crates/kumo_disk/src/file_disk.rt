//! A disk that is two files of a folder: a trusted edge, since no contract can say what a file gives or what a crash leaves of it.
ghost use Rattle.std.specs.Prelude.{◌≡◌, ◌≤◌, ◌<◌, ◌+◌, ◌^◌, IfOk, OnOk, length};
ghost use Rattle.kumo_disk.specs.Disk.{untold};

use crate::disk::Disk;
use kumo_base::{Failed, Text};
use std::alloc::Global;
use std::fs::{OpenFile, OpenOptions};
use std::io::{Read, Seek, SeekFrom, Write};
use std::rt::Files;

/// The end of the longest area.
const LAST_END: u64 = (1 << 63) - 1;

/// The two files, each opened at its first use.
#[derive(Drop)]
struct AreaFiles<'a, R: Files> {
    files: &'a R,
    alloc: Global,
    folder: Text,
    first: Option<R::File>,
    second: Option<R::File>,
}

impl<'a, R: Files> AreaFiles<'a, R> {
    /// The file of an area, which is opened where it is not open yet.
    fn file_of(&mut self, area: u8) -> Result<&mut R::File, Failed> {
        if area == 0 {
            opened(
                self.files,
                self.alloc,
                &self.folder,
                "/kumosend.spool.0",
                &mut self.first,
            )
        } else {
            opened(
                self.files,
                self.alloc,
                &self.folder,
                "/kumosend.spool.1",
                &mut self.second,
            )
        }
    }

    fn length(&mut self, area: u8) -> Result<u64, Failed>
        ensures bound { IfOk result (λ n. n < 2 ^ 63) }
    {
        let file = self.file_of(area)?;
        let Ok(found) = file.metadata() else {
            return Err(Failed);
        };
        let long = found.len();
        if long > LAST_END {
            return Err(Failed);
        }
        Ok(long)
    }

    fn read(&mut self, area: u8, at: u64, buffer: &mut [u8]) -> Result<usize, Failed>
        ensures bound { IfOk result (λ n. n ≤ length buffer.new) }
    {
        let file = self.file_of(area)?;
        if file.seek(SeekFrom::Start(at)).is_err() {
            return Err(Failed);
        }
        fill(file, buffer)
    }

    fn write(&mut self, area: u8, at: u64, bytes: &[u8]) -> Result<(), Failed>
        ensures bound { OnOk result (at + length bytes.now < 2 ^ 63) }
    {
        if at > LAST_END || bytes.len() as u64 > LAST_END - at {
            return Err(Failed);
        }
        let file = self.file_of(area)?;
        if file.seek(SeekFrom::Start(at)).is_err() || file.write_all(bytes).is_err() {
            return Err(Failed);
        }
        Ok(())
    }

    fn cut(&mut self, area: u8, end: u64) -> Result<(), Failed> {
        let file = self.file_of(area)?;
        if file.set_len(end).is_err() {
            return Err(Failed);
        }
        Ok(())
    }

    fn sync(&mut self, area: u8) -> Result<(), Failed> {
        let file = self.file_of(area)?;
        if file.sync_all().is_err() {
            return Err(Failed);
        }
        Ok(())
    }
}

/// An area's file, which is opened where it is not open yet, and made where it is not there.
fn opened<'f, R: Files>(
    files: &R,
    alloc: Global,
    folder: &Text,
    name: &str,
    file: &'f mut Option<R::File>,
) -> Result<&'f mut R::File, Failed> {
    if file.is_none() {
        let Ok(mut path) = folder.copy(alloc) else {
            return Err(Failed);
        };
        if path.push_str(name).is_err() {
            return Err(Failed);
        }
        let Ok(found) = OpenOptions::new()
            .read(true)
            .write(true)
            .create(true)
            .open(files, path.as_str())
        else {
            return Err(Failed);
        };
        *file = Some(found);
    }
    match file {
        Some(found) => Ok(found),
        None => Err(Failed),
    }
}

/// Reads until the buffer is full or the file is at its end, and answers how many bytes.
fn fill<F: Read>(file: &mut F, buffer: &mut [u8]) -> Result<usize, Failed>
    ensures { IfOk result (λ n. n ≤ length buffer.new) }
{
    let mut count = 0;
    while count < buffer.len() {
        let (_, rest) = buffer.split_at_mut(count);
        match file.read(rest) {
            Ok(0) => return Ok(count),
            Ok(n) => count += n,
            Err(_) => return Err(Failed),
        }
    }
    Ok(count)
}

/// The files `kumosend.spool.0` and `kumosend.spool.1` of a folder. Each is opened at its first use, and made where it is not
/// there. Only `sync` flushes what was written. It tells no content.
#[derive(Drop)]
pub struct FileDisk<'a, R: Files> {
    areas: AreaFiles<'a, R>,
    faults: u64,
}

impl<'a, R: Files> FileDisk<'a, R> {
    /// The disk of a folder. Nothing is opened yet.
    pub fn new(files: &'a R, alloc: Global, folder: Text) -> FileDisk<'a, R> {
        FileDisk {
            areas: AreaFiles {
                files,
                alloc,
                folder,
                first: None,
                second: None,
            },
            faults: 0,
        }
    }
}

impl<'a, R: Files> Disk for FileDisk<'a, R> {
    ghost seen = { λ disk. untold disk.faults };

    fn length(&mut self, area: u8) -> Result<u64, Failed> {
        match self.areas.length(area) {
            Ok(long) => Ok(long),
            Err(_) => {
                self.faults = self.faults.saturating_add(1);
                Err(Failed)
            }
        }
    }

    fn read(&mut self, area: u8, at: u64, buffer: &mut [u8]) -> Result<usize, Failed> {
        match self.areas.read(area, at, buffer) {
            Ok(count) => Ok(count),
            Err(_) => {
                self.faults = self.faults.saturating_add(1);
                Err(Failed)
            }
        }
    }

    fn read_exact(&mut self, area: u8, at: u64, buffer: &mut [u8]) -> Result<(), Failed> {
        match self.areas.read(area, at, buffer) {
            Ok(count) if count == buffer.len() => Ok(()),
            _ => {
                self.faults = self.faults.saturating_add(1);
                Err(Failed)
            }
        }
    }

    fn write_at(&mut self, area: u8, at: u64, bytes: &[u8]) -> Result<(), Failed> {
        match self.areas.write(area, at, bytes) {
            Ok(()) => Ok(()),
            Err(_) => {
                self.faults = self.faults.saturating_add(1);
                Err(Failed)
            }
        }
    }

    fn cut(&mut self, area: u8, end: u64) -> Result<(), Failed> {
        match self.areas.cut(area, end) {
            Ok(()) => Ok(()),
            Err(_) => {
                self.faults = self.faults.saturating_add(1);
                Err(Failed)
            }
        }
    }

    fn sync(&mut self, area: u8) -> Result<(), Failed> {
        match self.areas.sync(area) {
            Ok(()) => Ok(()),
            Err(_) => {
                self.faults = self.faults.saturating_add(1);
                Err(Failed)
            }
        }
    }
}

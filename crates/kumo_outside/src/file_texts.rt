//! Texts that are files: a trusted edge, since no contract can say what a file gives.
ghost use Rattle.std.specs.Prelude.{None};

use crate::texts::Texts;
use kumo_base::Failed;
use std::fs;
use std::io::{Read, Seek, SeekFrom};
use std::rt::Files;

/// Files by their paths. It tells no content.
#[derive(Drop)]
pub struct FileTexts<'a, R: Files> {
    files: &'a R,
    faults: u64,
}

impl<'a, R: Files> FileTexts<'a, R> {
    /// The files of the system.
    pub fn new(files: &'a R) -> FileTexts<'a, R> {
        FileTexts { files, faults: 0 }
    }
}

impl<'a, R: Files> Texts for FileTexts<'a, R> {
    ghost seen = { λ s. record { told = λ _. None; faults = s.faults } };

    fn read(&mut self, name: &str, at: u64, buffer: &mut [u8]) -> Result<usize, Failed> {
        let Ok(mut file) = fs::open(self.files, name) else {
            self.faults = self.faults.saturating_add(1);
            return Err(Failed);
        };
        if file.seek(SeekFrom::Start(at)).is_err() {
            self.faults = self.faults.saturating_add(1);
            return Err(Failed);
        }
        match file.read(buffer) {
            Ok(count) => Ok(count),
            Err(_) => {
                self.faults = self.faults.saturating_add(1);
                Err(Failed)
            }
        }
    }
}

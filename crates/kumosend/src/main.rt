//! The program `kumosend`: the words of the command line, files, standard output and the exit status.
//!
//! What a run does is said by the contract of `kumo_run::perform`. Here stands the edge to the system alone: the disk is two files
//! in the folder that `--spool` names, or memory where it names none.
#![tactic(auto)]

use kumo_base::{Memory, Text};
use kumo_disk::{Disk, FileDisk, MemDisk};
use kumo_outside::{FileTexts, RegexSearch, Sink, StdoutSink};
use kumo_run::{Refusal, perform, place};
use std::process::ExitCode;
use std::{env, io};

fn main(rt: HostRuntime) -> ExitCode {
    let mut out = StdoutSink::new(&rt);
    let status = match words(&rt) {
        Ok(words) => on_its_disk(&rt, words.as_slice(), &mut out),
        Err(refusal) => refused(refusal, &mut out),
    };
    ExitCode::from(status)
}

/// Does what the words ask for, over the disk that they name.
fn on_its_disk<O: Sink>(rt: &HostRuntime, words: &[Text], out: &mut O) -> u8 {
    match place(words).spool {
        None => done(rt, words, out, MemDisk::new(rt.alloc())),
        Some(folder) => match Text::of(rt.alloc(), folder) {
            Ok(folder) => done(rt, words, out, FileDisk::new(rt, rt.alloc(), folder)),
            Err(Memory) => refused(Refusal::Memory, out),
        },
    }
}

/// Does what the words ask for, and answers the status.
fn done<O: Sink, D: Disk + Drop>(rt: &HostRuntime, words: &[Text], out: &mut O, disk: D) -> u8 {
    let mut texts = FileTexts::new(rt);
    let search = RegexSearch::new(rt.alloc(), Vec::new(rt.alloc()));
    perform(rt.alloc(), words, &mut texts, out, disk, (), search).status
}

/// Prints why nothing was done, and answers the status.
fn refused<O: Sink>(refusal: Refusal, out: &mut O) -> u8 {
    refusal.print(out);
    refusal.status().code()
}

/// The words behind the program's name. Arguments that cannot be read are no command.
fn words(rt: &HostRuntime) -> Result<Vec<Text>, Refusal> {
    let arguments = match env::args(rt) {
        Ok(arguments) => arguments,
        Err(error) => {
            return Err(if error.kind() == io::ErrorKind::OutOfMemory {
                Refusal::Memory
            } else {
                Refusal::Usage
            });
        }
    };
    let mut words = Vec::new(rt.alloc());
    for argument in arguments.skip(1) {
        if words.push(Text::of_string(argument)).is_err() {
            return Err(Refusal::Memory);
        }
    }
    Ok(words)
}

//! The program: it makes the real streams, disk and gate, calls `run` and ends with its status.
//!
//! Stands on `wal_top` for all that it does. What it makes itself is the trusted edge: the standard streams of
//! `wal_base` and the disk of `file_disk`, over which no contract says what is read or written.
#![tactic(auto)]

use file_disk::FileDisk;
use std::alloc::{AllocError, Global};
use std::env::Args;
use std::fs::File;
use std::process::ExitCode;
use std::rt::Files;
use std::{env, io};
use wal_base::{StdSink, StdSource};
use wal_top::{NoGate, Status, run};

/// The words after the program's name.
fn words_of(alloc: Global, args: Args) -> Result<Vec<String>, AllocError> {
    let mut words = Vec::new(alloc);
    for word in args.skip(1) {
        words.push(word)?;
    }
    Ok(words)
}

/// Takes the standard descriptors that were closed as the program was started.
///
/// The system gives each file that is opened the least descriptor that is free. So where standard output is closed, the
/// next file that is opened, as a segment of the log, would get the text. Three openings take all of descriptors 0 to 2
/// that are free, as long as what is answered is held, and others beside, which do no harm. The root directory is opened
/// for reading: it is always there, and a read and a write of it are answered by an error, so a closed standard stream
/// fails at each call. The null device would hand out an empty script. Where an opening fails, the program goes on.
fn take_standard_descriptors<R: Files>(rt: &R) -> [io::Result<R::File>; 3] {
    [
        File::open(rt, "/"),
        File::open(rt, "/"),
        File::open(rt, "/"),
    ]
}

fn main(rt: HostRuntime) -> ExitCode {
    // Before anything else is opened, and held to the end.
    let _taken = take_standard_descriptors(&rt);
    // Words that are not all UTF-8 are no command, as no words are none.
    let words = match env::args(&rt) {
        Ok(args) => words_of(rt.alloc(), args),
        Err(error) if error.kind() == io::ErrorKind::OutOfMemory => Err(AllocError),
        Err(_) => Ok(Vec::new(rt.alloc())),
    };
    let Ok(words) = words else {
        return ExitCode::from(Status::NoMemory.code());
    };
    let Ok(disk) = FileDisk::new(&rt) else {
        return ExitCode::from(Status::NoMemory.code());
    };
    let mut source = StdSource::new(rt.reader());
    let mut sink = StdSink::new(io::writer(&rt));
    let ran = run(
        &rt,
        rt.alloc(),
        words.as_slice(),
        &mut source,
        &mut sink,
        disk,
        &NoGate,
    );
    ExitCode::from(ran.status.code())
}

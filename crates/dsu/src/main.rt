//! The program `dsu`: it runs `top_call::dsu` over the system's files and standard output, on the words after
//! the program's name. Words that aren't text ask for nothing.
#![tactic(auto)]

use outside::{DiskFiles, OutSink};
use std::alloc::AllocError;
use std::io::ErrorKind;
use std::process::ExitCode;
use top_call::{Status, dsu};

fn main(rt: HostRuntime) -> ExitCode {
    let alloc = rt.alloc();
    let Ok(words) = take_words(&rt) else {
        return ExitCode::from(Status::NoMemory as u8);
    };
    let mut files = DiskFiles::new(&rt);
    let mut out = OutSink::new(&rt);
    let status = dsu(alloc, words.get(1..).unwrap_or(&[]), &mut files, &mut out);
    ExitCode::from(status as u8)
}

// The program's name and the words after it, or none where one of them isn't text.
fn take_words(rt: &HostRuntime) -> Result<Vec<String>, AllocError> {
    match std::env::args(rt) {
        Ok(words) => words.collect(rt.alloc()),
        Err(error) if error.kind() == ErrorKind::OutOfMemory => Err(AllocError),
        Err(_) => Ok(Vec::new(rt.alloc())),
    }
}

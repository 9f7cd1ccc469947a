//! What a run of the tool meets: files, and faults of files and sink.

use outside::{MemFiles, MemSink};
use std::alloc::{AllocError, Global};
use top_call::{Status, dsu};

/// How many bytes the sink takes.
const ROOM: usize = 65_536;

/// The files, and the calls of the next run that fail.
#[derive(Drop)]
pub struct Setting {
    files: Vec<(String, Vec<u8>)>,
    reads: Vec<u64>,
    puts: Vec<(u64, usize)>,
}

fn words_of(alloc: Global, line: &str) -> Result<Vec<String>, AllocError> {
    let mut words = Vec::new(alloc);
    for word in line.split(' ') {
        if !word.is_empty() {
            words.push(String::from_str(alloc, word)?)?;
        }
    }
    Ok(words)
}

fn copy_of(
    alloc: Global,
    files: &[(String, Vec<u8>)],
) -> Result<Vec<(String, Vec<u8>)>, AllocError> {
    let mut copies = Vec::new(alloc);
    for (name, bytes) in files {
        let name = String::from_str(alloc, name.as_str())?;
        copies.push((name, bytes.as_slice().to_vec(alloc)?))?;
    }
    Ok(copies)
}

impl Setting {
    /// No files, and no faults.
    pub fn new(alloc: Global) -> Setting {
        Setting {
            files: Vec::new(alloc),
            reads: Vec::new(alloc),
            puts: Vec::new(alloc),
        }
    }

    /// The file holds these bytes from now on.
    pub fn hold(&mut self, alloc: Global, name: &str, bytes: Vec<u8>) -> Result<(), AllocError> {
        self.lose(name);
        let name = String::from_str(alloc, name)?;
        self.files.push((name, bytes))?;
        Ok(())
    }

    /// There is no such file from now on.
    pub fn lose(&mut self, name: &str) {
        self.files.retain(|file| file.0.as_str() != name);
    }

    /// This read call of the next run fails.
    pub fn fail_read(&mut self, call: u64) -> Result<(), AllocError> {
        self.reads.push(call)?;
        Ok(())
    }

    /// This put call of the next run fails after so many bytes.
    pub fn fail_put(&mut self, call: u64, bytes: usize) -> Result<(), AllocError> {
        self.puts.push((call, bytes))?;
        Ok(())
    }

    /// Runs the tool: its status, and what was put. The next run has no faults.
    pub fn run(&mut self, alloc: Global, line: &str) -> Result<(Status, Vec<u8>), AllocError> {
        let reads = std::mem::replace(&mut self.reads, Vec::new(alloc));
        let puts = std::mem::replace(&mut self.puts, Vec::new(alloc));
        let mut files = MemFiles::new(copy_of(alloc, self.files.as_slice())?, reads);
        let mut out = MemSink::new(vec![in alloc; 0u8; ROOM]?, puts);
        let words = words_of(alloc, line)?;
        let status = dsu(alloc, words.as_slice(), &mut files, &mut out);
        Ok((status, out.bytes().to_vec(alloc)?))
    }
}

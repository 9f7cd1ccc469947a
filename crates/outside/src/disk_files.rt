ghost use Rattle.std.specs.Prelude.{◌≡◌, ◌≤◌, ℕ, List, [], None, length, IfOk, option_map, unwrap_or, string_bytes};
ghost use Rattle.outside.specs.DiskFiles.{FilesFaults};

use crate::{FileError, Files};
use std::alloc::Global;
use std::fs::File;
use std::io::Read;
use std::marker::Model;
use std::rt;

/// The files of the operating system. No contract tells what they hold.
#[derive(Drop)]
pub struct DiskFiles<'a, R: rt::Files> {
    runtime: &'a R,
    faults: u64,
    failed: Option<String>,
}

impl<'a, R: rt::Files> Model for DiskFiles<'a, R> {
    ghost Value = { FilesFaults };

    ghost view = { λ f. record { faults = f.faults; failed = unwrap_or (option_map string_bytes f.failed) [] } };
}

impl<'a, R: rt::Files> DiskFiles<'a, R> {
    /// The files that this runtime reaches, of which no read has failed yet.
    pub fn new(runtime: &'a R) -> DiskFiles<'a, R>
        ensures { result ≡ record { faults = 0; failed = [] } }
    {
        DiskFiles {
            runtime,
            faults: 0,
            failed: None,
        }
    }
}

impl<'a, R: rt::Files> Files for DiskFiles<'a, R> {
    ghost held = { λ _ _. None };

    ghost faults = { λ f. f.faults };

    ghost failed = { λ f. f.failed };

    fn read(&mut self, alloc: Global, name: &str, most: usize) -> Result<Vec<u8>, FileError> {
        let Ok(asked) = String::from_str(alloc, name) else {
            return Err(FileError::NoMemory);
        };
        let read = match File::open(self.runtime, name) {
            Ok(mut file) => read_prefix(alloc, &mut file, most),
            Err(_) => Err(FileError::Failed),
        };
        if let Err(FileError::Failed) = read {
            self.faults = self.faults.saturating_add(1);
            self.failed = Some(asked);
        }
        read
    }
}

// The first `most` bytes that the reader gives, or all where they are fewer.
fn read_prefix<R: Read>(alloc: Global, reader: &mut R, most: usize) -> Result<Vec<u8>, FileError>
    ensures { IfOk result (λ bytes. length bytes.items ≤ most) }
{
    let mut bytes = Vec::new(alloc);
    let mut buffer = [0u8; 4096];
    while bytes.len() < most {
        let wanted = (most - bytes.len()).min(buffer.len());
        let Ok(count) = reader.read(&mut buffer[..wanted]) else {
            return Err(FileError::Failed);
        };
        if count == 0 {
            break;
        }
        if bytes.extend_from_slice(&buffer[..count]).is_err() {
            return Err(FileError::NoMemory);
        }
    }
    Ok(bytes)
}

ghost use Rattle.std.specs.Prelude.{◌≡◌, List, ℕ, map, [], Option, IsErrOf, IfOk, take, find, option_map, unwrap_or, string_bytes};
ghost use Rattle.outside.specs.MemFiles.{FilesInMemory, Gives, Fails, MustFail, held_in, unread};
ghost use Rattle.outside.specs.Named.{named, has_name};

use crate::{FileError, Files};
use std::alloc::{AllocError, Global};
use std::marker::Model;

/// Files in memory, of which chosen reads fail.
#[derive(Drop)]
pub struct MemFiles {
    files: Vec<(String, Vec<u8>)>,
    failing: Vec<u64>,
    calls: u64,
    faults: u64,
    failed: Option<String>,
}

impl Model for MemFiles {
    ghost Value = { FilesInMemory };

    ghost view = { λ f. record {
      files = map named f.files.items;
      failing = f.failing.items;
      calls = f.calls;
      faults = f.faults;
      failed = unwrap_or (option_map string_bytes f.failed) [];
    } };
}

impl MemFiles {
    /// Files with these names and bytes; of several with one name the first counts. Read number n,
    /// counted from 0, fails where n is listed in `failing` or no file has the name. A read that
    /// ends for want of memory isn't counted.
    pub fn new(files: Vec<(String, Vec<u8>)>, failing: Vec<u64>) -> MemFiles
        ensures { result ≡ unread (map named files.items) failing.items }
    {
        MemFiles {
            files,
            failing,
            calls: 0,
            faults: 0,
            failed: None,
        }
    }

    // Counts a failed read and its fault, and keeps the name.
    fn fail(&mut self, asked: String)
        requires { MustFail self.old (string_bytes asked) }
        ensures { Fails self.old (string_bytes asked) self.new }
    {
        self.failed = Some(asked);
        self.calls = self.calls.saturating_add(1);
        self.faults = self.faults.saturating_add(1);
    }
}

impl Files for MemFiles {
    ghost held = { λ f. held_in f.files };

    ghost faults = { λ f. f.faults };

    ghost failed = { λ f. f.failed };

    fn read(&mut self, alloc: Global, name: &str, most: usize) -> Result<Vec<u8>, FileError>
        ensures gives { IfOk result (λ bytes. Gives self.old name.now most bytes.items self.new) }
        ensures fails { IsErrOf result FileError.Failed → Fails self.old name.now self.new }
        ensures as_before { IsErrOf result FileError.NoMemory → self.new ≡ self.old }
    {
        let Ok(asked) = String::from_str(alloc, name) else {
            return Err(FileError::NoMemory);
        };
        let listed = self.failing.contains(&self.calls);
        let Some(held) = find_held(&self.files, name) else {
            self.fail(asked);
            return Err(FileError::Failed);
        };
        if listed {
            self.fail(asked);
            return Err(FileError::Failed);
        }
        let Ok(bytes) = prefix(alloc, held, most) else {
            return Err(FileError::NoMemory);
        };
        self.calls = self.calls.saturating_add(1);
        Ok(bytes)
    }
}

// A copy of the first `most` bytes.
fn prefix(alloc: Global, bytes: &[u8], most: usize) -> Result<Vec<u8>, AllocError>
    ensures { IfOk result (λ copy. copy.items ≡ take most bytes.now) }
{
    bytes[..most.min(bytes.len())].to_vec(alloc)
}

// What is held under a name.
fn find_held<'a>(files: &'a [(String, Vec<u8>)], name: &str) -> Option<&'a Vec<u8>>
    ensures { option_map (λ bytes. bytes.now.items) result ≡ held_in (map named files.now) name.now }
{
    match find_pair(files, name) {
        Some(pair) => Some(&pair.1),
        None => None,
    }
}

// The first pair with a name.
fn find_pair<'a>(files: &'a [(String, Vec<u8>)], name: &str) -> Option<&'a (String, Vec<u8>)>
    ensures { option_map (λ pair. pair.now) result ≡ find (has_name name.now) files.now }
{
    files.iter().find(|pair| pair.0.as_str() == name)
}

ghost use Rattle.std.specs.Prelude.{◌≡◌, ◌≤◌, ℕ, List, [], Option, Some, Result, length, take, find, option_map, ◌==◌, ◌+◌, ◌-◌, ◌++◌};
ghost use Rattle.outside.specs.MemSink.{SinkInMemory, unwritten, listed_for, Puts};

use crate::{Failed, Sink};
use std::marker::Model;

/// A sink of limited room in memory, of which chosen puts fail.
#[derive(Drop)]
pub struct MemSink {
    room: Vec<u8>,
    used: usize,
    failing: Vec<(u64, usize)>,
    calls: u64,
    faults: u64,
}

impl Model for MemSink {
    ghost Value = { SinkInMemory };

    ghost view = { λ s. record {
      written = take s.used s.room.items;
      room = length s.room.items - s.used;
      failing = s.failing.items;
      calls = s.calls;
      faults = s.faults;
    } };

    ghost invariant = { λ s. s.used ≤ length s.room.items };
}

impl MemSink {
    /// A sink that fills `room` from its front. Put number n, counted from 0, fails where n is
    /// listed in `failing` or less room is left than the piece is long. It then takes as many bytes
    /// as there is room for, and at most the first number that is listed for n.
    pub fn new(room: Vec<u8>, failing: Vec<(u64, usize)>) -> MemSink
        ensures { result ≡ unwritten (length room.items) failing.items }
    {
        MemSink {
            room,
            used: 0,
            failing,
            calls: 0,
            faults: 0,
        }
    }

    /// What was written.
    pub fn bytes(&self) -> &[u8]
        ensures { result.now ≡ self.now.written }
    {
        &self.room[..self.used]
    }
}

impl Sink for MemSink {
    ghost written = { λ s. Some s.written };

    ghost faults = { λ s. s.faults };

    fn put(&mut self, piece: &[u8]) -> Result<(), Failed>
        ensures { Puts self.old piece.now result self.new }
    {
        let listed = find_listed(&self.failing, self.calls);
        let left = self.room.len() - self.used;
        let most = listed.unwrap_or(piece.len());
        let count = piece.len().min(left).min(most);
        fill(&mut self.room, self.used, &piece[..count]);
        self.used += count;
        self.calls = self.calls.saturating_add(1);
        if listed.is_some() || left < piece.len() {
            self.faults = self.faults.saturating_add(1);
            return Err(Failed);
        }
        Ok(())
    }
}

// Writes the piece at an offset.
fn fill(room: &mut [u8], at: usize, piece: &[u8])
    requires { at + length piece.now ≤ length room.old }
    ensures { take (at + length piece.now) room.new ≡ take at room.old ++ piece.now }
{
    room[at..at + piece.len()].copy_from_slice(piece);
}

// The first number that is listed for a call.
fn find_listed(failing: &[(u64, usize)], call: u64) -> Option<usize>
    ensures { result ≡ listed_for failing.now call }
{
    match find_pair(failing, call) {
        Some(pair) => Some(pair.1),
        None => None,
    }
}

// The first pair for a call.
fn find_pair(failing: &[(u64, usize)], call: u64) -> Option<&(u64, usize)>
    ensures { option_map (λ pair. pair.now) result ≡ find (λ pair. pair.0 == call) failing.now }
{
    failing.iter().find(|pair| pair.0 == call)
}

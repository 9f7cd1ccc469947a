ghost use Rattle.std.specs.Prelude.{◌≡◌, ℕ, None};

use crate::{Failed, Sink};
use std::marker::Model;

/// Standard output, which contracts see as the count of its faults. No contract tells what it
/// shows.
#[derive(Drop)]
pub struct OutSink<'a, P: Print> {
    runtime: &'a P,
    faults: u64,
}

impl<'a, P: Print> Model for OutSink<'a, P> {
    ghost Value = { ℕ };

    ghost view = { λ s. s.faults };
}

impl<'a, P: Print> OutSink<'a, P> {
    /// Standard output of this runtime, of which no write has failed yet.
    pub fn new(runtime: &'a P) -> OutSink<'a, P>
        ensures { result ≡ 0 }
    {
        OutSink { runtime, faults: 0 }
    }
}

impl<'a, P: Print> Sink for OutSink<'a, P> {
    ghost written = { λ _. None };

    ghost faults = { λ faults. faults };

    fn put(&mut self, piece: &[u8]) -> Result<(), Failed> {
        let mut done = 0;
        while done < piece.len() {
            match self.runtime.write_some(&piece[done..]) {
                Ok(count) if count > 0 => done += count,
                _ => {
                    self.faults = self.faults.saturating_add(1);
                    return Err(Failed);
                }
            }
        }
        Ok(())
    }
}

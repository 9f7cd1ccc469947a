ghost use Rattle.std.specs.Prelude.{◌≡◌, ℕ, List, [], ◌++◌, OnOk, OnErr, IfOk};

use crate::NoMemory;
use std::alloc::Global;
use std::marker::Model;

/// Output that is collected in memory before it is put. Contracts see it as its bytes.
#[derive(Drop)]
pub struct VecSink {
    bytes: Vec<u8>,
}

impl Model for VecSink {
    ghost Value = { List ℕ };

    ghost view = { λ sink. sink.bytes.items };
}

impl VecSink {
    /// A collection of no bytes.
    pub fn new(alloc: Global) -> Result<VecSink, NoMemory>
        ensures { IfOk result (λ sink. sink ≡ []) }
    {
        Ok(VecSink {
            bytes: Vec::new(alloc),
        })
    }

    /// Adds the piece at the end. After `NoMemory` all is as it was.
    pub fn add(&mut self, piece: &[u8]) -> Result<(), NoMemory>
        ensures added { OnOk result (self.new ≡ self.old ++ piece.now) }
        ensures as_before { OnErr result (self.new ≡ self.old) }
    {
        self.bytes.extend_from_slice(piece)
    }

    /// What was added so far.
    pub fn bytes(&self) -> &[u8]
        ensures { result.now ≡ self.now }
    {
        &self.bytes
    }
}

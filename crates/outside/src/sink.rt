ghost use Rattle.std.specs.Prelude.{ℕ, ◌≤◌, List, Option, OnOk, OnErr};
ghost use Rattle.std.specs.Io.KnownBytes.{Appends};
ghost use Rattle.outside.specs.Counts.{Rose};
ghost use Rattle.outside.specs.Pieces.{AppendsPrefix};

/// A sink didn't take the whole piece.
#[derive(Clone, Copy, Debug, PartialEq, Eq)]
pub struct Failed;

/// What takes bytes. Contracts speak of `written`, all bytes that it has taken, where they are
/// known, and of `faults`, which counts the failures in 64 bits and stands still at the last value.
pub trait Sink {
    ghost written: { Self → Option (List ℕ) };

    ghost faults: { Self → ℕ };

    /// Appends the whole piece. `Failed` comes only where the sink failed in this call, and then a
    /// prefix of the piece was appended. It takes no memory.
    fn put(&mut self, piece: &[u8]) -> Result<(), Failed>
        ensures whole { OnOk result (Appends (written self.old) (written self.new) piece.now) }
        ensures cut { OnErr result (AppendsPrefix (written self.old) (written self.new) piece.now) }
        ensures later { faults self.old ≤ faults self.new }
        ensures fault { OnErr result (Rose (faults self.old) (faults self.new)) };
}

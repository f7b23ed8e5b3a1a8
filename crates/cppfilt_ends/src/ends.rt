//! What the program reads from and writes to, as traits: the bytes that an end tells, and counts of its faults.

ghost use Rattle.std.specs.Prelude.{◌≡◌, ℕ, ◌≤◌, ◌<◌, List, Option, length, IfOk};
ghost use Rattle.std.specs.Io.{ReadsAtMost};
ghost use Rattle.std.specs.Io.KnownBytes.{ReadConsumes, WriteAppends};
ghost use Rattle.cppfilt_ends.specs.Causes.{SourceCause, SinkCause, TakenCount, given_by};

use demangle_context::SinkFault;

/// The one fault of a source: a read failed, and the source counts it.
#[derive(Clone, Copy, Debug, PartialEq, Eq)]
pub struct Failed;

/// Where bytes come from.
pub trait Source {
    /// The bytes that are left, where the source tells them.
    ghost left: { Self → Option (List ℕ) };

    /// How often a read has failed. The count never falls, and stops at its greatest value.
    ghost faults: { Self → ℕ };

    /// How many bytes were taken, which every source tells. The count stops at its greatest value.
    ghost taken: { Self → ℕ };

    /// How many bytes the last read gave, which every source tells: none where it failed, and before the first.
    ghost last: { Self → ℕ };

    /// Moves the first bytes that are left into `buf` and returns how many: none, for a buffer with room, only where
    /// nothing is left. `Failed` comes only where the source's count of faults rose, and then nothing was taken.
    fn read(&mut self, buf: &mut [u8]) -> Result<usize, Failed>
        ensures bound { ReadsAtMost result buf.new }
        ensures bytes { ReadConsumes (left self.old) (left self.new) result buf.new }
        ensures count { TakenCount (taken self.old) (taken self.new) result }
        ensures last { last self.new ≡ given_by result }
        ensures cause { SourceCause (faults self.old) (faults self.new) result };
}

/// Where bytes go.
pub trait Sink {
    /// The bytes that were written, where the sink tells them.
    ghost written: { Self → Option (List ℕ) };

    /// How often a write has failed. The count never falls, and stops at its greatest value.
    ghost faults: { Self → ℕ };

    /// Appends the first bytes of `piece` and returns how many: at least one, unless `piece` is empty. `Failed` comes
    /// only where the sink's count of faults rose; a refusal appends nothing.
    fn write(&mut self, piece: &[u8]) -> Result<usize, SinkFault>
        ensures bound { IfOk result (λ n. n ≤ length piece.now) }
        ensures advances { IfOk result (λ n. 0 < length piece.now → 0 < n) }
        ensures bytes { WriteAppends (written self.old) (written self.new) result piece.now }
        ensures cause { SinkCause (faults self.old) (faults self.new) result };
}

/// Reads at most so many bytes to the front of a block.
pub fn read_front<R: Source>(input: &mut R, block: &mut [u8], most: usize) -> Result<usize, Failed>
    requires room { most ≤ length block.old }
    requires some { 0 < length block.old → 0 < most }
    ensures bound { IfOk result (λ count. count ≤ most) }
    ensures kept { length block.new ≡ length block.old }
    ensures bytes { ReadConsumes (R.left input.old) (R.left input.new) result block.new }
    ensures count { TakenCount (R.taken input.old) (R.taken input.new) result }
    ensures last { R.last input.new ≡ given_by result }
    ensures cause { SourceCause (R.faults input.old) (R.faults input.new) result }
{
    input.read(&mut block[..most])
}

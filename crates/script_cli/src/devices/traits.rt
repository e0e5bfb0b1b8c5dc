//! The traits of a device that a script is read from, and of one that output is written to.

ghost use Rattle.std.specs.Prelude.{◌≡◌, ◌+◌, ◌<◌, ◌≤◌, Bool, true, false, length, take};
ghost use Rattle.script_cli.specs.Devices.{ReadLog, WriteLog, Reads, Takes};

/// What a script is read from.
pub trait ByteSource {
    /// What came of the reads so far.
    ghost log: { Self → ReadLog };

    /// The device has failed.
    ghost is_failed: { Self → Bool };

    /// Whether the device has failed: from its first failure on.
    fn failed(&self) -> bool
        ensures { result ≡ is_failed self.now };

    /// Reads bytes into the front of a buffer, and answers how many. None at all into a buffer with room is the end,
    /// or a failure.
    fn read(&mut self, buffer: &mut [u8]) -> usize
        ensures bound { result ≤ length buffer.new }
        ensures bytes { is_failed self.old ≡ false →
            Reads (log self.old) (log self.new) result buffer.new (is_failed self.new) }
        ensures flag { is_failed self.old ≡ true → is_failed self.new ≡ true }
        ensures counted { (log self.new).reads ≡ (log self.old).reads + 1 };
}

/// What the answers are written to.
pub trait ByteSink {
    /// What came of the writes so far.
    ghost log: { Self → WriteLog };

    /// The device has failed.
    ghost is_failed: { Self → Bool };

    /// Whether the device has failed: from its first failure on.
    fn failed(&self) -> bool
        ensures { result ≡ is_failed self.now };

    /// Writes bytes of the front, and answers how many. None of some bytes is a failure.
    fn write(&mut self, bytes: &[u8]) -> usize
        ensures bound { result ≤ length bytes.now }
        ensures bytes { is_failed self.old ≡ false → Takes (log self.old) (log self.new) (take result bytes.now) }
        ensures some { is_failed self.new ≡ false → 0 < length bytes.now → 0 < result }
        ensures flag { is_failed self.old ≡ true → is_failed self.new ≡ true };
}

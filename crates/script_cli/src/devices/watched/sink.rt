//! A watched writer as a byte sink: an error, or a write of no bytes where some are given, is a failure.

ghost use Rattle.std.specs.Prelude.{◌≡◌, ◌<◌, ◌≤◌, true, false, length, take};
ghost use Rattle.script_cli.specs.Devices.{Takes, bytes_taken};

use crate::devices::traits::ByteSink;
use crate::devices::watched::Watched;
use std::io;
use std::io::Write;

impl<T: Write> ByteSink for Watched<T> {
    ghost log = { λ w. record { bytes = w.passed.bytes; held = T.contents w.inner } };

    ghost is_failed = { λ w. w.failed };

    fn failed(&self) -> bool {
        self.failed
    }

    fn write(&mut self, bytes: &[u8]) -> usize
        ensures bound { result ≤ length bytes.now }
        ensures bytes { self.old.failed ≡ false → Takes
            (record { bytes = self.old.passed.bytes; held = T.contents self.old.inner })
            (record { bytes = self.new.passed.bytes; held = T.contents self.new.inner })
            (take result bytes.now) }
        ensures some { self.new.failed ≡ false → 0 < length bytes.now → 0 < result }
        ensures flag { self.old.failed ≡ true → self.new.failed ≡ true }
        // After a failure the writer isn't called.
        ensures stopped { self.old.failed ≡ true →
            (result ≡ 0) × (self.new.inner ≡ self.old.inner) × (self.new.passed.bytes ≡ self.old.passed.bytes) }
    {
        if self.failed {
            return 0;
        }
        match taken(self.inner.write(bytes), bytes.len()) {
            Some(count) => {
                self.passed.step(&bytes[..count]);
                count
            }
            None => {
                self.failed = true;
                0
            }
        }
    }
}

/// How many of so many bytes a write took; `None` where it failed, which is exactly where the writer answers an error
/// or takes none of some bytes.
fn taken(answer: io::Result<usize>, offered: usize) -> Option<usize>
    ensures { result ≡ bytes_taken offered answer }
{
    match answer {
        Ok(count) if count > 0 || offered == 0 => Some(count),
        _ => None,
    }
}

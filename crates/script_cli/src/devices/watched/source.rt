//! A watched reader as a byte source: an error is a failure.

ghost use Rattle.std.specs.Prelude.{◌≡◌, ◌+◌, ◌≤◌, true, false, length};
ghost use Rattle.std.specs.Result.{result_ok};
ghost use Rattle.script_cli.specs.Devices.{Reads};

use crate::devices::traits::ByteSource;
use crate::devices::watched::Watched;
use std::io;
use std::io::Read;

impl<T: Read> ByteSource for Watched<T> {
    ghost log = { λ w. record {
      reads = w.reads.count;
      ends = w.ends.count;
      bytes = w.passed.bytes;
      left = T.remaining w.inner;
    } };

    ghost is_failed = { λ w. w.failed };

    fn failed(&self) -> bool {
        self.failed
    }

    fn read(&mut self, buffer: &mut [u8]) -> usize
        ensures bound { result ≤ length buffer.new }
        ensures bytes { self.old.failed ≡ false → Reads
            (record {
              reads = self.old.reads.count;
              ends = self.old.ends.count;
              bytes = self.old.passed.bytes;
              left = T.remaining self.old.inner;
            })
            (record {
              reads = self.new.reads.count;
              ends = self.new.ends.count;
              bytes = self.new.passed.bytes;
              left = T.remaining self.new.inner;
            })
            result buffer.new self.new.failed }
        ensures flag { self.old.failed ≡ true → self.new.failed ≡ true }
        ensures counted { self.new.reads.count ≡ self.old.reads.count + 1 }
        // After a failure the reader isn't called.
        ensures stopped { self.old.failed ≡ true →
            (result ≡ 0) × (self.new.inner ≡ self.old.inner) × (self.new.passed.bytes ≡ self.old.passed.bytes) }
    {
        self.reads.step();
        if self.failed {
            return 0;
        }
        match handed_out(self.inner.read(buffer)) {
            Some(count) => {
                self.passed.step(&buffer[..count]);
                if count == 0 && !buffer.is_empty() {
                    self.ends.step();
                }
                count
            }
            None => {
                self.failed = true;
                0
            }
        }
    }
}

/// How many bytes a read brought; `None` where it failed, which is exactly where the reader answers an error.
fn handed_out(answer: io::Result<usize>) -> Option<usize>
    ensures { result ≡ result_ok answer }
{
    match answer {
        Ok(count) => Some(count),
        Err(_) => None,
    }
}

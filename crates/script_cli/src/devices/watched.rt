//! A reader or writer that isn't called again after its first failure.

mod sink;
mod source;

ghost use Rattle.std.specs.Prelude.{◌≡◌, [], false};

use crate::devices::passed_bytes::PassedBytes;
use crate::devices::read_count::ReadCount;

/// A reader or a writer, and whether it has failed. After its first failure it isn't called again.
///
/// What came of its calls is remembered for contracts alone, and takes no bytes: how many reads were made, how many of
/// them brought the end, and all the bytes that reads handed out, or that writes took.
#[derive(Drop)]
pub struct Watched<T> {
    inner: T,
    failed: bool,
    reads: ReadCount,
    ends: ReadCount,
    passed: PassedBytes,
}

impl<T> Watched<T> {
    /// Watches a device that has not failed.
    pub fn new(inner: T) -> Self
        ensures flag { result.failed ≡ false }
        ensures device { result.inner ≡ inner }
        ensures reads { result.reads.count ≡ 0 }
        ensures ends { result.ends.count ≡ 0 }
        ensures passed { result.passed.bytes ≡ [] }
    {
        Watched {
            inner,
            failed: false,
            reads: ReadCount::new(),
            ends: ReadCount::new(),
            passed: PassedBytes::new(),
        }
    }

    /// The device.
    pub fn get_ref(&self) -> &T
        ensures { result.now ≡ self.now.inner }
    {
        &self.inner
    }
}

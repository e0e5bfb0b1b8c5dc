//! Reads once from a source and feeds the bytes, or the end of the script, to the splitter.

ghost use Rattle.std.specs.Prelude.{◌≡◌, ◌+◌, ◌⊎◌, true, false, IfOk, IfErr, OnOk, OnErr, IsErrOf, List, ℕ};
ghost use Rattle.script_cli.specs.Devices.{HandsOut};
ghost use Rattle.script_cli.specs.Reading.{Feeds, unread, is_end};

use crate::devices::ByteSource;
use crate::summary::RunFault;
use tcl_words::Splitter;

/// What a read brought.
#[derive(Clone, Copy)]
pub enum Brought {
    /// Bytes of the script.
    Bytes,
    /// The end of the script.
    End,
}

/// Makes one read, of up to 4,096 bytes, and feeds what it brings.
pub fn feed_read<R: ByteSource>(
    source: &mut R,
    splitter: &mut Splitter,
) -> Result<Brought, RunFault>
    requires source { R.is_failed source.old ≡ false }
    requires unread { splitter.old ≡ unread splitter.old.rest false }
    ensures feeds { IfOk result (λ brought.
        Feeds (R.log source.old) (R.log source.new) splitter.old.rest splitter.new (is_end brought)) }
    ensures lost { OnErr result ((piece : List ℕ) × HandsOut (R.log source.old) (R.log source.new) piece false) }
    ensures flag { OnOk result (R.is_failed source.new ≡ false) }
    ensures read { IsErrOf result RunFault.Read → R.is_failed source.new ≡ true }
    ensures memory { IsErrOf result RunFault.Memory → R.is_failed source.new ≡ false }
    ensures counted { (R.log source.new).reads ≡ (R.log source.old).reads + 1 }
    ensures faults { IfErr result (λ fault. (fault ≡ RunFault.Read) ⊎ (fault ≡ RunFault.Memory)) }
{
    let mut buffer = [0u8; 4096];
    let count = source.read(&mut buffer);
    if source.failed() {
        return Err(RunFault::Read);
    }
    if count == 0 {
        splitter.finish();
        return Ok(Brought::End);
    }
    match splitter.feed(&buffer[..count]) {
        Ok(()) => Ok(Brought::Bytes),
        Err(_) => Err(RunFault::Memory),
    }
}

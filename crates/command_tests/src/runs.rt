//! Runs over devices that fail, and how many reads and writes there are.

ghost use Rattle.std.specs.Prelude.{◌≡◌, false};

use script_cli::{ByteSink, ByteSource, RunFault, RunSummary, Watched, outcome, run};
use std::alloc::Global;
use std::cell::Cell;
use std::io;
use std::io::{Read, Write};
use std::process::Abort;
use std::test::Fail;
use text_model::{Limits, PlainStore};

// Returns the bytes of a script, at most `most` at a read, and fails once after `before_failure` of them.
#[derive(Drop)]
struct TestReader {
    script: &'static [u8],
    most: usize,
    before_failure: Option<usize>,
    reads: usize,
}

impl Read for TestReader {
    fn read(&mut self, buf: &mut [u8]) -> io::Result<usize> {
        self.reads = self.reads.saturating_add(1);
        let mut most = self.most.min(self.script.len()).min(buf.len());
        if let Some(before_failure) = self.before_failure {
            if before_failure == 0 {
                self.before_failure = None;
                return Err(io::ErrorKind::Other.into());
            }
            most = most.min(before_failure);
            self.before_failure = Some(before_failure - most);
        }
        buf[..most].copy_from_slice(&self.script[..most]);
        self.script = &self.script[most..];
        Ok(most)
    }
}

// Takes at most `most` bytes at a write, and `room` in all: then it fails once, or takes none once.
#[derive(Drop)]
struct TestWriter {
    written: Vec<u8>,
    most: usize,
    room: usize,
    takes_none: bool,
    writes: usize,
}

impl Write for TestWriter {
    fn write(&mut self, buf: &[u8]) -> io::Result<usize> {
        self.writes = self.writes.saturating_add(1);
        let most = self.most.min(self.room).min(buf.len());
        if most == 0 && !buf.is_empty() {
            self.room = usize::MAX;
            if self.takes_none {
                return Ok(0);
            }
            return Err(io::ErrorKind::Other.into());
        }
        self.written.extend_from_slice(&buf[..most])?;
        self.room -= most;
        Ok(most)
    }

    fn flush(&mut self) -> io::Result<()> {
        Ok(())
    }
}

// What the devices of a run do, and how many reads it may take.
#[derive(Clone, Copy)]
struct Setting {
    script: &'static [u8],
    // The bytes of a read at most, and those after which the reader fails.
    most_read: usize,
    fails_after: Option<usize>,
    // The bytes of a write at most, and those after which the writer fails, or takes none.
    most_written: usize,
    room: usize,
    takes_none: bool,
    reads: u32,
}

// Devices that don't fail, and take all at once.
const PLAIN: Setting = Setting {
    script: SCRIPT,
    most_read: 4096,
    fails_after: None,
    most_written: 4096,
    room: usize::MAX,
    takes_none: false,
    reads: 100,
};

fn reader(setting: &Setting) -> Watched<TestReader>
    ensures { result.failed ≡ false }
{
    Watched::new(TestReader {
        script: setting.script,
        most: setting.most_read,
        before_failure: setting.fails_after,
        reads: 0,
    })
}

fn writer(alloc: Global, setting: &Setting) -> Watched<TestWriter>
    ensures { result.failed ≡ false }
{
    Watched::new(TestWriter {
        written: Vec::new(alloc),
        most: setting.most_written,
        room: setting.room,
        takes_none: setting.takes_none,
        writes: 0,
    })
}

fn limits(reads: u32) -> Result<Limits, Fail> {
    Limits::new(100, 2, 2, 1, reads).ok_or_else(|| Fail::new("no limits"))
}

// What a script prints where neither device fails.
fn output_of(alloc: Global, script: &[u8]) -> Result<Vec<u8>, Fail> {
    let mut source = Watched::new(script);
    let mut sink = Watched::new(Vec::new(alloc));
    run::<PlainStore, _, _>(alloc, &mut source, &mut sink, limits(100)?)?;
    Ok(sink.get_ref().clone()?)
}

type Ended = Result<RunSummary, RunFault>;

// What was seen of a run.
#[derive(Clone, Copy)]
struct Seen {
    ended: Ended,
    // Whether the bytes that were written are the first ones of all, and how many there are.
    is_prefix: bool,
    written: usize,
    // How often each device was called, and whether one that failed isn't called again.
    reads: usize,
    writes: usize,
    is_shut: bool,
}

// What is wanted of a run; how often a device is called may be left open.
#[derive(Clone, Copy)]
struct Wanted {
    ended: Ended,
    written: usize,
    reads: Option<usize>,
    writes: Option<usize>,
}

fn is_as_wanted(seen: &Seen, wanted: &Wanted) -> bool {
    seen.ended == wanted.ended
        && seen.is_prefix
        && seen.written == wanted.written
        && wanted.reads.is_none_or(|reads| reads == seen.reads)
        && wanted.writes.is_none_or(|writes| writes == seen.writes)
        && seen.is_shut
}

// Whether a reader that failed isn't called again.
fn is_read_no_more(source: &mut Watched<TestReader>) -> bool {
    let reads = source.get_ref().reads;
    source.read(&mut [0; 4]) == 0 && source.get_ref().reads == reads
}

// Whether a writer that failed isn't called again.
fn is_written_no_more(sink: &mut Watched<TestWriter>) -> bool {
    let writes = sink.get_ref().writes;
    sink.write(b"more") == 0 && sink.get_ref().writes == writes
}

fn seen_of(
    ended: Ended,
    all: &[u8],
    source: &mut Watched<TestReader>,
    sink: &mut Watched<TestWriter>,
) -> Seen {
    let reads = source.get_ref().reads;
    let writes = sink.get_ref().writes;
    let is_prefix = all.starts_with(&sink.get_ref().written);
    let written = sink.get_ref().written.len();
    let is_shut = match ended {
        Err(RunFault::Read) => is_read_no_more(source),
        Err(RunFault::Write) => is_written_no_more(sink),
        _ => true,
    };
    Seen {
        ended,
        is_prefix,
        written,
        reads,
        writes,
        is_shut,
    }
}

// Runs a script over such devices. `all` is what it prints where none fails.
fn run_over(alloc: Global, all: &[u8], setting: &Setting) -> Result<Seen, Fail> {
    let limits = limits(setting.reads)?;
    let mut source = reader(setting);
    let mut sink = writer(alloc, setting);
    let ended = run::<PlainStore, _, _>(alloc, &mut source, &mut sink, limits);
    Ok(seen_of(ended, all, &mut source, &mut sink))
}

fn check(
    rt: &impl Abort,
    alloc: Global,
    all: &[u8],
    setting: Setting,
    wanted: Wanted,
) -> Result<(), Fail> {
    let seen = run_over(alloc, all, &setting)?;
    assert!(rt;
        is_as_wanted(&seen, &wanted),
        "{} bytes in {} reads",
        seen.written,
        seen.reads
    );
    Ok(())
}

const SCRIPT: &[u8] = b"foo\nbar baz; qux";

const REFUSED: RunSummary = RunSummary {
    commands: 3,
    refused: 3,
    script_fault: false,
};

// How a run ended, its status, and the words that are printed of it.
static ENDS: [(Ended, u8, &str); 7] = [
    (
        Ok(RunSummary {
            commands: 3,
            refused: 0,
            script_fault: false,
        }),
        0,
        "",
    ),
    (Ok(REFUSED), 1, ""),
    (
        Ok(RunSummary {
            commands: 3,
            refused: 0,
            script_fault: true,
        }),
        2,
        "",
    ),
    (Err(RunFault::Read), 2, "read failed"),
    (Err(RunFault::Write), 2, "write failed"),
    (Err(RunFault::Memory), 2, "out of memory"),
    (Err(RunFault::Endless), 2, "too many reads"),
];

fn check_ends(rt: &impl Abort, ends: &[(Ended, u8, &str)]) {
    for (ended, status, words) in ends {
        assert!(rt; outcome(ended) == (*status, *words), "{words}");
    }
}

#[test]
fn tells_how_a_run_ended(rt: HostRuntime) {
    check_ends(&rt, &ENDS);
}

// How many bytes a read brings and a write takes at most, and how many writes there are: a piece of 34 bytes is written
// before the next read.
static LENGTHS: [(usize, usize); 3] = [(1, 102), (3, 36), (4096, 2)];

fn check_lengths(rt: &impl Abort, alloc: Global, rows: &[(usize, usize)]) -> Result<(), Fail> {
    let all = output_of(alloc, SCRIPT)?;
    for (most, writes) in rows {
        let setting = Setting {
            most_read: *most,
            most_written: *most,
            ..PLAIN
        };
        let wanted = Wanted {
            ended: Ok(REFUSED),
            written: 102,
            reads: Some(SCRIPT.len().div_ceil((*most).max(1)).saturating_add(1)),
            writes: Some(*writes),
        };
        check(rt, alloc, &all, setting, wanted)?;
    }
    Ok(())
}

#[test]
fn runs_whatever_the_reads_and_the_writes(rt: HostRuntime) -> Result<(), Fail> {
    check_lengths(&rt, rt.alloc(), &LENGTHS)
}

// The number of bytes that the commands print which are whole in a prefix of the script.
fn printed_before(place: usize) -> usize {
    match place {
        0..4 => 0,
        4..12 => 34,
        _ => 68,
    }
}

// The reader fails after a prefix of the script.
fn check_reader(rt: &impl Abort, alloc: Global, all: &[u8], place: usize) -> Result<(), Fail> {
    let setting = Setting {
        most_read: 3,
        fails_after: Some(place),
        ..PLAIN
    };
    let wanted = Wanted {
        ended: Err(RunFault::Read),
        written: printed_before(place),
        reads: Some(place.div_ceil(3).saturating_add(1)),
        writes: None,
    };
    check(rt, alloc, all, setting, wanted)
}

// The writer fails after a prefix of the answers, or takes none.
fn check_writer(
    rt: &impl Abort,
    alloc: Global,
    all: &[u8],
    most: usize,
    place: usize,
) -> Result<(), Fail> {
    let setting = Setting {
        most_read: most,
        most_written: 5,
        room: place,
        takes_none: place % 2 == 0,
        ..PLAIN
    };
    let wanted = Wanted {
        ended: Err(RunFault::Write),
        written: place,
        reads: None,
        writes: None,
    };
    check(rt, alloc, all, setting, wanted)
}

// Both devices fail, the reader after a prefix of the script, the writer after a prefix of the answers.
fn check_both(
    rt: &impl Abort,
    alloc: Global,
    all: &[u8],
    place: usize,
    room: usize,
) -> Result<(), Fail> {
    let setting = Setting {
        most_read: 3,
        fails_after: Some(place),
        most_written: 5,
        room,
        takes_none: place % 2 == 0,
        ..PLAIN
    };
    let printed = printed_before(place);
    let fault = if room < printed {
        RunFault::Write
    } else {
        RunFault::Read
    };
    let wanted = Wanted {
        ended: Err(fault),
        written: room.min(printed),
        reads: None,
        writes: None,
    };
    check(rt, alloc, all, setting, wanted)
}

#[test]
fn a_reader_fails_at_each_place(rt: HostRuntime) -> Result<(), Fail> {
    let all = output_of(rt.alloc(), SCRIPT)?;
    for place in 0..=SCRIPT.len() {
        check_reader(&rt, rt.alloc(), &all, place)?;
    }
    Ok(())
}

fn check_writers(rt: &impl Abort, alloc: Global, most: usize) -> Result<(), Fail> {
    let all = output_of(alloc, SCRIPT)?;
    for place in 0..all.len() {
        check_writer(rt, alloc, &all, most, place)?;
    }
    Ok(())
}

#[test]
fn a_writer_fails_at_each_place(rt: HostRuntime) -> Result<(), Fail> {
    check_writers(&rt, rt.alloc(), 1)?;
    check_writers(&rt, rt.alloc(), 3)?;
    check_writers(&rt, rt.alloc(), 4096)
}

fn check_rooms(rt: &impl Abort, alloc: Global, all: &[u8], place: usize) -> Result<(), Fail> {
    for room in [0, 20, 34, 50, 90] {
        check_both(rt, alloc, all, place, room)?;
    }
    Ok(())
}

#[test]
fn both_devices_fail(rt: HostRuntime) -> Result<(), Fail> {
    let all = output_of(rt.alloc(), SCRIPT)?;
    for place in 0..=SCRIPT.len() {
        check_rooms(&rt, rt.alloc(), &all, place)?;
    }
    Ok(())
}

// The length of a script of blanks, the number of reads allowed, and whether the run ends by itself in these.
static ALLOWED: [(&'static [u8], u32, bool); 4] = [
    (&[b' '; 4096], 1, false),
    (&[b' '; 4096], 2, true),
    (&[b' '; 4097], 2, false),
    (&[b' '; 4097], 3, true),
];

fn check_allowed(
    rt: &impl Abort,
    alloc: Global,
    rows: &[(&'static [u8], u32, bool)],
) -> Result<(), Fail> {
    for (script, reads, ends) in rows {
        let setting = Setting {
            script: *script,
            reads: *reads,
            ..PLAIN
        };
        let wanted = Wanted {
            ended: if *ends {
                Ok(NOTHING)
            } else {
                Err(RunFault::Endless)
            },
            written: 0,
            reads: Some(*reads as usize),
            writes: None,
        };
        check(rt, alloc, &[], setting, wanted)?;
    }
    Ok(())
}

const NOTHING: RunSummary = RunSummary {
    commands: 0,
    refused: 0,
    script_fault: false,
};

#[test]
fn reads_no_more_than_it_may(rt: HostRuntime) -> Result<(), Fail> {
    check_allowed(&rt, rt.alloc(), &ALLOWED)
}

// Hands out one byte a read, and notes how many bytes the writer had taken when the ninth read was made.
#[derive(Drop)]
struct LineReader<'a> {
    script: &'static [u8],
    taken: &'a Cell<usize>,
    reads: usize,
    taken_at_ninth: usize,
}

impl Read for LineReader<'_> {
    fn read(&mut self, buf: &mut [u8]) -> io::Result<usize> {
        self.reads = self.reads.saturating_add(1);
        if self.reads == 9 {
            self.taken_at_ninth = self.taken.get();
        }
        let most = 1.min(self.script.len()).min(buf.len());
        buf[..most].copy_from_slice(&self.script[..most]);
        self.script = &self.script[most..];
        Ok(most)
    }
}

// Takes all, and counts the bytes.
#[derive(Drop)]
struct LineWriter<'a> {
    taken: &'a Cell<usize>,
}

impl Write for LineWriter<'_> {
    fn write(&mut self, buf: &[u8]) -> io::Result<usize> {
        self.taken.set(self.taken.get().saturating_add(buf.len()));
        Ok(buf.len())
    }

    fn flush(&mut self) -> io::Result<()> {
        Ok(())
    }
}

#[test]
fn a_command_is_answered_before_the_next_read(rt: HostRuntime) -> Result<(), Fail> {
    let taken = Cell::new(0);
    let mut source = Watched::new(LineReader {
        script: b"text .t\n.t index end\n",
        taken: &taken,
        reads: 0,
        taken_at_ninth: usize::MAX,
    });
    let mut sink = Watched::new(LineWriter { taken: &taken });
    let ended = run::<PlainStore, _, _>(rt.alloc(), &mut source, &mut sink, limits(100)?);
    assert!(rt; ended.is_ok());
    assert_eq!(rt; source.get_ref().taken_at_ninth, 3);
    assert_eq!(rt; taken.get(), 7);
    Ok(())
}

//! What a splitter returns before its script ends, and commands that are skipped.

ghost use Rattle.std.specs.Prelude.{◌≡◌};

use std::alloc::{AllocError, Global};
use std::process::Abort;
use std::test::Fail;
use tcl_words::{ScriptFault, Splitter};

// Writes the words of a command, with a bar before each, and a newline.
fn write_words(text: &mut String, words: &[String]) -> Result<(), AllocError> {
    for word in words {
        text.push('|')?;
        text.push_str(word.as_str())?;
    }
    text.push('\n')
}

// Writes each command that can be given, up to a script fault.
fn write_commands(splitter: &mut Splitter, text: &mut String) -> Result<(), Fail>
    ensures { splitter.new.finished ≡ splitter.old.finished }
{
    loop {
        let words = match splitter.next_command() {
            Ok(Some(words)) => words,
            Err(ScriptFault::Memory) => return Err(Fail::from(ScriptFault::Memory)),
            _ => return Ok(()),
        };
        write_words(text, &words)?;
    }
}

// Does so with the commands that can be read, each into the words of the one before.
fn read_commands(
    splitter: &mut Splitter,
    words: &mut Vec<String>,
    text: &mut String,
) -> Result<(), Fail>
    ensures { splitter.new.finished ≡ splitter.old.finished }
{
    loop {
        match splitter.read_command(words) {
            Ok(true) => write_words(text, words)?,
            Err(ScriptFault::Memory) => return Err(Fail::from(ScriptFault::Memory)),
            _ => return Ok(()),
        }
    }
}

// A call of a splitter, and its result.
enum Step {
    // All commands that are whole.
    Gives(&'static str),
    // The same, read into one list of words.
    Reads(&'static str),
    // No command can be given, and no fault.
    Waits,
    // A command is skipped, or none is there.
    Skips(bool),
    Meets(ScriptFault),
    SkipMeets(ScriptFault),
}

fn gives(alloc: Global, splitter: &mut Splitter, commands: &str) -> Result<bool, Fail>
    ensures { splitter.new.finished ≡ splitter.old.finished }
{
    let mut text = String::new(alloc);
    write_commands(splitter, &mut text)?;
    Ok(text.as_str() == commands)
}

fn reads(alloc: Global, splitter: &mut Splitter, commands: &str) -> Result<bool, Fail>
    ensures { splitter.new.finished ≡ splitter.old.finished }
{
    let mut words = Vec::new(alloc);
    let mut text = String::new(alloc);
    read_commands(splitter, &mut words, &mut text)?;
    Ok(text.as_str() == commands)
}

fn waits(splitter: &mut Splitter) -> bool
    ensures { splitter.new.finished ≡ splitter.old.finished }
{
    matches!(splitter.next_command(), Ok(None))
}

fn meets(splitter: &mut Splitter, fault: ScriptFault) -> bool
    ensures { splitter.new.finished ≡ splitter.old.finished }
{
    splitter.next_command().err() == Some(fault)
}

// Whether a step goes as it says.
fn goes(alloc: Global, splitter: &mut Splitter, step: &Step) -> Result<bool, Fail>
    ensures { splitter.new.finished ≡ splitter.old.finished }
{
    match step {
        Step::Gives(commands) => gives(alloc, splitter, commands),
        Step::Reads(commands) => reads(alloc, splitter, commands),
        Step::Waits => Ok(waits(splitter)),
        Step::Skips(is_there) => Ok(splitter.skip_command() == Ok(*is_there)),
        Step::Meets(fault) => Ok(meets(splitter, *fault)),
        Step::SkipMeets(fault) => Ok(splitter.skip_command() == Err(*fault)),
    }
}

fn check_steps(
    rt: &impl Abort,
    alloc: Global,
    splitter: &mut Splitter,
    steps: &[Step],
) -> Result<(), Fail>
    ensures { splitter.new.finished ≡ splitter.old.finished }
{
    for (index, step) in steps.iter().enumerate() {
        let went = goes(alloc, splitter, step)?;
        assert!(rt; went, "step {index}");
    }
    Ok(())
}

// Pieces of a script with the steps after each, and the steps after the end.
struct Course {
    pieces: &'static [(&'static [u8], &'static [Step])],
    last: &'static [Step],
}

fn check_course(rt: &impl Abort, alloc: Global, course: &Course) -> Result<(), Fail> {
    let mut splitter = Splitter::new(alloc);
    for (piece, steps) in course.pieces {
        splitter.feed(piece)?;
        check_steps(rt, alloc, &mut splitter, steps)?;
    }
    splitter.finish();
    splitter.finish();
    check_steps(rt, alloc, &mut splitter, course.last)
}

static COURSES: [Course; 6] = [
    // A command, a word, and the first two bytes of a character of three, before its last one.
    Course {
        pieces: &[
            (b"a b\nc \xe6\x97", &[Step::Gives("|a|b\n"), Step::Waits]),
            (b"\xa5", &[Step::Waits]),
        ],
        last: &[Step::Gives("|c|日\n"), Step::Waits],
    },
    // A piece ends within braces.
    Course {
        pieces: &[
            (b"a {b", &[Step::Waits]),
            (b" c}\nd", &[Step::Gives("|a|b c\n")]),
        ],
        last: &[Step::Skips(true), Step::Waits],
    },
    // Pieces end within escapes of a quoted word: of two bytes, of digits, and before a character of two bytes.
    Course {
        pieces: &[
            (b"a \"b\\", &[Step::Waits]),
            (b"nc\\\"d\\10", &[Step::Waits]),
            (b"1\\\xc3", &[Step::Waits]),
            (b"\xa9\\$e\" f\n", &[Step::Reads("|a|b\nc\"dAé$e|f\n")]),
        ],
        last: &[Step::Waits],
    },
    // Words replace longer and shorter ones, and more and fewer; one command has an escape, and one many words.
    Course {
        pieces: &[
            (
                b"abc {d e}\nf\ng h i\nj\\ k l\nm {} n\n",
                &[Step::Reads("|abc|d e\n|f\n|g|h|i\n|j k|l\n|m||n\n")],
            ),
            (
                b"1 2 3 4 5 6 7 8 9 10 11 12 13 14 15 16 17\na b\nc",
                &[Step::Reads("|1|2|3|4|5|6|7|8|9|10|11|12|13|14|15|16|17\n|a|b\n")],
            ),
        ],
        last: &[Step::Reads("|c\n"), Step::Waits],
    },
    // What is fed after a parse error is not read.
    Course {
        pieces: &[
            (
                b"a;b;c d;[",
                &[
                    Step::Skips(true),
                    Step::Skips(true),
                    Step::Gives("|c|d\n"),
                    Step::SkipMeets(ScriptFault::Substitution),
                ],
            ),
            (b"\ne\n", &[Step::SkipMeets(ScriptFault::Substitution)]),
        ],
        last: &[Step::Meets(ScriptFault::Substitution)],
    },
    // The last command is skipped.
    Course {
        pieces: &[(b"a b", &[Step::Skips(false)])],
        last: &[Step::Skips(true), Step::Skips(false)],
    },
];

fn check_courses(rt: &impl Abort, alloc: Global, courses: &[Course]) -> Result<(), Fail> {
    for course in courses {
        check_course(rt, alloc, course)?;
    }
    Ok(())
}

#[test]
fn pieces_are_read(rt: HostRuntime) -> Result<(), Fail> {
    check_courses(&rt, rt.alloc(), &COURSES)
}

// Scripts whose end wasn't met, and the fault that is met all the same.
static EARLY: [(&[u8], ScriptFault); 8] = [
    (b"a \xff", ScriptFault::NotUtf8),
    (b"a\xe6A", ScriptFault::NotUtf8),
    (b"a$:\xe6$", ScriptFault::NotUtf8),
    (b"a b[", ScriptFault::Substitution),
    (b"{a}b", ScriptFault::ExtraAfterBrace),
    (b"\"a\"\\b", ScriptFault::ExtraAfterQuote),
    (b"{*}b", ScriptFault::Substitution),
    (b"\\uD800", ScriptFault::BadCharacterCode),
];

fn check_early(
    rt: &impl Abort,
    alloc: Global,
    script: &[u8],
    fault: ScriptFault,
) -> Result<(), Fail> {
    let mut splitter = Splitter::new(alloc);
    splitter.feed(script)?;
    assert!(rt; meets(&mut splitter, fault), "{script:?}");
    Ok(())
}

fn check_all_early(
    rt: &impl Abort,
    alloc: Global,
    rows: &[(&[u8], ScriptFault)],
) -> Result<(), Fail> {
    for (script, fault) in rows {
        check_early(rt, alloc, script, *fault)?;
    }
    Ok(())
}

#[test]
fn faults_are_met_before_the_end(rt: HostRuntime) -> Result<(), Fail> {
    check_all_early(&rt, rt.alloc(), &EARLY)
}

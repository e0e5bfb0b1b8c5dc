//! `tktext` reads a script of text widget commands on standard input, and prints the answer or the fault of each.
#![tactic(auto)]

ghost use Rattle.std.specs.Prelude.{◌≡◌};
ghost use Rattle.text_model.specs.LimitTable.{most_chars, most_tags, most_marks, most_widgets};

use line_tree::TreeStore;
use script_cli::{Watched, outcome, run};
use std::process::ExitCode;
use text_model::Limits;

/// How many reads of up to 4,096 bytes a script may take.
const MOST_READS: u32 = 1_073_741_824;

/// The program's limits, each number the greatest.
fn limits() -> Limits
    ensures { result ≡ record {
      chars = most_chars;
      tags = most_tags;
      marks = most_marks;
      widgets = most_widgets;
      reads = 1073741824;
    } }
{
    Limits::new(
        Limits::MOST_CHARS,
        Limits::MOST_TAGS,
        Limits::MOST_MARKS,
        Limits::MOST_WIDGETS,
        MOST_READS,
    )
    .unwrap()
}

fn main(rt: HostRuntime) -> ExitCode {
    let mut source = Watched::new(rt.stdin());
    let mut sink = Watched::new(rt.stdout());
    let ended = run::<TreeStore, _, _>(rt.alloc(), &mut source, &mut sink, limits());
    let (status, words) = outcome(&ended);
    if !words.is_empty() {
        let _ = rt.eprintln(words);
    }
    ExitCode::from(status)
}

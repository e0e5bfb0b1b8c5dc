//! `tree_bench WORK COUNT LENGTH [COLUMN]` does one thing with a tree of COUNT lines of LENGTH characters, or without a
//! tree, and prints how many lines there are then, and a count of the work's own. `tools/bench_tree.py`,
//! `tools/bench_lines.py` and `tools/memory.py` measure it; `tools/tree_refusals.py` runs it with memory refused.
#![tactic(auto)]

mod counted;
mod counter;
mod lines;
mod long_line;
mod mixed;
mod nodes;
mod refused;
mod shape;
mod works;

use counted::{Counted, new_tree, whole};
use counter::Counter;
use lines::{make_lines, sum_of, text_of};
use long_line::{LineWork, work_on_line};
use mixed::{come_and_go, mix, mixed_of};
use nodes::fill_nodes;
use refused::{Refusals, ask_twice};
use segments::Line;
use std::alloc::{AllocError, Global};
use std::process::ExitCode;
use std::{env, io};
use works::{fill, insert_each, load, remove_each, walk};

/// What is done.
#[derive(Clone, Copy)]
enum Work {
    /// The lines are made and counted alone: what the others are measured from. It prints their characters.
    Lines,
    /// They are put into a tree in one call. It prints the characters of the tree, as the next three do.
    Fill,
    /// They are put in at the end, a thousand in a call, so that few stand beside the tree.
    Load,
    /// The same, and then all but one are taken out, each at a random place.
    Remove,
    /// They are put in one by one, each at a random place.
    Insert,
    /// They are put in in one call, and then each is found by its number ten times. It prints the steps of that.
    Walk,
    /// So many random splices of up to 40 lines, and then lines that come and go one by one. It prints how often the
    /// tree isn't as a plain list says.
    Mixed,
    /// Such splices, and then a hundred lines that were reserved for. It prints how often a new tree was refused, how
    /// often that reservation, and the differences.
    Refused,
    /// They are inserted into a store of nodes, which is then dropped. It prints their number, and 0.
    Nodes,
    /// COUNT times the same is done at one column of a line of LENGTH characters. It prints how long the line is then.
    Line(LineWork),
}

impl Work {
    fn parse(word: &str) -> Option<Work> {
        match word {
            "lines" => Some(Work::Lines),
            "fill" => Some(Work::Fill),
            "load" => Some(Work::Load),
            "remove" => Some(Work::Remove),
            "insert" => Some(Work::Insert),
            "walk" => Some(Work::Walk),
            "mixed" => Some(Work::Mixed),
            "refused" => Some(Work::Refused),
            "nodes" => Some(Work::Nodes),
            "line-copy" => Some(Work::Line(LineWork::Copy)),
            "line-cut" => Some(Work::Line(LineWork::Cut)),
            "line-insert" => Some(Work::Line(LineWork::Insert)),
            "line-look" => Some(Work::Line(LineWork::Look)),
            _ => None,
        }
    }
}

/// What is printed.
#[derive(Clone, Copy)]
enum Outcome {
    /// How many lines there are in the end, and the work's own count.
    Done { lines: usize, done: usize },
    Refused(Refusals),
}

fn outcome_of(counted: &Counted, ticks: &mut Counter) -> Outcome {
    Outcome::Done {
        lines: counted.count,
        done: whole(counted, ticks).characters(),
    }
}

/// Walks through the lines, and counts the steps.
fn walked(counted: &Counted, ticks: &mut Counter) -> Outcome {
    ticks.seen = 0;
    walk(counted, ticks);
    Outcome::Done {
        lines: counted.count,
        done: ticks.seen,
    }
}

fn lines_alone(alloc: Global, count: usize, text: &str) -> Result<Outcome, AllocError> {
    let lines = make_lines(alloc, count, text)?;
    let done = match sum_of(&lines) {
        Some(sum) => sum.characters(),
        None => 0,
    };
    Ok(Outcome::Done {
        lines: lines.len(),
        done,
    })
}

fn mixed_splices(alloc: Global, count: usize, length: usize) -> Result<Outcome, AllocError> {
    let mut mixed = mixed_of(alloc, new_tree(alloc)?)?;
    let ticks = &mut Counter::new();
    mix(alloc, &mut mixed, count, length, ticks)?;
    come_and_go(alloc, &mut mixed, ticks)?;
    Ok(Outcome::Done {
        lines: mixed.counted.count,
        done: mixed.differences,
    })
}

fn refused_growths(alloc: Global, count: usize, length: usize) -> Result<Outcome, AllocError> {
    let refusals = ask_twice(alloc, count, length, &mut Counter::new())?;
    Ok(Outcome::Refused(refusals))
}

fn nodes_alone(alloc: Global, count: usize, text: &str) -> Result<Outcome, AllocError> {
    fill_nodes(alloc, count, text)?;
    Ok(Outcome::Done {
        lines: count,
        done: 0,
    })
}

fn line_alone(
    alloc: Global,
    work: LineWork,
    column: usize,
    count: usize,
    text: &str,
) -> Result<Outcome, AllocError> {
    let mut line = Line::new(alloc, text)?;
    let done = work_on_line(&mut line, work, column, count)?;
    Ok(Outcome::Done {
        lines: line.len(),
        done,
    })
}

/// Does one of the works on a tree.
fn work_on(
    alloc: Global,
    counted: &mut Counted,
    work: Work,
    count: usize,
    text: &str,
) -> Result<Outcome, AllocError> {
    let ticks = &mut Counter::new();
    match work {
        Work::Insert => insert_each(alloc, counted, count, text, ticks)?,
        Work::Load => load(alloc, counted, count, text, ticks)?,
        _ => fill(alloc, counted, count, text, ticks)?,
    }
    match work {
        Work::Remove => remove_each(counted, ticks),
        Work::Walk => return Ok(walked(counted, ticks)),
        _ => {}
    }
    Ok(outcome_of(counted, ticks))
}

fn run(
    alloc: Global,
    work: Work,
    count: usize,
    length: usize,
    column: usize,
) -> Result<Outcome, AllocError> {
    let text = text_of(alloc, length)?;
    match work {
        Work::Line(work) => line_alone(alloc, work, column, count, &text),
        Work::Nodes => nodes_alone(alloc, count, &text),
        Work::Lines => lines_alone(alloc, count, &text),
        Work::Mixed => mixed_splices(alloc, count, length),
        Work::Refused => refused_growths(alloc, count, length),
        _ => work_on(alloc, &mut new_tree(alloc)?, work, count, &text),
    }
}

/// The number that a word is, else 0.
fn number(word: Option<String>) -> usize {
    word.and_then(|word| word.parse::<usize>().ok())
        .unwrap_or(0)
}

fn main(rt: HostRuntime) -> io::Result<ExitCode> {
    let mut words = env::args(&rt)?.skip(1);
    let kind = words.next().and_then(|word| Work::parse(&word));
    let count = number(words.next());
    let length = number(words.next());
    let column = number(words.next());
    let Some(work) = kind else {
        return Ok(ExitCode::from(1));
    };
    match run(rt.alloc(), work, count, length, column)? {
        Outcome::Done { lines, done } => println!(&rt; "{lines} {done}")?,
        Outcome::Refused(
            Refusals {
                trees,
                rooms,
                differences,
            },
        ) => println!(&rt; "{trees} {rooms} {differences}")?,
    }
    Ok(ExitCode::SUCCESS)
}

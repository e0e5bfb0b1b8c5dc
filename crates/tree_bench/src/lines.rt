//! Pseudo-random numbers, sample lines, and their sums with overflow checks.

ghost use Rattle.std.specs.Prelude.{◌≡◌, true, IfSome};
ghost use Rattle.toggle_sums.specs.Counts.{plus};
ghost use Rattle.line_lists.specs.Lists.{count_of};
ghost use Rattle.line_tree.specs.Changes.{FitsSum};

use segments::Line;
use std::alloc::{AllocError, Global};
use text_model::WORDS;
use toggle_sums::{Summary, Sums};

/// Numbers that look random.
#[derive(Drop)]
pub struct Numbers {
    state: u64,
}

impl Numbers {
    pub fn new() -> Numbers {
        Numbers {
            state: 0x9E37_79B9_7F4A_7C15,
        }
    }

    /// The next number, below a bound; 0 where there is none.
    pub fn below(&mut self, bound: usize) -> usize {
        let mut state = self.state;
        state ^= state << 13;
        state ^= state >> 7;
        state ^= state << 17;
        self.state = state;
        (state >> 11) as usize % bound.max(1)
    }
}

/// A text of so many characters, the last of which is a newline.
pub fn text_of(alloc: Global, length: usize) -> Result<String, AllocError> {
    let mut text = String::new(alloc);
    for _ in 1..length {
        text.push('a')?;
    }
    text.push('\n')?;
    Ok(text)
}

/// So many lines of a text.
pub fn make_lines(alloc: Global, count: usize, text: &str) -> Result<Vec<Line>, AllocError> {
    let mut lines = Vec::with_capacity(alloc, count)?;
    for _ in 0..count {
        lines.push(Line::new(alloc, text)?)?;
    }
    Ok(lines)
}

fn is_small(sum: &Sums<WORDS>) -> bool
    ensures { result ≡ true → FitsSum (plus sum.now sum.now) }
{
    let most = 1_000_000_000_000;
    sum.lines() < most && sum.characters() < most && sum.marks() < most
}

/// Whether two sums together are surely counted by numbers of 64 bits.
pub fn fit(sum: &Sums<WORDS>, more: &Sums<WORDS>) -> bool
    ensures { result ≡ true → FitsSum (plus sum.now more.now) }
{
    is_small(sum) && is_small(more)
}

/// What is counted of lines, unless they are too long.
pub fn sum_of(lines: &[Line]) -> Option<Sums<WORDS>>
    ensures { IfSome result (λ sum. sum ≡ count_of lines.now) }
{
    let mut sum = Sums::zero();
    for line in lines {
        let more = line.sum();
        if !fit(&sum, &more) {
            return None;
        }
        sum = sum.plus(&more);
    }
    Some(sum)
}

//! Reads a word as an index: its base, then its modifiers, as text(n) has them.

ghost use Rattle.std.specs.Prelude.{◌≡◌, ◌≢◌, ◌<◌, None, Some, chars, IfOk, IfErr, IfSome};
ghost use Rattle.text_model.specs.declared.limits.TheConstants.Limits.{MOST_WIDGETS};
ghost use Rattle.std.specs.Option.{option_or};
ghost use Rattle.index_grammar.specs.Grammar.{base_of, index_of, longest_front, marked, tagged};
ghost use Rattle.index_grammar.specs.Names.{known_marks, known_tags};
ghost use Rattle.index_grammar.specs.Reading.{read_of, found_of};
ghost use Rattle.index_grammar.specs.Steps.{saturated_index};
ghost use Rattle.index_grammar.specs.Reading.{HasSlot};
ghost use Rattle.index_grammar.specs.declared.faults.IndexFault.TheVariants.{Memory, BadIndex};

use crate::faults::IndexFault;
use crate::fronts::{Form, find_longest};
use crate::indices::{Base, Index};
use crate::names::Names;
use crate::places::find_place;
use crate::steps::read_steps;
use std::alloc::Global;

/// Reads the longest mark that a word begins with, else the longest tag. Returns it with what follows it.
fn find_named<'a>(word: &'a str, names: &Names) -> Option<(Base, &'a str)>
    requires { names.now.widget.0 < MOST_WIDGETS }
    ensures value { read_of (chars word.now) (option_or
        (longest_front (marked (known_marks names.now.marks.now.marks names.now.widget.0)) (chars word.now))
        (longest_front (tagged (known_tags names.now.tags.now.tags names.now.widget.0)) (chars word.now)))
        ≡ found_of result }
    ensures slot { IfSome result (λ found. HasSlot found.0) }
{
    if let Some(found) = find_longest(word, Form::Mark, names) {
        return Some(found);
    }
    find_longest(word, Form::Tag, names)
}

/// Reads the base that a word begins with (text(n), "INDICES"): a place in a line or the end, else the longest mark,
/// else the longest tag. Returns it with what follows it, which `next_modifier` reads. Numbers above the maximum of
/// `usize` read as that.
#[inline(always)]
pub fn find_base<'a>(word: &'a str, names: &Names) -> Option<(Base, &'a str)>
    requires { names.now.widget.0 < MOST_WIDGETS }
    ensures value { read_of (chars word.now) (base_of (known_marks names.now.marks.now.marks names.now.widget.0)
        (known_tags names.now.tags.now.tags names.now.widget.0) (chars word.now)) ≡ found_of result }
    ensures slot { IfSome result (λ found. HasSlot found.0) }
{
    if let Some(found) = find_place(word) {
        return Some(found);
    }
    find_named(word, names)
}

/// The index that a word is (text(n), "INDICES"). Numbers above the greatest `usize` read as that.
pub fn parse(alloc: Global, word: &str, names: &Names) -> Result<Index, IndexFault>
    requires { names.now.widget.0 < MOST_WIDGETS }
    ensures ok { IfOk result (λ index.
        saturated_index (index_of (known_marks names.now.marks.now.marks names.now.widget.0)
        (known_tags names.now.tags.now.tags names.now.widget.0) (chars word.now))
        ≡ Some (index.base, index.modifiers)) }
    ensures slot { IfOk result (λ index. HasSlot index.base) }
    ensures err { IfErr result (λ fault. fault ≢ Memory → (fault ≡ BadIndex)
        × (index_of (known_marks names.now.marks.now.marks names.now.widget.0)
        (known_tags names.now.tags.now.tags names.now.widget.0) (chars word.now) ≡ None)) }
{
    let Some((base, rest)) = find_base(word, names) else {
        return Err(IndexFault::BadIndex);
    };
    let modifiers = read_steps(alloc, rest.as_bytes())?;
    Ok(Index { base, modifiers })
}

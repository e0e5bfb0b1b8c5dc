//! The query `count`: the number of characters or lines between two places, as a list.

ghost use Rattle.std.specs.Prelude.{◌≡◌, ◌≤◌, ◌+◌, ◌++◌, ◌∷◌, [], decimal, map, string_bytes, encode_utf8_all, IfOk};
ghost use Rattle.std.specs.Prelude.{IsAscii, OnOk};
ghost use Rattle.tcl_words.specs.ListText.{list_text};
ghost use Rattle.text_index.specs.Views.{shown};
ghost use Rattle.search_dump.specs.Counts.{counted, difference, distance, number_at};
ghost use Rattle.tcl_words.specs.ListGrowth.{Goes};
ghost use Rattle.text_index.specs.Parts.{part_of};

use itoa::Buffer;
use std::alloc::{AllocError, Global};
use tcl_words::push_space;
use text_index::View;
use text_model::TextStore;

/// What `count` counts: characters, which are what indices count too, or lines.
#[derive(Clone, Copy, Debug, Default, PartialEq, Eq)]
pub enum Counted {
    #[default]
    Characters,
    Lines,
}

/// How many characters or newlines stand before a place of the view.
#[inline(always)]
fn number_at<S: TextStore>(view: &View<'_, S>, counted: Counted, place: usize) -> usize
    requires within { view.now.start + place ≤ view.now.end }
    ensures { result ≡ number_at counted (shown (part_of view.now)) place }
{
    match counted {
        Counted::Characters => place,
        Counted::Lines => view.line_of(place),
    }
}

/// Appends a number in decimals.
fn push_number(list: &mut String, number: usize) -> Result<(), AllocError>
    ensures ok { OnOk result (string_bytes list.new ≡ string_bytes list.old ++ decimal number) }
    ensures ascii { IsAscii (decimal number) }
{
    let mut digits = Buffer::new();
    let digits = digits.format(number);
    list.push_str(digits)
}

/// Appends by how much a number is above another one.
fn push_signed(list: &mut String, from: usize, to: usize) -> Result<(), AllocError>
    ensures ok { OnOk result (string_bytes list.new ≡ string_bytes list.old ++ difference from to) }
    ensures ascii { OnOk result (IsAscii (difference from to)) }
{
    if to < from {
        list.push_str("-")?;
        return push_number(list, from - to);
    }
    push_number(list, to - from)
}

/// Appends by how much a number is above another one as an element of a list, which it is as it stands.
#[inline(always)]
fn push_difference(list: &mut String, from: usize, to: usize) -> Result<(), AllocError>
    ensures { OnOk result (Goes (string_bytes list.old) (string_bytes list.new) (difference from to ∷ [])) }
{
    push_space(list)?;
    push_signed(list, from, to)?;
    Ok(())
}

/// Appends how much further one place is than another, as one option counts.
#[inline(always)]
fn push_count<S: TextStore>(
    list: &mut String,
    view: &View<'_, S>,
    option: Counted,
    from: usize,
    to: usize,
) -> Result<(), AllocError>
    requires from { view.now.start + from ≤ view.now.end }
    requires to { view.now.start + to ≤ view.now.end }
    ensures { OnOk result (Goes (string_bytes list.old) (string_bytes list.new)
        (distance (shown (part_of view.now)) from to option ∷ [])) }
{
    let first = number_at(view, option, from);
    let second = number_at(view, option, to);
    push_difference(list, first, second)
}

/// Appends how much further one place is than another, as each of the options counts.
fn push_counts<S: TextStore>(
    list: &mut String,
    view: &View<'_, S>,
    options: &[Counted],
    from: usize,
    to: usize,
) -> Result<(), AllocError>
    requires from { view.now.start + from ≤ view.now.end }
    requires to { view.now.start + to ≤ view.now.end }
    ensures { OnOk result (Goes (string_bytes list.old) (string_bytes list.new)
        (map (distance (shown (part_of view.now)) from to) options.now)) }
{
    for option in options {
        push_count(list, view, *option, from, to)?;
    }
    Ok(())
}

/// How much further one place is than another, as each of the options counts.
fn list_counts<S: TextStore>(
    alloc: Global,
    view: &View<'_, S>,
    options: &[Counted],
    from: usize,
    to: usize,
) -> Result<String, AllocError>
    requires from { view.now.start + from ≤ view.now.end }
    requires to { view.now.start + to ≤ view.now.end }
    ensures { IfOk result (λ answer. string_bytes answer ≡ encode_utf8_all (list_text
        (map (distance (shown (part_of view.now)) from to) options.now))) }
{
    let mut list = String::new(alloc);
    push_counts(&mut list, view, options, from, to)?;
    Ok(list)
}

/// How much further one place is than another, as one option counts.
#[inline(always)]
fn count_once<S: TextStore>(
    alloc: Global,
    view: &View<'_, S>,
    option: Counted,
    from: usize,
    to: usize,
) -> Result<String, AllocError>
    requires from { view.now.start + from ≤ view.now.end }
    requires to { view.now.start + to ≤ view.now.end }
    ensures { IfOk result (λ answer. string_bytes answer ≡ encode_utf8_all (list_text
        (distance (shown (part_of view.now)) from to option ∷ []))) }
{
    let mut answer = String::new(alloc);
    push_count(&mut answer, view, option, from, to)?;
    Ok(answer)
}

/// How much further one place of the view is than another (text(n), "count"): a number for each of the options, and
/// that of the characters where there is none. The number is below 0 where the second place stands before the first. As
/// the text of a list.
pub fn count<S: TextStore>(
    alloc: Global,
    view: &View<'_, S>,
    options: &[Counted],
    from: usize,
    to: usize,
) -> Result<String, AllocError>
    requires from { view.now.start + from ≤ view.now.end }
    requires to { view.now.start + to ≤ view.now.end }
    ensures { IfOk result (λ answer. string_bytes answer
        ≡ encode_utf8_all (list_text
        (counted options.now (shown (part_of view.now)) from to))) }
{
    match options {
        [] => count_once(alloc, view, Counted::Characters, from, to),
        [option] => count_once(alloc, view, *option, from, to),
        _ => list_counts(alloc, view, options, from, to),
    }
}

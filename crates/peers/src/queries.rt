//! The commands `search`, `count` and `dump`, with their switches and options.

ghost use Rattle.std.specs.Prelude.{◌≡◌, ◌≤◌, length, map, chars, option_map, IfOk, IfSome, ◌<◌};
ghost use Rattle.tcl_words.specs.Unread.{texts_of};
ghost use Rattle.documents.specs.Promise.{Gives};
ghost use Rattle.peers.specs.Queries.{count, count_words, counted_as, direction_of, dump, has_switch, listed_by};
ghost use Rattle.peers.specs.Queries.{place_behind, search, search_switches, stop_at, turned};
ghost use Rattle.peers.specs.Requests.{widget_of, words_of};
ghost use Rattle.documents.specs.Views.{shown};
ghost use Rattle.documents.specs.Documents.{widget_at};

use crate::requests::Request;
use crate::tags::place_or;
use command_effects::{Answer, Fault, is_word};
use command_table::abbreviates;
use documents::Document;
use search_dump::{Counted, Listed, SearchSwitches, Wanted};
use std::alloc::{AllocError, Global};
use text_index::Direction;
use text_model::TextStore;

/// Whether one of some words stands for a switch.
fn has_switch(name: &str, words: &[String]) -> bool
    ensures { result ≡ has_switch (chars name.now) (texts_of words.now) }
{
    for word in words {
        if abbreviates(word.as_str(), name) {
            return true;
        }
    }
    false
}

/// The direction with a switch more.
fn turned(direction: Direction, word: &str) -> Direction
    ensures { result ≡ turned direction (chars word.now) }
{
    if abbreviates(word, "-backwards") {
        Direction::Back
    } else if abbreviates(word, "-forwards") {
        Direction::Forward
    } else {
        direction
    }
}

/// The direction that the last switch for one gives.
fn direction_of(words: &[String]) -> Direction
    ensures { result ≡ direction_of (texts_of words.now) }
{
    let mut direction = Direction::Forward;
    for word in words {
        direction = turned(direction, word.as_str());
    }
    direction
}

/// Which matches are wanted.
fn wanted_by(words: &[String]) -> Wanted
    ensures { result ≡ (search_switches (texts_of words.now)).wanted }
{
    if !has_switch("-all", words) {
        Wanted::First
    } else if has_switch("-overlap", words) {
        Wanted::All
    } else {
        Wanted::Apart
    }
}

fn search_switches(words: &[String]) -> SearchSwitches
    ensures { result ≡ search_switches (texts_of words.now) }
{
    SearchSwitches {
        direction: direction_of(words),
        wanted: wanted_by(words),
        ignores_case: has_switch("-nocase", words),
        is_strict: has_switch("-strictlimits", words),
    }
}

/// What an option counts.
fn counted_as(word: &str) -> Counted
    ensures { result ≡ counted_as (chars word.now) }
{
    if is_word(word, "-lines") {
        Counted::Lines
    } else {
        Counted::Characters
    }
}

/// Returns what options count.
fn counted_options(alloc: Global, words: &[String]) -> Result<Vec<Counted>, AllocError>
    ensures { IfOk result (λ options. options.items ≡ map counted_as (texts_of words.now)) }
{
    let mut options = Vec::with_capacity(alloc, words.len())?;
    for word in words {
        options.push(counted_as(word.as_str()))?;
    }
    Ok(options)
}

/// What a dump lists.
fn listed_by(words: &[String]) -> Listed
    ensures { result ≡ listed_by (texts_of words.now) }
{
    let all = words.is_empty() || has_switch("-all", words);
    Listed {
        tags: all || has_switch("-tag", words),
        marks: all || has_switch("-mark", words),
        text: all || has_switch("-text", words),
    }
}

/// The place of a stop, if there is one.
fn stop_at<S: TextStore>(
    document: &Document<S>,
    seat: usize,
    position: usize,
    word: Option<&str>,
) -> Result<Option<usize>, Fault>
    requires shown { seat < length document.now.widgets }
    ensures value { Gives result (stop_at document.now (widget_at document.now seat) position
        (option_map (λ word. chars word.now) word.entry)) }
    ensures within { IfOk result (λ stop. IfSome stop (λ place. place
        ≤ length (shown document.now (widget_at document.now seat)))) }
{
    match word {
        None => Ok(None),
        Some(word) => Ok(Some(document.place_at(seat, position, word)?)),
    }
}

/// `W search ?switch ..? pattern I ?J?` (text(n), "search").
pub fn search<S: TextStore>(document: &Document<S>, request: &Request<'_>) -> Result<Answer, Fault>
    requires shown { request.now.caller.seat < length document.now.widgets }
    ensures { Gives result
        (search document.now (widget_of document.now request.now) (texts_of request.now.switches.now)
        request.now.position (words_of request.now)) }
{
    let (pattern, first, last) = request.two_or_three()?;
    let seat = request.caller.seat;
    let from = document.place_at(seat, request.position + 1, first)?;
    let stop = stop_at(document, seat, request.position + 2, last)?;
    let switches = search_switches(request.switches);
    let list = document.matches_of(seat, switches, pattern, from, stop)?;
    Ok(Answer::Text(list))
}

/// `W count ?option ..? A B`, by what its options count and its two indices.
fn count_as<S: TextStore>(
    document: &mut Document<S>,
    request: &Request<'_>,
    options: &[Counted],
    first: &str,
    second: &str,
) -> Result<Answer, Fault>
    requires shown { request.now.caller.seat < length document.old.widgets }
    ensures same { document.new ≡ document.old }
    ensures value { Gives result (count_words document.old (widget_of document.old request.now) options.now
        request.now.position (chars first.now, chars second.now)) }
{
    let seat = request.caller.seat;
    let from = document.seek(seat, request.position, first)?;
    let to = document.seek(seat, request.position + 1, second)?;
    Ok(Answer::Text(document.counts_of(seat, options, from, to)?))
}

/// `W count ?option ..? A B` (text(n), "count"). One option is kept without an allocation.
#[inline(always)]
pub fn count<S: TextStore>(
    document: &mut Document<S>,
    request: &Request<'_>,
) -> Result<Answer, Fault>
    requires shown { request.now.caller.seat < length document.old.widgets }
    ensures same { document.new ≡ document.old }
    ensures value { Gives result
        (count document.old (widget_of document.old request.now) (texts_of request.now.switches.now)
        request.now.position (words_of request.now)) }
{
    let (first, second) = request.two()?;
    match request.switches {
        [] => count_as(document, request, &[], first, second),
        [option] => count_as(
            document,
            request,
            &[counted_as(option.as_str())],
            first,
            second,
        ),
        options => {
            let options = counted_options(document.allocator(), options)?;
            count_as(document, request, &options, first, second)
        }
    }
}

/// The place after that of a character, or the end.
fn place_behind<S: TextStore>(document: &Document<S>, seat: usize, place: usize) -> usize
    requires shown { seat < length document.now.widgets }
    requires within { place ≤ length (shown document.now (widget_at document.now seat)) }
    ensures value { result ≡ place_behind document.now (widget_at document.now seat) place }
    ensures within { result ≤ length (shown document.now (widget_at document.now seat)) }
{
    let len = document.shown_len(seat);
    if place < len { place + 1 } else { len }
}

/// `W dump ?switch ..? A ?B?` (text(n), "dump").
pub fn dump<S: TextStore>(document: &Document<S>, request: &Request<'_>) -> Result<Answer, Fault>
    requires shown { request.now.caller.seat < length document.now.widgets }
    ensures { Gives result
        (dump document.now (widget_of document.now request.now) (texts_of request.now.switches.now)
        request.now.position (words_of request.now)) }
{
    let (first, last) = request.one_or_two()?;
    let seat = request.caller.seat;
    let from = document.place_at(seat, request.position, first)?;
    let behind = place_behind(document, seat, from);
    let to = place_or(document, seat, behind, request.position + 1, last)?;
    let listed = listed_by(request.switches);
    Ok(Answer::Text(document.elements_of(seat, listed, from, to)?))
}

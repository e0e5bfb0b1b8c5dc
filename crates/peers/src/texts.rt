//! The commands `insert` and `get`.

ghost use Rattle.std.specs.Prelude.{◌≡◌, ◌∷◌, ◌≤◌, ◌<◌, [], None, Ok, chars, length, filter, IfOk, IfSome};
ghost use Rattle.tcl_words.specs.ListText.{list_text};
ghost use Rattle.std.specs.List.{All};
ghost use Rattle.documents.specs.Documents.{widget_at};
ghost use Rattle.documents.specs.Views.{shown};
ghost use Rattle.documents.specs.Promise.{Gives, Does};
ghost use Rattle.documents.specs.Told.{reply_of, IsTold};
ghost use Rattle.peers.specs.Requests.{widget_of, words_of};
ghost use Rattle.peers.specs.Texts.{insert, inserted_at, texts_of_places, got, get};
ghost use Rattle.documents.specs.Listing.{is_filled};

use crate::ranges::places_at;
use crate::requests::Request;
use command_effects::{Answer, Fault, pairs_at};
use documents::{Document, EditTold, push_filled};
use std::alloc::AllocError;
use text_model::{Text, TextStore};

/// Inserts a text without a tag list at an offset of the document, in characters, if there is one. Returns what that
/// changes.
fn insert_word<S: TextStore>(
    document: &mut Document<S>,
    request: &Request<'_>,
    at: Option<usize>,
    text: &str,
) -> Result<EditTold, Fault>
    requires shown { request.now.caller.seat < length document.old.widgets }
    requires within { IfSome at (λ at. at < length document.old.cells) }
    ensures does { Does request.now.caller.limits.now document.old document.new (reply_of result)
        (inserted_at request.now.caller.limits.now document.old (widget_of document.old request.now) at
        (record { text = chars text.now; names = None } ∷ [])) }
    ensures told { IsTold request.now.caller.follows
        (inserted_at request.now.caller.limits.now document.old (widget_of document.old request.now) at
        (record { text = chars text.now; names = None } ∷ [])) document.old document.new result }
{
    match at {
        Some(offset) => document.insert_text(&request.caller, offset, text),
        None => Ok(EditTold::nothing(document.allocator())),
    }
}

/// `W insert I chars ?tagList chars ..?` (text(n), "insert"): inserts texts at a place, or just before the last newline
/// where that is the end, unless the widget is disabled. Returns what that changes.
pub fn insert<S: TextStore>(
    document: &mut Document<S>,
    request: &Request<'_>,
) -> Result<EditTold, Fault>
    requires shown { request.now.caller.seat < length document.old.widgets }
    ensures does { Does request.now.caller.limits.now document.old document.new (reply_of result)
        (insert request.now.caller.limits.now document.old (widget_of document.old request.now) request.now.position
        (words_of request.now)) }
    ensures told { IsTold request.now.caller.follows
        (insert request.now.caller.limits.now document.old (widget_of document.old request.now) request.now.position
        (words_of request.now)) document.old document.new result }
{
    let (index, words) = request.one_or_more()?;
    let at = document.insertion_at(request.caller.seat, request.position, index)?;
    if let [word] = words {
        return insert_word(document, request, at, word.as_str());
    }
    let pairs = pairs_at(document.allocator(), request.position + 1, words)?;
    match at {
        Some(offset) => document.insert_at(&request.caller, offset, pairs),
        None => Ok(EditTold::nothing(document.allocator())),
    }
}

/// The texts of ranges as a list, without those that are empty.
fn got_list<S: TextStore>(
    document: &Document<S>,
    seat: usize,
    places: &[usize],
) -> Result<Text, AllocError>
    requires shown { seat < length document.now.widgets }
    requires within { All (λ place. place ≤ length (shown document.now (widget_at document.now seat))) places.now }
    ensures { IfOk result (λ list. list
        ≡ list_text (filter is_filled (texts_of_places document.now (widget_at document.now seat) places.now))) }
{
    let mut list = String::new(document.allocator());
    let mut rest = places;
    while rest.len() >= 2 {
        push_filled(&mut list, document.text_between(seat, rest[0], rest[1])?)?;
        rest = &rest[2..];
    }
    if rest.is_empty() {
        return Ok(Text::new(list));
    }
    push_filled(&mut list, document.character_at(seat, rest[0])?)?;
    Ok(Text::new(list))
}

/// The text of the places of ranges.
fn got<S: TextStore>(document: &Document<S>, seat: usize, places: &[usize]) -> Result<Answer, Fault>
    requires shown { seat < length document.now.widgets }
    requires within { All (λ place. place ≤ length (shown document.now (widget_at document.now seat))) places.now }
    ensures { Gives result (Ok (got document.now (widget_at document.now seat) places.now)) }
{
    if places.len() > 2 {
        return Ok(Answer::Text(got_list(document, seat, places)?));
    }
    if places.len() == 2 {
        return Ok(Answer::Text(document.text_between(seat, places[0], places[1])?));
    }
    if places.len() == 1 {
        return Ok(Answer::Text(document.character_at(seat, places[0])?));
    }
    Ok(Answer::Text(Text::new(String::new(document.allocator()))))
}

/// `W get I ?I ..?` (text(n), "get").
pub fn get<S: TextStore>(document: &mut Document<S>, request: &Request<'_>) -> Result<Answer, Fault>
    requires shown { request.now.caller.seat < length document.old.widgets }
    ensures same { document.new ≡ document.old }
    ensures value { Gives result
        (get document.old (widget_of document.old request.now) request.now.position (words_of request.now)) }
{
    let seat = request.caller.seat;
    let places = places_at(document, seat, request.position, request.arguments)?;
    got(document, seat, &places)
}

//! The commands `delete` and `replace`.

ghost use Rattle.std.specs.Prelude.{length, ◌<◌};
ghost use Rattle.text_model.specs.LimitTable.{LimitTable};
ghost use Rattle.peers.specs.Deletions.{delete, replace};
ghost use Rattle.peers.specs.Requests.{widget_of, words_of};
ghost use Rattle.documents.specs.Promise.{Does};
ghost use Rattle.documents.specs.Told.{reply_of, IsTold};

use crate::ranges::places_at;
use crate::requests::Request;
use command_effects::{Fault, pairs_at};
use documents::{Document, EditTold};
use text_model::TextStore;

/// `W delete I ?I ..?` (text(n), "delete"): deletes the ranges between pairs of places, unless the widget is disabled.
/// Returns what that changes.
pub fn delete<S: TextStore>(
    document: &mut Document<S>,
    request: &Request<'_>,
) -> Result<EditTold, Fault>
    requires shown { request.now.caller.seat < length document.old.widgets }
    ensures does { (limits : LimitTable) → Does limits document.old document.new (reply_of result)
        (delete document.old (widget_of document.old request.now) request.now.position (words_of request.now)) }
    ensures told { IsTold request.now.caller.follows
        (delete document.old (widget_of document.old request.now) request.now.position (words_of request.now))
        document.old document.new result }
{
    let seat = request.caller.seat;
    let places = places_at(document, seat, request.position, request.arguments)?;
    if document.is_idle(seat) {
        return Ok(EditTold::nothing(document.allocator()));
    }
    document.delete_places(&request.caller, &places)
}

/// `W replace A B chars ?tagList chars ..?` (text(n), "replace"): replaces the characters between two places by texts,
/// unless the widget is disabled. Returns what that changes.
pub fn replace<S: TextStore>(
    document: &mut Document<S>,
    request: &Request<'_>,
) -> Result<EditTold, Fault>
    requires shown { request.now.caller.seat < length document.old.widgets }
    ensures does { Does request.now.caller.limits.now document.old document.new (reply_of result)
        (replace request.now.caller.limits.now document.old (widget_of document.old request.now) request.now.position
        (words_of request.now)) }
    ensures told { IsTold request.now.caller.follows
        (replace request.now.caller.limits.now document.old (widget_of document.old request.now) request.now.position
        (words_of request.now)) document.old document.new result }
{
    let (first, second, words) = request.two_or_more()?;
    let seat = request.caller.seat;
    let from = document.place_at(seat, request.position, first)?;
    let to = document.place_at(seat, request.position + 1, second)?;
    let pairs = pairs_at(document.allocator(), request.position + 2, words)?;
    if to < from {
        return Err(Fault::IndexOrder(request.position + 1));
    }
    if document.is_idle(seat) {
        return Ok(EditTold::nothing(document.allocator()));
    }
    document.replace_between(&request.caller, from, to, pairs)
}

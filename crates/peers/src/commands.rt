//! Dispatches a command of a widget, except `peer create`, to the function that carries it out.

ghost use Rattle.std.specs.Prelude.{◌≡◌, ◌≢◌, ◌<◌, ℕ, true, false, [], List, length, Err, IfOk};
ghost use Rattle.documents.specs.Promise.{Does};
ghost use Rattle.peers.specs.Commands.{done, is_frugal, is_told};
ghost use Rattle.peers.specs.Requests.{called};
ghost use Rattle.peers.specs.Told.{answer_of, AreTold};
ghost use Rattle.command_table.specs.declared.commands.Command.TheVariants.{PeerCreate};
ghost use Rattle.command_effects.specs.declared.answers.Fault.TheVariants.{Memory};
ghost use Rattle.documents.specs.WellFormed.{IsWellFormedDocument};

use crate::deletions::{delete, replace};
use crate::history::edit_modified;
use crate::indices::{compare, index};
use crate::marks::{mark_gravity, mark_names, mark_next, mark_previous, mark_set};
use crate::options::{cget, configure};
use crate::queries::{count, dump, search};
use crate::requests::Request;
use crate::tags::{
    tag_add, tag_lower, tag_names, tag_nextrange, tag_prevrange, tag_raise, tag_ranges, tag_remove,
};
use crate::texts::{get, insert};
use crate::told::{Told, answered, edited};
use crate::widgets::peer_names;
use command_effects::{Answer, Fault};
use command_table::Command;
use documents::Document;
use text_model::TextStore;

/// A command of a widget that edits neither the text nor its tags, but `peer create`.
#[inline(always)]
fn answer<S: TextStore>(
    document: &mut Document<S>,
    command: Command,
    request: &Request<'_>,
) -> Result<Answer, Fault>
    requires shown { request.now.caller.seat < length document.old.widgets }
    requires own { command ≢ PeerCreate }
    requires quiet { is_told command ≡ false }
    ensures does { (windows : List (List ℕ)) → Does request.now.caller.limits.now document.old document.new result
        (done command document.old (called windows document.old request.now)) }
    ensures frugal { is_frugal command ≡ true → result ≢ Err Memory }
{
    match command {
        Command::Get => get(document, request),
        Command::Index => index(document, request),
        Command::Compare => compare(document, request),
        Command::MarkSet => mark_set(document, request),
        Command::MarkUnset => document.unset_marks(request.arguments),
        Command::MarkGravity => mark_gravity(document, request),
        Command::MarkNames => mark_names(document),
        Command::MarkNext => mark_next(document, request),
        Command::MarkPrevious => mark_previous(document, request),
        Command::TagNames => tag_names(document, request),
        Command::TagRanges => tag_ranges(document, request),
        Command::TagNextRange => tag_nextrange(document, request),
        Command::TagPreviousRange => tag_prevrange(document, request),
        Command::TagRaise => tag_raise(document, request),
        Command::TagLower => tag_lower(document, request),
        Command::Configure => configure(document, request),
        Command::Cget => cget(document, request),
        Command::EditModified => edit_modified(document, request),
        Command::EditReset => Ok(document.edit_reset()),
        Command::EditSeparator => Ok(document.edit_separator()),
        Command::Search => search(document, request),
        Command::Count => count(document, request),
        Command::Dump => dump(document, request),
        Command::PeerNames => peer_names(document, request.caller.seat),
        Command::Text | Command::Destroy => Err(Fault::BadOption(1)),
        Command::Insert | Command::Delete | Command::Replace => unreachable!(),
        Command::EditUndo | Command::EditRedo => unreachable!(),
        Command::TagAdd | Command::TagRemove | Command::TagDelete => unreachable!(),
        Command::PeerCreate => unreachable!(),
    }
}

/// A command of a widget but `peer create`. Returns its answer and its report.
#[inline(always)]
pub fn carry_out<S: TextStore>(
    document: &mut Document<S>,
    command: Command,
    request: &Request<'_>,
) -> Result<Told, Fault>
    requires shown { request.now.caller.seat < length document.old.widgets }
    requires formed { IsWellFormedDocument request.now.caller.limits.now document.old }
    requires own { command ≢ PeerCreate }
    ensures does { (windows : List (List ℕ)) → Does request.now.caller.limits.now document.old document.new
        (answer_of result) (done command document.old (called windows document.old request.now)) }
    ensures tells { (windows : List (List ℕ)) → AreTold request.now.caller.follows
        (done command document.old (called windows document.old request.now)) document.old document.new result }
    ensures unmarked { IfOk result (λ told. told.marks ≡ []) }
    ensures frugal { is_frugal command ≡ true → result ≢ Err Memory }
{
    let alloc = document.allocator();
    match command {
        Command::Insert => edited(alloc, insert(document, request)),
        Command::Delete => edited(alloc, delete(document, request)),
        Command::Replace => edited(alloc, replace(document, request)),
        Command::EditUndo => edited(alloc, document.edit_undo(&request.caller)),
        Command::EditRedo => edited(alloc, document.edit_redo(&request.caller)),
        Command::TagAdd => edited(alloc, tag_add(document, request)),
        Command::TagRemove => edited(alloc, tag_remove(document, request)),
        Command::TagDelete => edited(
            alloc,
            document.delete_tags(&request.caller, request.arguments),
        ),
        _ => answered(alloc, answer(document, command, request)),
    }
}

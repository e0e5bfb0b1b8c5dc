//! Worlds of text widgets for C: each export is a call of `handles`. What C owes is in include/tktext.h.
#![tactic(auto)]

ghost use Rattle.std.specs.Prelude.{◌≡◌, Bool, Option, None, min, length, option_map};
ghost use Rattle.text_model.specs.LimitTable.{most_chars, most_tags, most_marks, most_widgets};
ghost use Rattle.peers.specs.History.{can_redo_by, can_undo_by};
ghost use Rattle.handles.specs.Calls.{Makes, Calls, Feeds, Takes, Tells, finished};
ghost use Rattle.handles.specs.Codes.{make_code, move_code, call_code, feed_code, flag_code, turn_code, told_code};
ghost use Rattle.handles.specs.Codes.{gravity_code, offset_code};
ghost use Rattle.handles.specs.Handles.{reported, state, status_of, said_of};
ghost use Rattle.handles.specs.Room.{over};
ghost use Rattle.handles.specs.Told.{told_of, mark_told, place_told, spot_told, text_told, word_given, words_of};
ghost use Rattle.handles.specs.Told.{span_told, tag_told, widget_told, CallsTold, MakesReport, MovesReport};
ghost use Rattle.handles.specs.Told.{mark_place_told, owner_told, Concerns, MarkConcerns, TakesTold};

use handles::ends::{
    CallEnd, FeedEnd, MakeEnd, MoveEnd, TurnEnd, Way, code_of_flag, code_of_gravity, code_of_told,
    offset_of_place,
};
use handles::{Handle, ReportHandle};
use std::alloc::Global;
use text_model::Limits;

/// Makes a world without documents, of these limits, in an empty handle.
#[unsafe(no_mangle)]
pub extern "C" fn tktext_new(
    alloc: Global,
    handle: &mut Handle,
    chars: usize,
    tags: u16,
    marks: u16,
    widgets: u16,
) -> i32
    ensures { (ended : MakeEnd) × (result ≡ make_code ended) × Makes (state handle.old)
        (record { chars = chars; tags = tags; marks = marks; widgets = widgets; reads = 0 }) (state handle.new) ended }
{
    handle.make(alloc, chars, tags, marks, widgets).code()
}

/// The same with the program's limits, each the greatest.
#[unsafe(no_mangle)]
pub extern "C" fn tktext_new_greatest(alloc: Global, handle: &mut Handle) -> i32
    ensures { (ended : MakeEnd) × (result ≡ make_code ended) × Makes (state handle.old)
        (record { chars = most_chars; tags = most_tags; marks = most_marks; widgets = most_widgets; reads = 0 })
        (state handle.new) ended }
{
    tktext_new(
        alloc,
        handle,
        Limits::MOST_CHARS,
        Limits::MOST_TAGS,
        Limits::MOST_MARKS,
        Limits::MOST_WIDGETS,
    )
}

/// Carries out a command. The bytes of its words follow one another.
#[unsafe(no_mangle)]
pub extern "C" fn tktext_call(
    alloc: Global,
    handle: &mut Handle,
    bytes: &[u8],
    lengths: &[usize],
) -> i32
    ensures { (ended : CallEnd) × (result ≡ call_code ended)
        × Calls (state handle.old) lengths.now bytes.now (state handle.new) ended }
{
    handle.call(alloc, false, false, bytes, lengths).code()
}

/// Copies what was said last to the front of the room, as far as it goes, and gives the length of all.
#[unsafe(no_mangle)]
pub extern "C" fn tktext_said(alloc: Global, handle: &mut Handle, room: &mut [u8]) -> usize
    ensures length { result ≡ min (length (said_of (state handle.old))) usize.MAX }
    ensures copied { room.new ≡ over (said_of (state handle.old)) room.old }
    ensures unchanged { state handle.new ≡ state handle.old }
{
    handle.copy_said(alloc, room)
}

/// Carries out a command as `tktext_call` does, and keeps a report of what it changed of the text that its widget
/// shows, with its marks where `marks` asks for them.
#[unsafe(no_mangle)]
pub extern "C" fn tktext_call_told(
    alloc: Global,
    handle: &mut Handle,
    marks: bool,
    bytes: &[u8],
    lengths: &[usize],
) -> i32
    ensures { (ended : CallEnd) × (result ≡ call_code ended)
        × CallsTold marks (state handle.old) lengths.now bytes.now (state handle.new) ended }
{
    handle.call(alloc, true, marks, bytes, lengths).code()
}

/// Copies a word of the command that was given last to the front of the room, as far as it goes, and gives the length
/// of all.
#[unsafe(no_mangle)]
pub extern "C" fn tktext_word(
    alloc: Global,
    handle: &mut Handle,
    index: usize,
    room: &mut [u8],
) -> usize
    ensures length { result ≡ min (length (word_given (words_of (state handle.old)) index)) usize.MAX }
    ensures copied { room.new ≡ over (word_given (words_of (state handle.old)) index) room.old }
    ensures unchanged { state handle.new ≡ state handle.old }
{
    handle.copy_word(alloc, index, room)
}

/// Makes an empty report.
#[unsafe(no_mangle)]
pub extern "C" fn tktext_report_new(alloc: Global, report: &mut ReportHandle) -> i32
    ensures { (ended : MakeEnd) × (result ≡ make_code ended)
        × MakesReport (reported report.old) (reported report.new) ended }
{
    report.make(alloc).code()
}

/// Moves what the last call that reports changed out of a world into a report, and leaves the world none.
#[unsafe(no_mangle)]
pub extern "C" fn tktext_take_report(
    alloc: Global,
    handle: &mut Handle,
    report: &mut ReportHandle,
) -> i32
    ensures { (ended : MoveEnd) × (result ≡ move_code ended)
        × MovesReport (state handle.old) (reported report.old) (state handle.new) (reported report.new) ended }
{
    handle.move_report(alloc, report).code()
}

/// Drops the report, if there is one, and leaves it empty.
#[unsafe(no_mangle)]
pub extern "C" fn tktext_report_drop(alloc: Global, report: &mut ReportHandle)
    ensures { reported report.new ≡ None }
{
    report.clear(alloc);
}

/// Returns 1 if a report that was just moved out of a world concerns the widget of a name: if the widget shows the text
/// of the command's widget, or a text that lost a widget by `destroy`; else 0.
#[unsafe(no_mangle)]
pub extern "C" fn tktext_told_to(
    alloc: Global,
    handle: &mut Handle,
    report: &mut ReportHandle,
    widget: &[u8],
) -> i32
    ensures told { (told : Bool) × (result ≡ flag_code told)
        × Concerns (state handle.old) (reported report.old) widget.now told }
    ensures unchanged { state handle.new ≡ state handle.old }
    ensures kept { reported report.new ≡ reported report.old }
{
    code_of_flag(handle.concerns(alloc, report, widget))
}

/// Returns the number of a report's changes of the text.
#[unsafe(no_mangle)]
pub extern "C" fn tktext_told(alloc: Global, report: &mut ReportHandle) -> usize
    ensures count { result ≡ length (told_of (reported report.old)).changes }
    ensures unchanged { reported report.new ≡ reported report.old }
{
    report.count_changes(alloc)
}

/// Returns the offset of one of these changes, in characters; 0 if there is no such change.
#[unsafe(no_mangle)]
pub extern "C" fn tktext_told_at(alloc: Global, report: &mut ReportHandle, index: usize) -> usize
    ensures place { result ≡ (place_told (told_of (reported report.old)).changes index).0 }
    ensures unchanged { reported report.new ≡ reported report.old }
{
    report.change_place(alloc, index).0
}

/// Returns the number of characters that it deleted; 0 if there is no such change.
#[unsafe(no_mangle)]
pub extern "C" fn tktext_told_removed(
    alloc: Global,
    report: &mut ReportHandle,
    index: usize,
) -> usize
    ensures count { result ≡ (place_told (told_of (reported report.old)).changes index).1 }
    ensures unchanged { reported report.new ≡ reported report.old }
{
    report.change_place(alloc, index).1
}

/// Copies the prefix of its inserted text that fits into the buffer, and returns the text's length.
#[unsafe(no_mangle)]
pub extern "C" fn tktext_told_inserted(
    alloc: Global,
    report: &mut ReportHandle,
    index: usize,
    room: &mut [u8],
) -> usize
    ensures length { result ≡ min (length (text_told (told_of (reported report.old)).changes index)) usize.MAX }
    ensures copied { room.new ≡ over (text_told (told_of (reported report.old)).changes index) room.old }
    ensures unchanged { reported report.new ≡ reported report.old }
{
    report.copy_inserted(alloc, index, room)
}

/// Returns the line, from 1, of an end of a change: of its start (0), of the end of what it deleted, in the text before
/// it (1), or of the end of what it inserted, in the text after it (2); 0 if there is no such change.
#[unsafe(no_mangle)]
pub extern "C" fn tktext_told_line(
    alloc: Global,
    report: &mut ReportHandle,
    index: usize,
    end: usize,
) -> usize
    ensures line { result ≡ (spot_told (told_of (reported report.old)).changes index end).line }
    ensures unchanged { reported report.new ≡ reported report.old }
{
    report.change_spot(alloc, index, end).line
}

/// Returns the number of characters in that line before that end.
#[unsafe(no_mangle)]
pub extern "C" fn tktext_told_column(
    alloc: Global,
    report: &mut ReportHandle,
    index: usize,
    end: usize,
) -> usize
    ensures column { result ≡ (spot_told (told_of (reported report.old)).changes index end).column }
    ensures unchanged { reported report.new ≡ reported report.old }
{
    report.change_spot(alloc, index, end).column
}

/// Returns the number of bytes of UTF-8 in that line before that end.
#[unsafe(no_mangle)]
pub extern "C" fn tktext_told_bytes(
    alloc: Global,
    report: &mut ReportHandle,
    index: usize,
    end: usize,
) -> usize
    ensures bytes { result ≡ (spot_told (told_of (reported report.old)).changes index end).bytes }
    ensures unchanged { reported report.new ≡ reported report.old }
{
    report.change_spot(alloc, index, end).bytes
}

/// Returns the number of units of UTF-16 in that line before that end.
#[unsafe(no_mangle)]
pub extern "C" fn tktext_told_units(
    alloc: Global,
    report: &mut ReportHandle,
    index: usize,
    end: usize,
) -> usize
    ensures units { result ≡ (spot_told (told_of (reported report.old)).changes index end).units }
    ensures unchanged { reported report.new ≡ reported report.old }
{
    report.change_spot(alloc, index, end).units
}

/// Returns the number of a report's changes of tags, which are applied in order, after the changes of the text.
#[unsafe(no_mangle)]
pub extern "C" fn tktext_told_tags(alloc: Global, report: &mut ReportHandle) -> usize
    ensures count { result ≡ length (told_of (reported report.old)).tags }
    ensures unchanged { reported report.new ≡ reported report.old }
{
    report.count_tags(alloc)
}

/// Copies the prefix of the name of such a change's tag that fits into the buffer, and returns the name's length.
#[unsafe(no_mangle)]
pub extern "C" fn tktext_told_tag(
    alloc: Global,
    report: &mut ReportHandle,
    index: usize,
    room: &mut [u8],
) -> usize
    ensures length { result ≡ min (length (tag_told (told_of (reported report.old)).tags index)) usize.MAX }
    ensures copied { room.new ≡ over (tag_told (told_of (reported report.old)).tags index) room.old }
    ensures unchanged { reported report.new ≡ reported report.old }
{
    report.copy_tag(alloc, index, room)
}

/// Copies the name of the widget whose `sel` the tag is in the same way; nothing for any other tag.
#[unsafe(no_mangle)]
pub extern "C" fn tktext_told_tag_widget(
    alloc: Global,
    report: &mut ReportHandle,
    index: usize,
    room: &mut [u8],
) -> usize
    ensures length { result ≡ min (length (widget_told (told_of (reported report.old)).tags index)) usize.MAX }
    ensures copied { room.new ≡ over (widget_told (told_of (reported report.old)).tags index) room.old }
    ensures unchanged { reported report.new ≡ reported report.old }
{
    report.copy_tag_widget(alloc, index, room)
}

/// Returns the offset, in characters, at which a change of a tag starts; 0 if there is no such change.
#[unsafe(no_mangle)]
pub extern "C" fn tktext_told_tag_from(
    alloc: Global,
    report: &mut ReportHandle,
    index: usize,
) -> usize
    ensures from { result ≡ (span_told (told_of (reported report.old)).tags index).0 }
    ensures unchanged { reported report.new ≡ reported report.old }
{
    report.tag_span(alloc, index).0
}

/// Returns the offset, in characters, at which it ends; 0 if there is no such change.
#[unsafe(no_mangle)]
pub extern "C" fn tktext_told_tag_to(
    alloc: Global,
    report: &mut ReportHandle,
    index: usize,
) -> usize
    ensures to { result ≡ (span_told (told_of (reported report.old)).tags index).1 }
    ensures unchanged { reported report.new ≡ reported report.old }
{
    report.tag_span(alloc, index).1
}

/// Returns 1 if it adds the tag, and 0 if it removes the tag or there is no such change.
#[unsafe(no_mangle)]
pub extern "C" fn tktext_told_tag_on(alloc: Global, report: &mut ReportHandle, index: usize) -> i32
    ensures on { result ≡ flag_code (span_told (told_of (reported report.old)).tags index).2 }
    ensures unchanged { reported report.new ≡ reported report.old }
{
    code_of_flag(report.tag_span(alloc, index).2)
}

/// Returns the number of marks of a report: those that its changes of the text alone don't take to where they are.
#[unsafe(no_mangle)]
pub extern "C" fn tktext_told_marks(alloc: Global, report: &mut ReportHandle) -> usize
    ensures count { result ≡ length (told_of (reported report.old)).marks }
    ensures unchanged { reported report.new ≡ reported report.old }
{
    report.count_marks(alloc)
}

/// Copies the prefix of the name of one of these marks that fits into the buffer, and returns the name's length.
#[unsafe(no_mangle)]
pub extern "C" fn tktext_told_mark(
    alloc: Global,
    report: &mut ReportHandle,
    index: usize,
    room: &mut [u8],
) -> usize
    ensures length { result ≡ min (length (mark_told (told_of (reported report.old)).marks index)) usize.MAX }
    ensures copied { room.new ≡ over (mark_told (told_of (reported report.old)).marks index) room.old }
    ensures unchanged { reported report.new ≡ reported report.old }
{
    report.copy_mark(alloc, index, room)
}

/// Copies the name of the widget whose `insert` or `current` the mark is in the same way; nothing for any other mark.
#[unsafe(no_mangle)]
pub extern "C" fn tktext_told_mark_widget(
    alloc: Global,
    report: &mut ReportHandle,
    index: usize,
    room: &mut [u8],
) -> usize
    ensures length { result ≡ min (length (owner_told (told_of (reported report.old)).marks index)) usize.MAX }
    ensures copied { room.new ≡ over (owner_told (told_of (reported report.old)).marks index) room.old }
    ensures unchanged { reported report.new ≡ reported report.old }
{
    report.copy_mark_widget(alloc, index, room)
}

/// Returns the offset of a mark, in characters, before the command (0) or after it (1); `usize::MAX` if the mark isn't
/// there, or there is no such mark.
#[unsafe(no_mangle)]
pub extern "C" fn tktext_told_mark_at(
    alloc: Global,
    report: &mut ReportHandle,
    index: usize,
    end: usize,
) -> usize
    ensures offset { result ≡ offset_code (mark_place_told (told_of (reported report.old)).marks index end) }
    ensures unchanged { reported report.new ≡ reported report.old }
{
    offset_of_place(report.mark_place(alloc, index, end))
}

/// Returns the gravity of a mark there: 0 for right, 1 for left, and -1 if the mark isn't there, or there is no such
/// mark.
#[unsafe(no_mangle)]
pub extern "C" fn tktext_told_mark_gravity(
    alloc: Global,
    report: &mut ReportHandle,
    index: usize,
    end: usize,
) -> i32
    ensures gravity { result ≡ gravity_code (mark_place_told (told_of (reported report.old)).marks index end) }
    ensures unchanged { reported report.new ≡ reported report.old }
{
    code_of_gravity(report.mark_place(alloc, index, end))
}

/// Returns 1 if a mark concerns the widget of a name, which the report concerns: of `destroy` a mark of its text, and
/// else any; 0 if there is no such mark.
#[unsafe(no_mangle)]
pub extern "C" fn tktext_told_mark_to(
    alloc: Global,
    report: &mut ReportHandle,
    index: usize,
    widget: &[u8],
) -> i32
    ensures told { (told : Bool) × (result ≡ flag_code told)
        × MarkConcerns (reported report.old) index widget.now told }
    ensures unchanged { reported report.new ≡ reported report.old }
{
    code_of_flag(report.concerns_mark(alloc, index, widget))
}

/// Whether `edit undo` would find something to undo in the text that the widget of a name shows: 1 or 0, and -1 where
/// there is no such widget.
#[unsafe(no_mangle)]
pub extern "C" fn tktext_can_undo(alloc: Global, handle: &mut Handle, widget: &[u8]) -> i32
    ensures told { (told : Option Bool) × (result ≡ told_code told)
        × Tells can_undo_by (state handle.old) widget.now told }
    ensures unchanged { state handle.new ≡ state handle.old }
{
    code_of_told(handle.can(alloc, Way::Undo, widget))
}

/// Whether `edit redo` would find something to redo there, in the same numbers.
#[unsafe(no_mangle)]
pub extern "C" fn tktext_can_redo(alloc: Global, handle: &mut Handle, widget: &[u8]) -> i32
    ensures told { (told : Option Bool) × (result ≡ told_code told)
        × Tells can_redo_by (state handle.old) widget.now told }
    ensures unchanged { state handle.new ≡ state handle.old }
{
    code_of_told(handle.can(alloc, Way::Redo, widget))
}

/// Takes the next bytes of a script.
#[unsafe(no_mangle)]
pub extern "C" fn tktext_feed(alloc: Global, handle: &mut Handle, bytes: &[u8]) -> i32
    ensures { (ended : FeedEnd) × (result ≡ feed_code ended)
        × Feeds (state handle.old) bytes.now (state handle.new) ended }
{
    handle.feed(alloc, bytes).code()
}

/// Ends the script, and so its last command.
#[unsafe(no_mangle)]
pub extern "C" fn tktext_finish(alloc: Global, handle: &mut Handle)
    ensures { state handle.new ≡ option_map finished (state handle.old) }
{
    handle.finish(alloc);
}

/// Carries out the next command of the script, if all of it was fed.
#[unsafe(no_mangle)]
pub extern "C" fn tktext_next(alloc: Global, handle: &mut Handle) -> i32
    ensures { (ended : TurnEnd) × (result ≡ turn_code ended) × Takes (state handle.old) (state handle.new) ended }
{
    handle.take_turn(alloc, false, false).code()
}

/// The same, and keeps a report of what it changed of the text that the command's widget shows, with its marks where
/// `marks` asks for them.
#[unsafe(no_mangle)]
pub extern "C" fn tktext_next_told(alloc: Global, handle: &mut Handle, marks: bool) -> i32
    ensures { (ended : TurnEnd) × (result ≡ turn_code ended)
        × TakesTold marks (state handle.old) (state handle.new) ended }
{
    handle.take_turn(alloc, true, marks).code()
}

/// The exit status of the script so far; 255 where the handle is empty.
#[unsafe(no_mangle)]
pub extern "C" fn tktext_status(alloc: Global, handle: &mut Handle) -> i32
    ensures status { result ≡ status_of (state handle.old) }
    ensures unchanged { state handle.new ≡ state handle.old }
{
    handle.status(alloc)
}

/// Drops the world, if there is one, and leaves the handle empty.
#[unsafe(no_mangle)]
pub extern "C" fn tktext_drop(alloc: Global, handle: &mut Handle)
    ensures { state handle.new ≡ None }
{
    handle.clear(alloc);
}

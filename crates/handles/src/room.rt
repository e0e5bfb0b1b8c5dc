//! The room that C gives for a text.
ghost use Rattle.std.specs.Prelude.{◌≡◌, ◌≤◌, ◌++◌, List, ℕ, length, min, take, drop};
ghost use Rattle.script_cli.specs.Lines.{printed};
ghost use Rattle.handles.specs.Room.{over, Copied};

use script_cli::Line;

/// Copies a line to the front of the room, as far as it goes, and gives the length of it all.
pub(crate) fn copy_line(line: &Line, room: &mut [u8]) -> usize
    ensures length { result ≡ min (length (printed line.now)) usize.MAX }
    ensures copied { room.new ≡ over (printed line.now) room.old }
{
    let (before, word, between, other, after) = line.parts();
    let total = copy_next(room, 0, before);
    let total = copy_next(room, total, word);
    let total = copy_next(room, total, between);
    let total = copy_next(room, total, other);
    copy_next(room, total, after)
}

/// Copies the prefix of a text and the one after it that fits into the buffer, and returns the length of both.
pub(crate) fn copy_two(text: &str, after: &str, room: &mut [u8]) -> usize
    ensures length { result ≡ min (length (text.now ++ after.now)) usize.MAX }
    ensures copied { room.new ≡ over (text.now ++ after.now) room.old }
{
    let total = copy_next(room, 0, text);
    copy_next(room, total, after)
}

/// Copies a text to the front of the room, as far as it goes, and gives the length of it all.
pub(crate) fn copy_whole(text: &str, room: &mut [u8]) -> usize
    ensures length { result ≡ min (length text.now) usize.MAX }
    ensures copied { room.new ≡ over text.now room.old }
{
    copy_next(room, 0, text)
}

/// Copies a text behind those of which so many bytes were copied, as far as the room goes, and gives the length of all.
fn copy_next(room: &mut [u8], total: usize, text: &str) -> usize
    ensures { (done start : List ℕ) → Copied done start total room.old
        → Copied (done ++ text.now) start result room.new }
{
    if text.is_empty() {
        return total;
    }
    let at = total.min(room.len());
    copy_text(room, at, text.as_bytes());
    total.saturating_add(text.len())
}

/// Copies a text to a place of the room, as far as it goes.
fn copy_text(room: &mut [u8], at: usize, text: &[u8])
    requires { at ≤ length room.old }
    ensures { room.new ≡ take at room.old ++ over text.now (drop at room.old) }
{
    let count = text.len().min(room.len() - at);
    room[at..at + count].copy_from_slice(&text[..count]);
}

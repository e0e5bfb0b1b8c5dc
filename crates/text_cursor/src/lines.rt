//! The offsets at which the line of an offset and the line after it begin.

ghost use Rattle.std.specs.Prelude.{◌≡◌, ◌≤◌, length};
ghost use Rattle.text_cursor.specs.Around.{next_line};
ghost use Rattle.text_model.specs.Content.{characters};
ghost use Rattle.text_model.specs.Lines.{line_of, line_start};

use text_model::TextStore;

/// Where the line of an offset begins.
pub fn line_at<S: TextStore>(store: &S, offset: usize) -> usize
    requires { offset ≤ length (S.content store.now).cells }
    ensures { result ≡ line_start (line_of (characters (S.content store.now).cells) offset)
        (characters (S.content store.now).cells) }
{
    store.line_at(offset).start
}

/// Where the line after that of an offset begins; the length where there is none.
pub fn line_behind<S: TextStore>(store: &S, offset: usize) -> usize
    requires { offset ≤ length (S.content store.now).cells }
    ensures { result ≡ next_line (characters (S.content store.now).cells) offset }
{
    store.line_at(offset).end
}

//! The trait of what stores a text with tags and marks: queries, and edits that are prepared and then committed.

ghost use Rattle.std.specs.Prelude.{◌≡◌, ◌+◌, ◌-◌, ◌<◌, ◌≤◌, length, slice_range, slice_get, Some, IfOk, IfSome, chars};
ghost use Rattle.std.specs.Prelude.{◌∷◌, [], OnErr, drop, false, string_bytes, take, true};
ghost use Rattle.std.specs.FinMap as finite;
ghost use Rattle.std.specs.List.{prefix_len, suffix_len};
ghost use Rattle.text_model.specs.Changes.{next_change, previous_change};
ghost use Rattle.text_model.specs.Content.{Content, characters, flags, new_content, shared_slots, slot_sets};
ghost use Rattle.text_model.specs.Content.{slots_left_of};
ghost use Rattle.text_model.specs.Lines.{IsLineOf, lines, line_of, line_start};
ghost use Rattle.text_model.specs.MarkOrder.{marks_at, next_mark, previous_mark};
ghost use Rattle.text_model.specs.Steps.{Fits, after};
ghost use Rattle.text_model.specs.TagBits.{slot_count};
ghost use Rattle.text_model.specs.declared.edits.Step.TheVariants.{Insert, PutMark, Remove, SetTag};

use crate::character_test::CharacterTest;
use crate::edits::Edit;
use crate::places::{LineSpan, MarkNo, Place, TagSlot};
use crate::tag_set::TagSet;
use std::alloc::{AllocError, Global};

/// What keeps a text: tagged characters, of which the last is a newline, and marks as positions.
///
/// Offsets count characters from the start of the text, and lines count from 0; each line ends with its newline. An
/// edit is prepared, which takes all the memory that it wants and changes nothing that can be seen, and then
/// committed, which can't fail. An edit of one line may also be made at once (`put_within` and the calls after it). No
/// query takes memory.
pub trait TextStore: Drop {
    /// An edit for which all memory is there.
    type Prepared: Drop;

    /// The text and its marks, however they are kept.
    ghost content: { Self → Content };

    /// The store is as the `prepare` that gave this left it.
    ghost ready: { Self → Self.Prepared → Type 0 };

    /// What the store contains once this is committed.
    ghost outcome: { Self → Self.Prepared → Content };

    /// A text of one newline, without marks.
    fn new(alloc: Global) -> Result<Self, AllocError>
        ensures { IfOk result (λ store. content store ≡ new_content) };

    /// How many characters the text has.
    fn len(&self) -> usize
        ensures { result ≡ length (content self.now).cells };

    /// How many lines the text has, which is how many newlines.
    fn lines(&self) -> usize
        ensures { result ≡ lines (characters (content self.now).cells) };

    /// The offset of the first character of a line; the length for the line behind the last.
    fn line_start(&self, line: usize) -> usize
        requires { line ≤ lines (characters (content self.now).cells) }
        ensures value { result ≡ line_start line (characters (content self.now).cells) }
        ensures bound { result ≤ length (content self.now).cells };

    /// The line that an offset stands in, which is how many newlines stand before it.
    fn line_of(&self, offset: usize) -> usize
        requires { offset ≤ length (content self.now).cells }
        ensures { result ≡ line_of (characters (content self.now).cells) offset };

    /// The line that an offset stands in, with where it begins and where the line behind it does. From the end of the
    /// text on both are the length.
    fn line_at(&self, offset: usize) -> LineSpan
        requires { offset ≤ length (content self.now).cells }
        ensures { IsLineOf (characters (content self.now).cells) offset result };

    /// Where a line begins, and where the line behind it does.
    fn line_bounds(&self, line: usize) -> (usize, usize)
        requires { line < lines (characters (content self.now).cells) }
        ensures start { result.0 ≡ line_start line (characters (content self.now).cells) }
        ensures end { result.1 ≡ line_start (line + 1) (characters (content self.now).cells) }
        ensures bound { result.1 ≤ length (content self.now).cells };

    /// The character at an offset.
    fn char_at(&self, offset: usize) -> char
        requires { offset < length (content self.now).cells }
        ensures { slice_get (characters (content self.now).cells) offset ≡ Some result };

    /// Where the run of characters from an offset on that pass a test ends.
    fn run_end<T: CharacterTest>(&self, offset: usize) -> usize
        requires { offset < length (content self.now).cells }
        ensures value { result ≡ offset + prefix_len T.test (drop offset (characters (content self.now).cells)) }
        ensures bound { result ≤ length (content self.now).cells };

    /// Where the run of characters before an offset that pass a test begins.
    fn run_start<T: CharacterTest>(&self, offset: usize) -> usize
        requires { offset ≤ length (content self.now).cells }
        ensures value { result ≡ offset - suffix_len T.test (take offset (characters (content self.now).cells)) }
        ensures bound { result ≤ offset };

    /// Whether the character at an offset has a tag.
    fn has_tag(&self, offset: usize, slot: TagSlot) -> bool
        requires within { offset < length (content self.now).cells }
        requires known { slot.0 < slot_count }
        ensures { slice_get (flags slot.0 (content self.now).cells) offset ≡ Some result };

    /// The tags of the character at an offset.
    fn tags_at(&self, offset: usize) -> TagSet
        requires { offset < length (content self.now).cells }
        ensures { slice_get (slot_sets (content self.now).cells) offset ≡ Some result };

    /// The tags of the character before an offset, of which there are none before the first, and those of the one at
    /// it.
    fn tags_around(&self, offset: usize) -> (TagSet, TagSet)
        requires { offset < length (content self.now).cells }
        ensures before { result.0 ≡ slots_left_of offset (content self.now).cells }
        ensures at { slice_get (slot_sets (content self.now).cells) offset ≡ Some result.1 };

    /// Where the run of characters that are like the one at an offset in a tag ends: the least offset above it at
    /// which the tag differs, else the length.
    fn next_change(&self, offset: usize, slot: TagSlot) -> usize
        requires within { offset < length (content self.now).cells }
        requires known { slot.0 < slot_count }
        ensures value { result ≡ next_change (flags slot.0 (content self.now).cells) offset }
        ensures above { offset < result }
        ensures bound { result ≤ length (content self.now).cells };

    /// Where the run of characters that are like the one before an offset in a tag begins.
    fn previous_change(&self, offset: usize, slot: TagSlot) -> usize
        requires some { 0 < offset }
        requires within { offset ≤ length (content self.now).cells }
        requires known { slot.0 < slot_count }
        ensures value { result ≡ previous_change (flags slot.0 (content self.now).cells) offset }
        ensures below { result < offset };

    /// The place of the mark of a number, if there is one.
    fn mark_place(&self, number: MarkNo) -> Option<Place>
        ensures value { result ≡ finite.get (content self.now).marks number.0 }
        ensures bound { IfSome result (λ place. place.offset ≤ length (content self.now).cells) };

    /// The least offset at or above this one at which a mark stands.
    fn next_mark(&self, offset: usize) -> Option<usize>
        ensures value { result ≡ next_mark offset (content self.now).marks }
        ensures above { IfSome result (λ next. offset ≤ next) }
        ensures bound { IfSome result (λ next. next ≤ length (content self.now).cells) };

    /// The greatest offset below this one at which a mark stands.
    fn previous_mark(&self, offset: usize) -> Option<usize>
        ensures value { result ≡ previous_mark offset (content self.now).marks }
        ensures below { IfSome result (λ previous. previous < offset) }
        ensures bound { IfSome result (λ previous. previous ≤ length (content self.now).cells) };

    /// Of the marks that stand at an offset, in the order of their numbers, the one at an index.
    fn mark_at(&self, offset: usize, index: usize) -> Option<MarkNo>
        ensures { result ≡ slice_get (marks_at offset (content self.now).marks) index };

    /// The characters from one offset to another.
    fn copy_text(&self, start: usize, end: usize) -> Result<String, AllocError>
        requires ordered { start ≤ end }
        requires within { end ≤ length (content self.now).cells }
        ensures { IfOk result (λ text.
            chars (string_bytes text) ≡ slice_range (characters (content self.now).cells) start end) };

    /// Looks up a line that the caller needs next: a store that remembers it then finds it without a search. Does
    /// nothing if there is no such line.
    fn seek_line(&mut self, _line: usize)
        ensures { content self.new ≡ content self.old }
    {}

    /// Inserts a text before the character at an offset, with the tags that the characters on both sides share (none at
    /// the start), if that changes one line alone and the store can make it in that line where it lies. Returns whether
    /// it was made. Otherwise, and where memory is refused, the text and its marks are as they were.
    fn put_within(&mut self, _at: usize, _text: &str) -> Result<bool, AllocError>
        requires { _at < length (content self.old).cells }
        ensures made { IfOk result (λ is_made. is_made ≡ true → let cells = (content self.old).cells in
            content self.new ≡ after (Insert _at (chars _text.now) (shared_slots _at cells) ∷ []) (content self.old)) }
        ensures other { IfOk result (λ is_made. is_made ≡ false → content self.new ≡ content self.old) }
        ensures refused { OnErr result (content self.new ≡ content self.old) }
    {
        Ok(false)
    }

    /// Removes the characters from one offset to another, where that can be made in one line as `put_within` does it.
    fn take_within(&mut self, _from: usize, _to: usize) -> Result<bool, AllocError>
        requires ordered { _from ≤ _to }
        requires within { _to < length (content self.old).cells }
        ensures made { IfOk result (λ is_made. is_made ≡ true →
            content self.new ≡ after (Remove _from _to ∷ []) (content self.old)) }
        ensures other { IfOk result (λ is_made. is_made ≡ false → content self.new ≡ content self.old) }
        ensures refused { OnErr result (content self.new ≡ content self.old) }
    {
        Ok(false)
    }

    /// Adds a tag to the characters from one offset to another, or removes it from them, where that can be made in one
    /// line as `put_within` does it.
    fn tag_within(
        &mut self,
        _from: usize,
        _to: usize,
        _slot: TagSlot,
        _is_on: bool,
    ) -> Result<bool, AllocError>
        requires ordered { _from ≤ _to }
        requires within { _to ≤ length (content self.old).cells }
        requires known { _slot.0 < slot_count }
        ensures made { IfOk result (λ is_made. is_made ≡ true →
            content self.new ≡ after (SetTag _from _to _slot _is_on ∷ []) (content self.old)) }
        ensures other { IfOk result (λ is_made. is_made ≡ false → content self.new ≡ content self.old) }
        ensures refused { OnErr result (content self.new ≡ content self.old) }
    {
        Ok(false)
    }

    /// Puts the mark of a number at a place, wherever it is, or as a new one, if the store can do that without a plan,
    /// as `put_within` does its edit.
    fn move_mark(&mut self, _number: MarkNo, _place: Place) -> Result<bool, AllocError>
        requires { _place.offset ≤ length (content self.old).cells }
        ensures made { IfOk result (λ is_made. is_made ≡ true →
            content self.new ≡ after (PutMark _number _place ∷ []) (content self.old)) }
        ensures other { IfOk result (λ is_made. is_made ≡ false → content self.new ≡ content self.old) }
        ensures refused { OnErr result (content self.new ≡ content self.old) }
    {
        Ok(false)
    }

    /// Takes the memory for an edit. The text and its marks stay as they are, also where memory is refused.
    fn prepare(&mut self, edit: &Edit) -> Result<Self::Prepared, AllocError>
        requires { Fits edit.now.steps (content self.old) }
        ensures same { content self.new ≡ content self.old }
        ensures ready { IfOk result (λ prepared. ready self.new prepared) }
        ensures outcome { IfOk result (λ prepared.
            outcome self.new prepared ≡ after edit.now.steps (content self.old)) };

    /// The same for an edit that isn't needed any more, so that its texts may go while memory is taken.
    fn prepare_owned(&mut self, edit: Edit) -> Result<Self::Prepared, AllocError>
        requires { Fits edit.steps (content self.old) }
        ensures same { content self.new ≡ content self.old }
        ensures ready { IfOk result (λ prepared. ready self.new prepared) }
        ensures outcome { IfOk result (λ prepared.
            outcome self.new prepared ≡ after edit.steps (content self.old)) }
    {
        self.prepare(&edit)
    }

    /// Makes the steps of a prepared edit. It can't fail. The store has to be as that `prepare` left it.
    fn commit(&mut self, prepared: Self::Prepared)
        requires { ready self.old prepared }
        ensures { content self.new ≡ outcome self.old prepared };
}

//! Laws of edits, each the contract of a function that does nothing.

ghost use Rattle.std.specs.Prelude.{◌≡◌, ℕ, true, ◌+◌, ◌-◌, ◌<◌, ◌≤◌, Bool, List, length, min};
ghost use Rattle.std.specs.List.{All};
ghost use Rattle.text_model.specs.Content.{characters};
ghost use Rattle.text_model.specs.Documents.{ends_in_newline};
ghost use Rattle.undo_stack.specs.declared.actions.EditKind.{EditKind};
ghost use Rattle.edit_ops.specs.declared.slotted_texts.SlottedText.{SlottedText};
ghost use Rattle.edit_ops.specs.declared.plans.Recording.{Recording};
ghost use Rattle.edit_ops.specs.declared.spans.Span.{Span};
ghost use Rattle.edit_ops.specs.declared.anchors.Anchors.{Anchors};
ghost use Rattle.edit_ops.specs.Anchors.{AnchorsStand, AreAnchored};
ghost use Rattle.edit_ops.specs.Deletions.{AreApart, deleted, removed_spans};
ghost use Rattle.edit_ops.specs.Insertions.{inserted_texts, total};
ghost use Rattle.edit_ops.specs.Keeping.{IsAnchored, IsKept};
ghost use Rattle.edit_ops.specs.Removals.{removed_span, replaced};
ghost use Rattle.edit_ops.specs.Reversals.{undone, redone};
ghost use Rattle.edit_ops.specs.States.{State, state_of};
ghost use Rattle.edit_ops.specs.Tagging.{SpanFits, tagged};

/// Where a history fits a text, it fits what an edit makes of the two, whether or not actions are kept.
pub fn edits_fit()
    ensures inserted { (limit at : ℕ) (recording : Recording) (kind : EditKind) (pieces : List SlottedText)
        (state : State) →
        IsKept limit recording state → at < length state.content.cells →
        length state.content.cells + total pieces ≤ limit →
        IsKept limit recording (inserted_texts recording kind at pieces state) }
    ensures replaced { (limit mark last from to : ℕ) (recording : Recording) (pieces : List SlottedText)
        (state : State) →
        IsKept limit recording state → last < length state.content.cells → from ≤ to →
        length state.content.cells - (min to last - min from last) + total pieces ≤ limit →
        IsKept limit recording (replaced recording mark last from to pieces state) }
    ensures deleted { (limit start end : ℕ) (recording : Recording) (spans : List Span) (state : State) →
        IsKept limit recording state → start < end → end ≤ length state.content.cells →
        All (λ (span : Span). span.to ≤ end) spans →
        IsKept limit recording (deleted recording start end spans state) }
    ensures undone { (limit mark : ℕ) (recording : Recording) (state : State) →
        IsKept limit recording state → IsKept limit recording (undone mark state) }
    ensures redone { (limit mark : ℕ) (recording : Recording) (state : State) →
        IsKept limit recording state → IsKept limit recording (redone mark state) }
    ensures tagged { (limit slot : ℕ) (on : Bool) (recording : Recording) (spans : List Span) (state : State) →
        IsKept limit recording state → All (SpanFits (length state.content.cells)) spans →
        IsKept limit recording (state_of (tagged slot on spans state.content) state.anchors state.log) }
{}

/// Where the anchors of each widget stand at starts of lines of a text that ends with a newline, or at its end, they do
/// so after an edit.
pub fn anchors_stand_yet()
    ensures within { (text : List ℕ) (anchors : Anchors) → AreAnchored text anchors →
        AnchorsStand (length text) anchors }
    ensures inserted { (at : ℕ) (recording : Recording) (kind : EditKind) (pieces : List SlottedText) (state : State) →
        IsAnchored state → at < length state.content.cells →
        IsAnchored (inserted_texts recording kind at pieces state) }
    ensures removed { (from to : ℕ) (recording : Recording) (kind : EditKind) (state : State) →
        IsAnchored state → ends_in_newline (characters state.content.cells) ≡ true → from ≤ to →
        to < length state.content.cells →
        IsAnchored (removed_span recording kind from to state) }
    ensures spans { (border : ℕ) (recording : Recording) (kind : EditKind) (spans : List Span) (state : State) →
        IsAnchored state → ends_in_newline (characters state.content.cells) ≡ true → AreApart border spans →
        border ≤ length state.content.cells →
        IsAnchored (removed_spans recording kind spans state) }
    ensures replaced { (mark last from to : ℕ) (recording : Recording) (pieces : List SlottedText) (state : State) →
        IsAnchored state → ends_in_newline (characters state.content.cells) ≡ true → last < length state.content.cells →
        from ≤ to →
        IsAnchored (replaced recording mark last from to pieces state) }
    ensures deleted { (start end : ℕ) (recording : Recording) (spans : List Span) (state : State) →
        IsAnchored state → ends_in_newline (characters state.content.cells) ≡ true → start < end →
        end ≤ length state.content.cells →
        All (λ (span : Span). span.to ≤ end) spans → IsAnchored (deleted recording start end spans state) }
    ensures undone { (limit mark : ℕ) (recording : Recording) (state : State) →
        IsAnchored state → ends_in_newline (characters state.content.cells) ≡ true → IsKept limit recording state →
        IsAnchored (undone mark state) }
    ensures redone { (limit mark : ℕ) (recording : Recording) (state : State) →
        IsAnchored state → ends_in_newline (characters state.content.cells) ≡ true → IsKept limit recording state →
        IsAnchored (redone mark state) }
{}

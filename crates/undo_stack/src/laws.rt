//! Laws of histories, each the contract of a function that does nothing.

ghost use Rattle.std.specs.Prelude.{◌≡◌, ◌≤◌, ℕ, Bool, List, Some, length};
ghost use Rattle.undo_stack.specs.declared.actions.Action.{Action};
ghost use Rattle.undo_stack.specs.declared.actions.EditKind.{EditKind};
ghost use Rattle.undo_stack.specs.History.{History, no_history, noted, separated, limited, next_undo, next_redo};
ghost use Rattle.undo_stack.specs.History.{after_undo, after_redo};
ghost use Rattle.undo_stack.specs.Fits.{repeated, repeated_group, reverted_group, FitsText};

/// The actions of a group, made in order on a text that they fit, and then reverted from the last, give back the
/// characters.
pub fn group_back()
    ensures { (limit : ℕ) (group : List Action) (text found : List ℕ) → length text ≤ limit →
        repeated_group limit group text ≡ Some found → reverted_group limit group found ≡ Some text }
{}

/// No history fits each text that is within the limit; to separate and to limit groups changes nothing of it.
pub fn rest_fits()
    ensures nothing { (limit : ℕ) (text : List ℕ) → length text ≤ limit → FitsText limit text no_history }
    ensures separated { (limit : ℕ) (history : History) (text : List ℕ) →
        FitsText limit text history → FitsText limit text (separated history) }
    ensures limited { (limit most : ℕ) (history : History) (text : List ℕ) →
        FitsText limit text history → FitsText limit text (limited most history) }
{}

/// Where a history fits a text, and an action is made on the text and noted, the history fits what that makes.
pub fn note_fits()
    ensures { (limit most : ℕ) (kind : EditKind) (action : Action) (separators : Bool) (history : History)
        (text found : List ℕ) →
        FitsText limit text history → repeated limit action text ≡ Some found →
        FitsText limit found (noted kind action separators most history) }
{}

/// Where a history fits a text, its last group can be reverted in it, and then the history fits what that makes.
pub fn undo_fits()
    ensures goes { (limit : ℕ) (history : History) (text : List ℕ) (group : List Action) →
        FitsText limit text history → next_undo history ≡ Some group →
        (found : List ℕ) × (reverted_group limit group text ≡ Some found) }
    ensures fits { (limit : ℕ) (history : History) (text found : List ℕ) (group : List Action) →
        FitsText limit text history → next_undo history ≡ Some group → reverted_group limit group text ≡ Some found →
        FitsText limit found (after_undo group history) }
{}

/// Where a history fits a text, the group undone last can be made again in it, and then the history fits what that
/// makes.
pub fn redo_fits()
    ensures goes { (limit : ℕ) (history : History) (text : List ℕ) (group : List Action) →
        FitsText limit text history → next_redo history ≡ Some group →
        (found : List ℕ) × (repeated_group limit group text ≡ Some found) }
    ensures fits { (limit most : ℕ) (history : History) (text found : List ℕ) (group : List Action) →
        FitsText limit text history → next_redo history ≡ Some group → repeated_group limit group text ≡ Some found →
        FitsText limit found (after_redo group most history) }
{}

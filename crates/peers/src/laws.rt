//! Laws of a session's commands, each the contract of a function that does nothing.

ghost use Rattle.std.specs.Prelude.{◌≡◌, ◌⊎◌, List, ℕ};
ghost use Rattle.peers.specs.Laws.{NamesWindow, UndoRuns};
ghost use Rattle.peers.specs.Step.{step};
ghost use Rattle.peers.specs.World.{World};

/// Any commands of any widgets are undone, and redone. Take a document that keeps all actions and begins with none, and
/// commands of which none resets its history, sets its `-undo` or `-maxundo`, or ends it. Then `edit undo` of an
/// enabled widget of it without anchors, given until there is nothing to undo, leaves its first text, and `edit redo`,
/// given as many times, the text from before.
pub fn undo_runs()
    ensures { UndoRuns }
{}

/// A command leaves the world as it was, or answers nothing but perhaps the name of a window.
pub fn answers()
    ensures { (world : World) (words : List (List ℕ)) →
        ((step world words).world ≡ world) ⊎ NamesWindow words (step world words).reply }
{}

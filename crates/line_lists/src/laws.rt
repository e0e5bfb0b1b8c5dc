//! Laws of texts that are kept as lines, each the contract of a function that does nothing.

ghost use Rattle.std.specs.Prelude.{◌≡◌, ℕ, ◌+◌, ◌<◌, ◌≤◌, Bool, false, List, ◌++◌, length, map};
ghost use Rattle.text_model.specs.Content.{Slots};
ghost use Rattle.text_model.specs.Splices.{changed, inserted, removed};
ghost use Rattle.text_model.specs.Steps.{cells_of, with_slot, without_slots};
ghost use Rattle.segments.specs.Columns.{Column, LineContent, joined, with_toggle, without_columns};
ghost use Rattle.line_lists.specs.Texts.{cells_of_columns, whole};
ghost use Rattle.line_lists.specs.Toggling.{columns_bare, columns_inserted, columns_tagged};

/// What the steps of an edit make of columns is what they make of the cells.
pub fn steps_on_columns()
    ensures removed { (from to : ℕ) (columns : List Column) → from ≤ to →
        cells_of_columns (without_columns from to columns) ≡ removed from to (cells_of_columns columns) }
    ensures inserted { (at : ℕ) (text : List ℕ) (slots : Slots) (columns : List Column) → at ≤ length columns →
        cells_of_columns (columns_inserted at text slots columns)
        ≡ inserted at (cells_of text slots) (cells_of_columns columns) }
    ensures tagged { (from to slot : ℕ) (on : Bool) (columns : List Column) → from ≤ to → to ≤ length columns →
        cells_of_columns (columns_tagged from to slot on columns)
        ≡ changed (with_slot slot on) from to (cells_of_columns columns) }
    ensures bare { (at : ℕ) (columns : List Column) → at < length columns →
        cells_of_columns (columns_bare at columns) ≡ changed without_slots at (at + 1) (cells_of_columns columns) }
    ensures cleared { (slot : ℕ) (columns : List Column) →
        cells_of_columns (map (with_toggle slot false) columns)
        ≡ map (with_slot slot false) (cells_of_columns columns) }
{}

/// Rows.
pub fn rows()
    ensures { (front middle back : List LineContent) →
        whole (front ++ middle ++ back) ≡ joined (whole front) (joined (whole middle) (whole back)) }
{}

//! Laws of the script grammar and of list text, each the contract of a function that does nothing.

ghost use Rattle.std.specs.Prelude.{◌≡◌, ◌∷◌, ◌++◌, List, ℕ, Option};
ghost use Rattle.tcl_words.specs.declared.fault.ScriptFault.{ScriptFault};
ghost use Rattle.tcl_words.specs.ListText.{list_text, ReadsList};
ghost use Rattle.tcl_words.specs.ScriptGrammar.{ReadsScript, ReadsFront, IsWholeCommand};

/// A script has at most one reading.
pub fn one_reading()
    ensures { (bytes : List ℕ) (commands others : List (List (List ℕ))) (fault other : Option ScriptFault) →
        ReadsScript bytes commands fault → ReadsScript bytes others other → (commands ≡ others) × (fault ≡ other) }
{}

/// Each script has a reading.
pub fn some_reading()
    ensures { (bytes : List ℕ) → (commands : List (List (List ℕ))) × (fault : Option ScriptFault)
        × ReadsScript bytes commands fault }
{}

/// A command that is whole at the front of the bytes is the same in every continuation, and the rest after it is read
/// by itself.
pub fn whole_stays()
    ensures { (words : List (List ℕ)) (used more : List ℕ) (commands : List (List (List ℕ)))
        (fault : Option ScriptFault) →
        IsWholeCommand words used → ReadsScript (used ++ more) commands fault →
        (others : List (List (List ℕ))) × (commands ≡ words ∷ others) × ReadsScript more others fault }
{}

/// The commands that are whole in the front of a script begin the commands of the script, and a fault that the front
/// holds ends them.
pub fn front_stays()
    ensures commands { (front more : List ℕ) (commands all : List (List (List ℕ))) (fault : Option ScriptFault) →
        ReadsFront front commands None → ReadsScript (front ++ more) all fault →
        (others : List (List (List ℕ))) × (all ≡ commands ++ others) }
    ensures fault { (front more : List ℕ) (commands all : List (List (List ℕ))) (met : ScriptFault)
        (fault : Option ScriptFault) →
        ReadsFront front commands (Some met) → ReadsScript (front ++ more) all fault →
        (all ≡ commands) × (fault ≡ Some met) }
{}

/// What is written for a list spells that list, and no other.
pub fn spells_back()
    ensures { (list : List (List ℕ)) → ReadsList (list_text list) list
        × ((other : List (List ℕ)) → ReadsList (list_text list) other → other ≡ list) }
{}

//! Laws of data and scripts. Each is the contract of a function that does nothing.

ghost use Rattle.mp_script.specs.Laws.{DatumIsOne, ScriptIsOne, SpellingIsOne, SameIsEqual};

/// Bytes spell at most one datum, which is the one that decoding returns.
pub fn datum_is_one()
    ensures { DatumIsOne }
{}

/// Bytes spell at most one script, which is the one that decoding returns.
pub fn script_is_one()
    ensures { ScriptIsOne }
{}

/// A datum and a script have at most one spelling.
pub fn spelling_is_one()
    ensures { SpellingIsOne }
{}

/// The evaluator's Eq finds two data the same exactly when they are equal.
pub fn same_is_equal()
    ensures { SameIsEqual }
{}

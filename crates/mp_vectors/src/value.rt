//! Results of scripts.

use crate::pieces;
use crate::views::{Role, holds_in_most, holds_in_nothing, holds_in_scene};
use crate::wrong::{Result, Wrong};
use mp_memory::Memory;

/// Whether a script has the expected result in a view.
pub fn holds(memory: Memory, given: &str, wanted: &str) -> Result<bool> {
    let (view, words) = given.split_once(':').ok_or(Wrong("no such word"))?;
    let bytes = pieces::bytes(memory, words)?;
    let (name, datum) = view.split_once(' ').unwrap_or((view, ""));
    match name {
        "guard" => holds_in_scene(memory, Role::Guard, &bytes, wanted),
        "policy" => holds_in_scene(memory, Role::Policy, &bytes, wanted),
        "empty" => holds_in_nothing(memory, datum, &bytes, wanted),
        "most" => holds_in_most(memory, &bytes, wanted),
        _ => Err(Wrong("no such word")),
    }
}

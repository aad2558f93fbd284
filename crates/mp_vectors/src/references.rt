//! References to outputs.

use crate::pieces;
use crate::wrong::{Result, Wrong};
use mp_memory::Memory;
use mp_tx::OutRef;

/// The reference of a word like `32*00:7`: the id, then the index.
pub fn reference(memory: Memory, word: &str) -> Result<OutRef> {
    let (id, index) = word.split_once(':').ok_or(Wrong("no reference"))?;
    Ok(OutRef {
        id: pieces::array(memory, id)?,
        index: index.parse::<u16>()?,
    })
}

/// The references of a word like `32*00:7`, or `32*00:0-255` for a range of indexes: the first reference, and the last index.
pub fn run(memory: Memory, word: &str) -> Result<(OutRef, u16)> {
    match word.split_once('-') {
        None => {
            let first = reference(memory, word)?;
            Ok((first, first.index))
        }
        Some((first, last)) => Ok((reference(memory, first)?, last.parse::<u16>()?)),
    }
}

/// Adds the references of a word.
pub fn add_run(memory: Memory, references: &mut Vec<OutRef, Memory>, word: &str) -> Result<()> {
    let (OutRef { id, index: first }, last) = run(memory, word)?;
    for index in first..=last {
        references.push(OutRef { id, index })?;
    }
    Ok(())
}

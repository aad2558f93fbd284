//! The ledger state after a block.

ghost use Rattle.std.specs.Prelude.{IfOk};
ghost use Rattle.mp_rules.specs.Block.{apply_block};
ghost use Rattle.mp_signatures.specs.Scheme.{accepted_by};
ghost use Rattle.mp_serve.specs.Inside.Extended.{IsExtended};

use crate::block::ResolvedBlock;
use crate::texts::block_refused_line;
use mp_memory::{Memory, NoMemory};
use mp_names::Names;
use mp_rules::{AppliedBlock, BlockRefusal, apply_block};
use mp_signatures::Signatures;
use mp_text::Text;
use mp_tx::Ledger;

/// The result of applying a block.
#[derive(Drop)]
pub enum Extended {
    /// The ledger state after it, and how to go back.
    To(AppliedBlock),
    /// The line that says which transaction isn't valid after those before it.
    Refused(Text),
}

/// Applies the block to the ledger state.
pub fn extend(
    memory: Memory,
    names: &Names,
    signatures: &Signatures,
    ledger: &Ledger,
    block: &ResolvedBlock,
) -> Result<Extended, NoMemory>
    ensures { IfOk result (IsExtended names.now ledger.now block.now.txs
        (apply_block (accepted_by signatures.now) ledger.now block.now.tick block.now.block_bytes
        block.now.txs)) }
{
    match apply_block(
        memory,
        ledger,
        block.tick(),
        block.block_bytes(),
        block.txs(),
        signatures,
    ) {
        Ok(applied) => Ok(Extended::To(applied)),
        Err(refusal) => match refusal {
            BlockRefusal::NoMemory => Err(NoMemory),
            BlockRefusal::BadBlockBytes => unreachable!(),
            BlockRefusal::Invalid(place, fault) => {
                let text = block_refused_line(memory, names, block.txs(), place, fault)?;
                Ok(Extended::Refused(text))
            }
        },
    }
}

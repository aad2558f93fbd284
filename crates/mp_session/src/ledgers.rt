//! The ledger states of a scenario.

ghost use Rattle.std.specs.Prelude.{◌≡◌, unwrap_or, IfOk};
ghost use Rattle.mp_tx.specs.Ledger.{HasBlockBytes, AreDistinct, refs, ledger_of};
ghost use Rattle.mp_session.specs.Settings.{block_bytes_of};
ghost use Rattle.mp_session.specs.Ledgers.{ledger_at};

use crate::settings::Settings;
use mp_memory::{Memory, NoMemory};
use mp_names::{BlockBytes, NewLedger};
use mp_tx::{Ledger, LedgerFault, OutRef, Output, Salt};

/// The ledger state with these outputs.
pub fn make_ledger(
    memory: Memory,
    salt: Salt,
    tick: u64,
    block_bytes: u64,
    outputs: Vec<(OutRef, Output), Memory>,
) -> Result<Ledger, NoMemory>
    requires bytes { HasBlockBytes block_bytes }
    requires distinct { AreDistinct (refs outputs.items) }
    ensures { IfOk result (λ l. l ≡ ledger_of salt tick block_bytes outputs.items) }
{
    match Ledger::of_outputs(memory, salt, tick, block_bytes, outputs) {
        Ok(ledger) => Ok(ledger),
        Err(fault) => match fault {
            LedgerFault::NoMemory => Err(NoMemory),
            LedgerFault::Repeated(_) => unreachable!(),
            LedgerFault::BadBlockBytes => unreachable!(),
        },
    }
}

/// The greatest size of a block in bytes: that of the line if it has one, and else that of the settings.
pub fn block_bytes_at(settings: &Settings, told: &Option<BlockBytes>) -> u64
    ensures same { result ≡ unwrap_or told.now (block_bytes_of settings.now) }
    ensures range { HasBlockBytes result }
{
    match told {
        Some(bytes) => bytes.get(),
        None => settings.block_bytes(),
    }
}

/// The ledger state of a line.
pub fn ledger_at(memory: Memory, settings: &Settings, ledger: NewLedger) -> Result<Ledger, NoMemory>
    ensures { IfOk result (λ l. l ≡ ledger_at settings.now ledger) }
{
    let NewLedger {
        tick,
        block_bytes,
        outputs,
    } = ledger;
    let block_bytes = block_bytes_at(settings, &block_bytes);
    make_ledger(
        memory,
        settings.salt(),
        tick,
        block_bytes,
        outputs.into_entries(),
    )
}

//! What is staged for the next ledger state.

ghost use Rattle.std.specs.Prelude.{◌≡◌, ◌++◌, ◌∷◌, [], map, IfOk, OnOk};
ghost use Rattle.std.specs.Arc.{arc_value};
ghost use Rattle.mp_serve.specs.Staged.{no_outputs};

use crate::block::Txs;
use crate::texts::{staged_line, undecodable_line};
use crate::used::Used;
use mp_memory::{Memory, NoMemory};
use mp_names::{BlockBytes, LineFault, Reason};
use mp_session::{Settings, add_all, block_bytes_at, make_ledger, put_in};
use mp_text::Text;
use mp_tx::{Ledger, OutRef, Output, Salt, Tx, TxFault};
use std::marker::Model;
use std::sync::Arc;

/// What is staged for the next ledger state: the transactions of a block, and outputs.
pub struct Staged {
    txs: Txs,
    // How many outputs there are. The count stays at 2^64 - 1.
    outputs: u64,
    // All of them. The tick and the block bytes have no meaning yet.
    ledger: Ledger,
}

impl Drop for Staged {
    fn drop(self) {
        let Staged {
            txs: _,
            outputs: _,
            ledger: _,
        } = self;
    }
}

impl Model for Staged {
    ghost use Rattle.std.specs.Coded.{codes};
    ghost use Rattle.std.specs.FinMap as finite;
    ghost use Rattle.mp_serve.specs.Staged as told;
    ghost use Rattle.mp_serve.specs.Inside.Staged.{staged_of};

    ghost Value = { told.Staged };

    ghost coded = { Prim.hlevel (codes, finite.code) };

    ghost view = { staged_of };
}

// The block bytes have no meaning yet.
const BLOCK_BYTES: u64 = 500_000;

/// The ledger state without outputs.
pub fn no_outputs(memory: Memory, salt: Salt) -> Result<Ledger, NoMemory>
    ensures { IfOk result (λ l. l ≡ no_outputs salt) }
{
    make_ledger(memory, salt, 0, BLOCK_BYTES, Vec::new(memory))
}

fn put_share(txs: &mut Txs, tx: &Arc<Tx, Memory>) -> Result<(), NoMemory>
    ensures { OnOk result (map arc_value txs.new.items
        ≡ map arc_value txs.old.items ++ arc_value tx.now ∷ []) }
{
    txs.push(Arc::try_clone(tx)?)?;
    Ok(())
}

// The same transactions.
fn share_all(memory: Memory, txs: &[Arc<Tx, Memory>]) -> Result<Txs, NoMemory>
    ensures { IfOk result (λ shares. map arc_value shares.items ≡ map arc_value txs.now) }
{
    let mut shares = Vec::new(memory);
    shares.reserve_exact(txs.len())?;
    for tx in txs {
        put_share(&mut shares, tx)?;
    }
    Ok(shares)
}

// The transaction alone.
fn alone(memory: Memory, tx: Tx) -> Result<Txs, NoMemory>
    ensures { IfOk result (λ txs. map arc_value txs.items ≡ tx ∷ []) }
{
    let mut txs = Vec::new(memory);
    txs.push(Arc::new(memory, tx)?)?;
    Ok(txs)
}

impl Staged {
    ghost use Rattle.std.specs.Prelude.{◌≡◌, Some, None, map, IfOk, OnErr};
    ghost use Rattle.std.specs.Arc.{arc_value};
    ghost use Rattle.mp_tx.specs.Reading.{transaction_of};
    ghost use Rattle.mp_names.specs.Fault.{IsBad};
    ghost use Rattle.mp_serve.specs.Staged.{nothing_staged, add_txs, add_read, add_output, staged_ledger, without};

    /// Nothing is staged.
    pub fn new(memory: Memory, salt: Salt) -> Result<Staged, NoMemory>
        ensures { IfOk result (λ s. s ≡ nothing_staged salt) }
    {
        Ok(Staged {
            txs: Vec::new(memory),
            outputs: 0,
            ledger: no_outputs(memory, salt)?,
        })
    }

    /// Stages the transactions too, and says how many are staged then.
    ///
    /// # Errors
    /// `NoMemory`. Then nothing has changed.
    pub fn add_txs(&mut self, memory: Memory, txs: Txs) -> Result<Text, NoMemory>
        ensures ok { IfOk result (λ text.
            add_txs self.old (map arc_value txs.items) ≡ (self.new, text.items)) }
        ensures err { OnErr result (self.new ≡ self.old) }
    {
        let mut txs = txs;
        let kept = self.txs.len();
        self.txs.append(&mut txs)?;
        match staged_line(memory, self.txs.len() as u64) {
            Ok(text) => Ok(text),
            Err(NoMemory) => {
                self.txs.truncate(kept);
                Err(NoMemory)
            }
        }
    }

    /// Stages the transaction with these bytes too, and says how many are staged then, or why the bytes are none.
    ///
    /// # Errors
    /// `NoMemory`. Then nothing has changed.
    pub fn read(&mut self, memory: Memory, bytes: &[u8]) -> Result<Text, NoMemory>
        ensures ok { IfOk result (λ text.
            add_read self.old (transaction_of bytes.now) ≡ (self.new, text.items)) }
        ensures err { OnErr result (self.new ≡ self.old) }
    {
        match Tx::decode(memory, bytes) {
            Ok(tx) => {
                let txs = alone(memory, tx)?;
                self.add_txs(memory, txs)
            }
            Err(TxFault::NoMemory) => Err(NoMemory),
            Err(fault) => undecodable_line(memory, fault),
        }
    }

    /// Stages the output too, and says how many are staged then.
    ///
    /// # Errors
    /// `Bad` if the reference is staged already. After an `Err` nothing has changed.
    pub fn add_output<'a>(
        &mut self,
        memory: Memory,
        reference: OutRef,
        output: Output,
    ) -> Result<Text, LineFault<'a>>
        ensures ok { IfOk result (λ text.
            add_output self.old reference output ≡ Some (self.new, text.items)) }
        ensures bad { IsBad result → add_output self.old reference output ≡ None }
        ensures err { OnErr result (self.new ≡ self.old) }
    {
        let count = self.outputs.saturating_add(1);
        match put_in(memory, &self.ledger, reference, output)? {
            Some(ledger) => {
                let text = staged_line(memory, count)?;
                self.outputs = count;
                self.ledger = ledger;
                Ok(text)
            }
            None => Err(LineFault::Bad(Reason::Repeats {
                later: b"utxo",
                earlier: b"utxo",
            })),
        }
    }

    /// The staged transactions. They are shared and not copied.
    pub fn txs(&self, memory: Memory) -> Result<Txs, NoMemory>
        ensures { IfOk result (λ txs. map arc_value txs.items ≡ self.now.txs) }
    {
        share_all(memory, &self.txs)
    }

    /// The ledger state that has the staged outputs. Without block bytes in the line, the setting applies.
    pub fn ledger_at(
        &self,
        memory: Memory,
        settings: &Settings,
        tick: u64,
        block_bytes: &Option<BlockBytes>,
    ) -> Result<Ledger, NoMemory>
        ensures { IfOk result (λ l. l
            ≡ staged_ledger settings.now self.now tick block_bytes.now) }
    {
        let block_bytes = block_bytes_at(settings, block_bytes);
        add_all(memory, &self.ledger, tick, block_bytes, &[])
    }

    /// What was used isn't staged any more.
    pub fn forget(&mut self, used: Used)
        ensures { self.new ≡ without self.old used }
    {
        match used {
            Used::Nothing => {}
            Used::Txs => self.txs.clear(),
            Used::Outputs(none) => {
                self.outputs = 0;
                self.ledger = none;
            }
        }
    }
}

//! What the lines of a file name.

use crate::vectors::pieces;
use crate::vectors::transaction::transaction;
use crate::vectors::wrong::{Result, Wrong};
use mp_memory::Memory;
use mp_tx::{Tx, TxId};
use std::sync::Arc;

// Bytes with a name.
#[derive(Drop)]
struct Word {
    name: String<Memory>,
    bytes: Vec<u8, Memory>,
}

#[derive(Drop)]
struct Named {
    name: String<Memory>,
    tx: Arc<Tx, Memory>,
}

/// The names of a file so far.
#[derive(Drop)]
pub struct Names {
    memory: Memory,
    words: Vec<Word, Memory>,
    transactions: Vec<Named, Memory>,
}

impl Names {
    /// No names.
    pub fn new(memory: Memory) -> Names {
        Names {
            memory,
            words: Vec::new(memory),
            transactions: Vec::new(memory),
        }
    }

    /// The memory handle for everything that is made.
    pub fn memory(&self) -> Memory {
        self.memory
    }

    /// The bytes with this name, if there are any.
    pub fn bytes(&self, name: &str) -> Option<&[u8]> {
        for word in &self.words {
            if word.name.as_str() == name {
                return Some(&word.bytes);
            }
        }
        None
    }

    /// The transaction with this name.
    pub fn transaction(&self, name: &str) -> Result<&Arc<Tx, Memory>> {
        for named in &self.transactions {
            if named.name.as_str() == name {
                return Ok(&named.tx);
            }
        }
        Err(Wrong::Because("no such transaction"))
    }

    /// The id that a name denotes: that of a transaction, or 32 bytes of a number.
    pub fn id(&self, name: &str) -> Result<TxId> {
        match name.parse::<u8>() {
            Ok(byte) => Ok([byte; 32]),
            Err(_) => Ok(*self.transaction(name)?.id()),
        }
    }

    /// Names bytes, as in `yes 01`. That is no case.
    pub fn put_word(&mut self, words: &str) -> Result<u64> {
        let (name, pieces) = words.split_once(' ').ok_or(Wrong::Because("no bytes"))?;
        let bytes = pieces::bytes(self, pieces)?;
        let name = format!(in self.memory; "{name}")?;
        self.words.push(Word { name, bytes })?;
        Ok(0)
    }

    /// Names a transaction, as in `a in=1.0 out=100`. That is no case.
    pub fn put_transaction(&mut self, words: &str) -> Result<u64> {
        let (name, parts) = words.split_once(' ').ok_or(Wrong::Because("no parts"))?;
        let tx = Arc::new(self.memory, transaction(self, parts)?)?;
        let name = format!(in self.memory; "{name}")?;
        self.transactions.push(Named { name, tx })?;
        Ok(0)
    }
}

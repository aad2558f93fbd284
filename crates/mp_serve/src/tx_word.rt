//! Words for transactions.

ghost use Rattle.std.specs.Prelude.{◌≡◌, None, Some, [], ◌∷◌, ◌++◌, map, option_map, IfOk};
ghost use Rattle.std.specs.Arc.{arc_value};
ghost use Rattle.mp_names.specs.Fault.{Gives, IsBad};
ghost use Rattle.mp_names.specs.Ids.{id_in};
ghost use Rattle.mp_serve.specs.TxWord.{Pooled, tx_word_of, tx_held, tx_meant, put_meant};
ghost use Rattle.mp_serve.specs.Inside.Ask.{to_tx_word};

use crate::block::Txs;
use crate::pool::ServedPool;
use mp_memory::{Memory, NoMemory};
use mp_names::{LineFault, Names, Reason, id_in};
use mp_session::Stage;
use mp_tx::{Tx, TxId};
use std::sync::Arc;

/// A word for a transaction: a declared name, or `#ID` for one that the pool holds.
#[derive(Drop)]
pub enum TxWord {
    /// This transaction has the name.
    Named(Arc<Tx, Memory>),
    /// The transaction with this id that the pool holds.
    Pooled(TxId),
}

/// The word for a transaction, given the declared names.
pub fn tx_word_of<'a>(names: &Names, word: &'a [u8]) -> Result<TxWord, LineFault<'a>>
    ensures { Gives to_tx_word (tx_word_of names.now word.now) result }
{
    if let Some(id) = id_in(word) {
        return Ok(TxWord::Pooled(id));
    }
    let declared = names.tx(word)?;
    Ok(TxWord::Named(Arc::try_clone(declared.tx())?))
}

/// The word `#ID` for a transaction that the pool holds.
pub fn pooled<'a>(word: &'a [u8]) -> Result<TxWord, LineFault<'a>>
    ensures { Gives to_tx_word (option_map Pooled (id_in word.now)) result }
{
    match id_in(word) {
        Some(id) => Ok(TxWord::Pooled(id)),
        None => Err(LineFault::Bad(Reason::NoTransaction(word))),
    }
}

// The transaction with this id that the pool holds.
fn tx_held(stage: &Stage<ServedPool>, id: &TxId) -> Result<Option<Arc<Tx, Memory>>, NoMemory>
    ensures { IfOk result (λ t. option_map arc_value t ≡ tx_held stage.now id.now) }
{
    match stage {
        Stage::Before(_) => Ok(None),
        Stage::Open(pool) => pool.share_held(id),
    }
}

/// The transaction that the word means.
pub fn tx_meant<'a>(
    stage: &Stage<ServedPool>,
    word: TxWord,
) -> Result<Arc<Tx, Memory>, LineFault<'a>>
    ensures { Gives arc_value (tx_meant stage.now (to_tx_word word)) result }
{
    match word {
        TxWord::Named(tx) => Ok(tx),
        TxWord::Pooled(id) => match tx_held(stage, &id)? {
            Some(tx) => Ok(tx),
            None => Err(LineFault::Bad(Reason::NotHeld(id))),
        },
    }
}

/// The transactions that the words mean.
pub fn txs_meant<'a>(
    memory: Memory,
    stage: &Stage<ServedPool>,
    words: Vec<TxWord, Memory>,
) -> Result<Txs, LineFault<'a>>
    ensures { Gives (λ txs. map arc_value txs.items)
        (put_meant stage.now [] (map to_tx_word words.items)) result }
{
    let mut txs = Vec::new(memory);
    for word in words {
        txs.push(tx_meant(stage, word)?)?;
    }
    Ok(txs)
}

//! Words for transactions, by the pool that a client has seen.

ghost use Rattle.std.specs.Prelude.{◌≡◌, [], map};
ghost use Rattle.std.specs.Arc.{arc_value};
ghost use Rattle.mp_names.specs.Fault.{Gives};
ghost use Rattle.mp_serve.specs.TxWord.{tx_meant, put_meant};
ghost use Rattle.mp_serve.specs.Inside.Ask.{to_tx_word};
ghost use Rattle.mp_clients.specs.Alone.{stage_of};
ghost use Rattle.mp_clients.specs.Answers.{used_by};

use crate::client::Client;
use mp_history::PoolName;
use mp_memory::Memory;
use mp_names::{LineFault, Reason};
use mp_serve::{TxWord, Txs, Used};
use mp_tx::Tx;
use std::sync::Arc;

/// The transaction that the word means.
///
/// # Errors
/// `NotHeld`. `NoMemory` may replace any other answer.
pub fn tx_meant<'a, N: PoolName>(
    client: &Client<N>,
    word: TxWord,
) -> Result<Arc<Tx, Memory>, LineFault<'a>>
    ensures { Gives arc_value
        (tx_meant (stage_of N.accepts client.now) (to_tx_word word)) result }
{
    match word {
        TxWord::Named(tx) => Ok(tx),
        TxWord::Pooled(id) => match client.share_held(&id)? {
            Some(tx) => Ok(tx),
            None => Err(LineFault::Bad(Reason::NotHeld(id))),
        },
    }
}

/// The transactions that the words mean.
///
/// # Errors
/// `NotHeld`. `NoMemory` may replace any other answer.
pub fn txs_meant<'a, N: PoolName>(
    memory: Memory,
    client: &Client<N>,
    words: Vec<TxWord, Memory>,
) -> Result<Txs, LineFault<'a>>
    ensures { Gives (λ txs. map arc_value txs.items)
        (put_meant (stage_of N.accepts client.now) [] (map to_tx_word words.items)) result }
{
    let mut txs = Vec::new(memory);
    for word in words {
        txs.push(tx_meant(client, word)?)?;
    }
    Ok(txs)
}

/// What a block uses: without words, the staged transactions.
pub fn used_by(words: &[TxWord]) -> Used
    ensures { result ≡ used_by (map to_tx_word words.now) }
{
    if words.is_empty() {
        Used::Txs
    } else {
        Used::Nothing
    }
}

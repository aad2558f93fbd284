//! Lines that only read the pool.

ghost use Rattle.std.specs.Prelude.{◌≡◌, option_map};
ghost use Rattle.std.specs.Result.{result_ok};
ghost use Rattle.mp_text.specs.Words.{words_of};
ghost use Rattle.mp_lines.specs.declared.query.Query.TheVariants as queries;
ghost use Rattle.mp_lines.specs.Queries.{one_number, snapshot_query, has_query, offer_by, offer_query, first_query, query_of};

use crate::forms::Form;
use crate::words::{no_word, one_word, two_words};
use mp_names::{Names, Reason, any_number, id_meant};
use mp_tx::TxId;

/// The meaning of a line that only reads the pool. The contracts of runs define the answers.
#[derive(Clone, Copy)]
pub enum Query {
    /// All transactions, with the pool's numbers.
    Snapshot,
    /// The transactions with a greater ticket.
    After(u64),
    /// The transaction with the ticket.
    Lookup(u64),
    /// Whether the pool has a transaction with this id.
    Has(TxId),
    /// The longest prefix of the transactions, oldest first, that fits into this many bytes.
    Take(u64),
    /// A block of at most this many bytes.
    Forge(u64),
    /// What the peer is offered next: at most this many transactions, with at most this many bytes together.
    Offer { count: u64, bytes: u64 },
}

const SNAPSHOT: Form = Form {
    word: b"snapshot",
    text: b"snapshot",
};

const AFTER: Form = Form {
    word: b"after",
    text: b"after TICKET",
};

const LOOKUP: Form = Form {
    word: b"lookup",
    text: b"lookup TICKET",
};

const HAS: Form = Form {
    word: b"has",
    text: b"has TX",
};

const TAKE: Form = Form {
    word: b"take",
    text: b"take BYTES",
};

// A block for a block producer.
const FORGE: Form = Form {
    word: b"forge",
    text: b"forge BYTES",
};

// What a peer is offered next.
const OFFER: Form = Form {
    word: b"offer",
    text: b"offer COUNT BYTES",
};

// The one number in a line of this form.
fn one_number<'a>(form: &'static [u8], words: &'a [u8]) -> Result<u64, Reason<'a>>
    ensures { result_ok result ≡ one_number (words_of words.now) }
{
    let word = one_word(form, words)?;
    any_number(word)
}

// snapshot
fn snapshot_query(words: &[u8]) -> Result<Query, Reason<'_>>
    ensures { result_ok result ≡ snapshot_query (words_of words.now) }
{
    no_word(SNAPSHOT.text, words)?;
    Ok(Query::Snapshot)
}

// after TICKET
fn after_query(words: &[u8]) -> Result<Query, Reason<'_>>
    ensures { result_ok result ≡ option_map queries.After (one_number (words_of words.now)) }
{
    Ok(Query::After(one_number(AFTER.text, words)?))
}

// lookup TICKET
fn lookup_query(words: &[u8]) -> Result<Query, Reason<'_>>
    ensures { result_ok result ≡ option_map queries.Lookup (one_number (words_of words.now)) }
{
    Ok(Query::Lookup(one_number(LOOKUP.text, words)?))
}

// has TX
fn has_query<'a>(names: &Names, words: &'a [u8]) -> Result<Query, Reason<'a>>
    ensures { result_ok result ≡ has_query names.now (words_of words.now) }
{
    let word = one_word(HAS.text, words)?;
    Ok(Query::Has(id_meant(names, word)?))
}

// take BYTES
fn take_query(words: &[u8]) -> Result<Query, Reason<'_>>
    ensures { result_ok result ≡ option_map queries.Take (one_number (words_of words.now)) }
{
    Ok(Query::Take(one_number(TAKE.text, words)?))
}

// forge BYTES
fn forge_query(words: &[u8]) -> Result<Query, Reason<'_>>
    ensures { result_ok result ≡ option_map queries.Forge (one_number (words_of words.now)) }
{
    Ok(Query::Forge(one_number(FORGE.text, words)?))
}

fn offer_by<'a>(count: &'a [u8], bytes: &'a [u8]) -> Result<Query, Reason<'a>>
    ensures { result_ok result ≡ offer_by (count.now, bytes.now) }
{
    let count = any_number(count)?;
    let bytes = any_number(bytes)?;
    Ok(Query::Offer { count, bytes })
}

// offer COUNT BYTES
fn offer_query(words: &[u8]) -> Result<Query, Reason<'_>>
    ensures { result_ok result ≡ offer_query (words_of words.now) }
{
    let (count, bytes) = two_words(OFFER.text, words)?;
    offer_by(count, bytes)
}

// The lines that read from the oldest transaction on, or from a cursor.
fn first_query<'a>(word: &'a [u8], words: &'a [u8]) -> Result<Query, Reason<'a>>
    ensures { result_ok result ≡ first_query word.now (words_of words.now) }
{
    if word == TAKE.word {
        take_query(words)
    } else if word == FORGE.word {
        forge_query(words)
    } else if word == OFFER.word {
        offer_query(words)
    } else {
        Err(Reason::FirstWord(word))
    }
}

/// The query of a line with this first word.
pub fn read_query<'a>(names: &Names, word: &'a [u8], words: &'a [u8]) -> Result<Query, Reason<'a>>
    ensures { result_ok result ≡ query_of names.now word.now (words_of words.now) }
{
    if word == SNAPSHOT.word {
        snapshot_query(words)
    } else if word == AFTER.word {
        after_query(words)
    } else if word == LOOKUP.word {
        lookup_query(words)
    } else if word == HAS.word {
        has_query(names, words)
    } else {
        first_query(word, words)
    }
}

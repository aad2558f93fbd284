//! How often each kind of refusal was answered.

ghost use Rattle.std.specs.Prelude.{◌≡◌, ◌<◌, ◌≤◌, ◌++◌, length, map, OnOk};
ghost use Rattle.mp_serve.specs.Refused.{none_counted, one_more, counted, counted_if, count_text, texts, counts_text};

use mp_answers::{REFUSAL_WORDS, REFUSALS, put_number, put_word, refusal_place};
use mp_memory::{Memory, NoMemory};
use mp_seqpool::Refusal;
use mp_text::Text;

/// How often each kind of refusal was answered. A count that reaches 2^64 - 1 stays there.
#[derive(Clone, Copy)]
pub struct Counts {
    /// In the order of the words for refusals.
    pub refusals: [u64; REFUSALS],
    /// Blocks that were refused.
    pub adopts: u64,
    /// Requests to go back further than ledger states are kept.
    pub backs: u64,
}

/// Counts of 0.
pub fn none_counted() -> Counts
    ensures { result ≡ none_counted }
{
    Counts {
        refusals: [0; REFUSALS],
        adopts: 0,
        backs: 0,
    }
}

/// Counts one more.
pub fn count_one(count: &mut u64)
    ensures { count.new ≡ one_more count.old }
{
    *count = count.saturating_add(1);
}

fn count(counts: &mut Counts, refusal: &Refusal)
    ensures { counts.new ≡ counted counts.old refusal.now }
{
    count_one(&mut counts.refusals[refusal_place(refusal)]);
}

/// Counts the refusal, if there is one.
pub fn count_if_refused(counts: &mut Counts, refusal: &Option<Refusal>)
    ensures { counts.new ≡ counted_if counts.old refusal.now }
{
    if let Some(refusal) = refusal {
        count(counts, refusal);
    }
}

// The word and its count, unless that is 0.
fn put_count(text: &mut Text, word: &[u8], count: u64) -> Result<(), NoMemory>
    ensures { OnOk result (text.new.items ≡ text.old.items ++ count_text word.now count) }
{
    if count == 0 {
        return Ok(());
    }
    text.push(b' ')?;
    put_word(text, word)?;
    put_number(text, count)
}

// Each of these words with its count.
fn put_each(text: &mut Text, words: &[&[u8]], counts: &[u64]) -> Result<(), NoMemory>
    requires { length words.now ≤ length counts.now }
    ensures { OnOk result (text.new.items
        ≡ text.old.items ++ texts (map (λ w. w.now) words.now) counts.now) }
{
    for (place, word) in words.iter().enumerate() {
        put_count(text, word, counts[place])?;
    }
    Ok(())
}

/// Each kind of refusal that occurred, and how often.
pub fn put_counts(text: &mut Text, counts: &Counts) -> Result<(), NoMemory>
    ensures { OnOk result (text.new.items ≡ text.old.items ++ counts_text counts.now) }
{
    put_each(text, &REFUSAL_WORDS, &counts.refusals)?;
    put_count(text, b"adopt", counts.adopts)?;
    put_count(text, b"back", counts.backs)
}

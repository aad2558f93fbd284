//! What lines seem to record. The result is written again and compared, so the reading checks little.

ghost use Rattle.std.specs.Prelude.{◌≡◌, ◌≤◌, IfOk, IfSome, option_map};
ghost use Rattle.mp_text.specs.Words.{words_of};
ghost use Rattle.mp_text.specs.Numbers.{number_of};
ghost use Rattle.mp_race.specs.Inside.HistoryFront.{front_of};
ghost use Rattle.mp_race.specs.Inside.HistoryWords as told;

use crate::told::Told;
use mp_memory::{Memory, NoMemory};
use mp_seqpool::Reply;
use mp_text::{first_word, number};
use mp_tickets::Tickets;

// No race has more workers.
const MAX_WORKERS: u32 = 64;

// The beginning of a line: the numbers, the kind of the reply, and what follows.
#[derive(Clone, Copy)]
struct Front<'a> {
    place: u64,
    worker: u32,
    task: u64,
    kind: &'a [u8],
    rest: &'a [u8],
}

// The number that the first word denotes, and what follows it.
fn first_number(words: &[u8]) -> Option<(u64, &[u8])>
    ensures { option_map (λ f. (f.0, words_of f.1.now)) result
        ≡ told.number_in (words_of words.now) }
{
    let (word, rest) = first_word(words)?;
    Some((number(word)?, rest))
}

fn small_number(words: &[u8]) -> Option<(u32, &[u8])>
    ensures { option_map (λ f. (f.0, words_of f.1.now)) result
        ≡ told.small_in (words_of words.now) }
{
    let (number, rest) = first_number(words)?;
    Some((u32::try_from(number).ok()?, rest))
}

fn read_kind(place: u64, worker: u32, task: u64, words: &[u8]) -> Option<Front<'_>>
    ensures { option_map front_of result ≡ told.kind_in place worker task (words_of words.now) }
{
    let (kind, rest) = first_word(words)?;
    Some(Front {
        place,
        worker,
        task,
        kind,
        rest,
    })
}

fn read_front(line: &[u8]) -> Option<Front<'_>>
    ensures { option_map front_of result ≡ told.front_in (words_of line.now) }
{
    let (_, rest) = first_word(line)?;
    let (place, rest) = first_number(rest)?;
    let (worker, rest) = small_number(rest)?;
    let (task, rest) = first_number(rest)?;
    read_kind(place, worker, task, rest)
}

// The ticket that the word denotes, if it is at least `least`.
fn ticket_of(word: &[u8], least: u128) -> Option<u64>
    ensures { result ≡ told.ticket_in least word.now }
{
    let ticket = number(word)?;
    if least <= ticket as u128 {
        Some(ticket)
    } else {
        None
    }
}

// The tickets, as long as they are strictly increasing, up to a word that is none, and what follows that word.
fn read_tickets(memory: Memory, words: &[u8]) -> Result<(Tickets, &[u8]), NoMemory>
    ensures { IfOk result
        (λ found. (found.0, words_of found.1.now) ≡ told.tickets_in 0 (words_of words.now)) }
{
    let mut tickets = Tickets::new(memory);
    let mut rest = words;
    // Wider than a ticket, since nothing comes after the greatest ticket.
    let mut least = 0u128;
    while let Some((word, after)) = first_word(rest) {
        let Some(ticket) = ticket_of(word, least) else {
            return Ok((tickets, after));
        };
        tickets.push(ticket)?;
        least = ticket as u128 + 1;
        rest = after;
    }
    Ok((tickets, rest))
}

fn read_lists(memory: Memory, kind: &[u8], words: &[u8]) -> Result<Reply, NoMemory>
    ensures { IfOk result
        (λ reply. reply ≡ told.lists_in kind.now (told.tickets_in 0 (words_of words.now))) }
{
    let (first, rest) = read_tickets(memory, words)?;
    let (dropped, _) = read_tickets(memory, rest)?;
    if kind == b"removed".as_slice() {
        Ok(Reply::Removed {
            named: first,
            dropped,
        })
    } else {
        Ok(Reply::Synced {
            kept: first,
            dropped,
        })
    }
}

fn read_reply(memory: Memory, kind: &[u8], words: &[u8]) -> Result<Reply, NoMemory>
    ensures { IfOk result (λ reply. reply ≡ told.reply_in kind.now (words_of words.now)) }
{
    if kind == b"accepted".as_slice() {
        let ticket = first_number(words).map_or(0, |found| found.0);
        return Ok(Reply::Accepted { ticket });
    }
    read_lists(memory, kind, words)
}

/// The entry that the line seems to record.
pub fn read_told(memory: Memory, line: &[u8]) -> Result<Option<Told>, NoMemory>
    ensures { IfOk result (λ found. found ≡ told.told_in (words_of line.now)) }
{
    let Some(front) = read_front(line) else {
        return Ok(None);
    };
    let reply = read_reply(memory, front.kind, front.rest)?;
    Ok(Some(Told {
        place: front.place,
        worker: front.worker,
        task: front.task,
        reply,
    }))
}

// The number of workers, if it is in range.
fn if_workers(number: u32) -> Option<u32>
    ensures { result ≡ told.if_workers number }
{
    (1..=MAX_WORKERS).contains(&number).then_some(number)
}

fn read_entries(workers: u32, words: &[u8]) -> Option<(u32, u64)>
    ensures { result ≡ told.entries_in workers (words_of words.now) }
{
    let (_, rest) = first_word(words)?;
    let (entries, _) = first_number(rest)?;
    Some((workers, entries))
}

/// The numbers of workers and entries that the first line seems to give.
pub fn read_head(line: &[u8]) -> Option<(u32, u64)>
    ensures head { result ≡ told.head_in (words_of line.now) }
    ensures least { IfSome result (λ h. 1 ≤ h.0) }
    ensures most { IfSome result (λ h. h.0 ≤ 64) }
{
    let (_, rest) = first_word(line)?;
    let (number, rest) = small_number(rest)?;
    let workers = if_workers(number)?;
    read_entries(workers, rest)
}

//! What a conversation may ask once the pool is open, and what opens it.

ghost use Rattle.std.specs.Prelude.{◌≡◌, true, false, IfSome, IfNone};
ghost use Rattle.std.specs.List.{list_all};
ghost use Rattle.mp_lines.specs.Inside.Line.{to_line};
ghost use Rattle.mp_serve.specs.Inside.Ask.{to_ask, to_tx_word};
ghost use Rattle.mp_clients.specs.Inside.Notes.{is_note, is_alone};
ghost use Rattle.mp_clients.specs.Asking.{is_operator, may_do, may_ask, does_open, is_named, opens};

use mp_lines::Line;
use mp_names::Reason;
use mp_serve::{Ask, TxWord};

// Why the caller may not ask for what only the operator may.
fn unless_operator<'a>(caller: u32) -> Option<Reason<'a>>
    ensures some { IfSome result (λ _. is_operator caller ≡ false) }
    ensures none { IfNone result (is_operator caller ≡ true) }
{
    if caller == 0 {
        None
    } else {
        Some(Reason::NotOperator)
    }
}

// Why the caller may not ask for what the line does.
fn forbids_line<'a>(caller: u32, line: &Line) -> Option<Reason<'a>>
    ensures some { IfSome result (λ _. may_do caller (to_line line.now) ≡ false) }
    ensures none { IfNone result (may_do caller (to_line line.now) ≡ true) }
{
    match line {
        Line::Sets(_) => Some(Reason::LateSetting),
        Line::Out(_, _) => Some(Reason::LateOutput),
        Line::Remove(_) => unless_operator(caller),
        Line::Sync(_) => unless_operator(caller),
        _ => None,
    }
}

/// Why the caller may not ask this, if it may not.
pub fn forbids<'a>(caller: u32, ask: &Ask) -> Option<Reason<'a>>
    ensures some { IfSome result (λ _. may_ask caller (to_ask ask.now) ≡ false) }
    ensures none { IfNone result (may_ask caller (to_ask ask.now) ≡ true) }
{
    match ask {
        Ask::Does(line) => forbids_line(caller, line),
        Ask::Holds(_, _) => Some(Reason::LateOutput),
        Ask::Extends(_) => unless_operator(caller),
        Ask::Stages(_) => unless_operator(caller),
        Ask::StagesHeld(_) => unless_operator(caller),
        Ask::StagesOutput(_, _) => unless_operator(caller),
        Ask::Unstages => unless_operator(caller),
        Ask::Syncs(_, _) => unless_operator(caller),
        Ask::Returns(_) => unless_operator(caller),
        _ => None,
    }
}

/// Whether the line only declares something, or asks for what makes no change.
pub fn is_note(line: &Line) -> bool
    ensures { result ≡ is_note (to_line line.now) }
{
    match line {
        Line::Sets(_) => false,
        Line::Out(_, _) => false,
        Line::Submit(_) => false,
        Line::Remove(_) => false,
        Line::Sync(_) => false,
        _ => true,
    }
}

/// Whether this makes no change, and isn't in scenarios.
pub fn is_alone(ask: &Ask) -> bool
    ensures { result ≡ is_alone (to_ask ask.now) }
{
    match ask {
        Ask::Does(_) => false,
        Ask::Submits(_, _) => false,
        Ask::SubmitsBytes(_) => false,
        Ask::Holds(_, _) => false,
        Ask::Extends(_) => false,
        Ask::Syncs(_, _) => false,
        Ask::Returns(_) => false,
        _ => true,
    }
}

// Whether a line of a scenario asks something of the pool.
fn does_open(line: &Line) -> bool
    ensures { result ≡ does_open (to_line line.now) }
{
    match line {
        Line::Submit(_) => true,
        Line::Remove(_) => true,
        Line::Sync(_) => true,
        Line::For(_) => true,
        Line::Asks(_) => true,
        _ => false,
    }
}

// Whether the word is a declared name.
fn is_named(word: &TxWord) -> bool
    ensures { result ≡ is_named (to_tx_word word.now) }
{
    match word {
        TxWord::Named(_) => true,
        TxWord::Pooled(_) => false,
    }
}

// Whether all words are declared names.
fn all_named(words: &[TxWord]) -> bool
    ensures { result ≡ list_all (λ w. is_named (to_tx_word w)) words.now }
{
    words.iter().all(|word| is_named(word))
}

/// Whether the pool opens for this.
#[tactic(auto, using(crate::proofs::Words::all_named))]
pub fn opens(ask: &Ask) -> bool
    ensures { result ≡ opens (to_ask ask.now) }
{
    match ask {
        Ask::Does(line) => does_open(line),
        Ask::Submits(_, _) => true,
        Ask::SubmitsBytes(_) => true,
        Ask::Checks(word) => is_named(word),
        Ask::Counts => true,
        Ask::Extends(block) => all_named(&block.txs),
        Ask::Syncs(_, _) => true,
        Ask::Returns(_) => true,
        _ => false,
    }
}

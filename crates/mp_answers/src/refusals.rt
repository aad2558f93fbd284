//! The words of refusals, and their details.

ghost use Rattle.std.specs.Prelude.{◌≡◌, ◌<◌, ◌∷◌, ◌++◌, length, map, OnOk};
ghost use Rattle.mp_answers.specs.AnswerText.{number_text, hex_text, token_name_text, policy_text, token_text, word_at, rule_place, refusal_place, told_of_fault, told_of_refusal, refusal_text};

use crate::words::{put_number, put_word};
use mp_bundle::{PolicyId, TokenName};
use mp_memory::{Memory, NoMemory};
use mp_names::Names;
use mp_seqpool::{Invalid, Refusal};
use mp_text::{Text, are_letters_or_digits};

/// The number of kinds of refusals.
pub const REFUSALS: usize = 18;

/// The words of refusals, in the order in which counts of refusals are reported.
pub const REFUSAL_WORDS: [&[u8]; REFUSALS] = [
    b"history",
    b"tickets",
    b"already",
    b"full",
    b"memory",
    b"no-inputs",
    b"interval",
    b"negative",
    b"missing",
    b"address",
    b"datum",
    b"taken",
    b"no-policy",
    b"unbalanced",
    b"signature",
    b"validator",
    b"policy-script",
    b"reference",
];

// The indices of the rules' words, by the rules' numbers from 1.
const RULE_PLACES: [usize; 14] = [4, 5, 6, 7, 8, 17, 9, 10, 11, 12, 13, 14, 15, 16];

// Appends a number sign and the hexadecimal digits of the bytes.
fn put_hex(memory: Memory, text: &mut Text, bytes: &[u8]) -> Result<(), NoMemory>
    ensures { OnOk result (text.new.items ≡ text.old.items ++ hex_text bytes.now) }
{
    text.push(b'#')?;
    let digits = hex::encode(memory, bytes)?;
    put_word(text, digits.as_bytes())
}

// The author of a token picks its name freely, and may put a line feed into it.
fn put_token_name(memory: Memory, text: &mut Text, name: &[u8]) -> Result<(), NoMemory>
    ensures { OnOk result (text.new.items ≡ text.old.items ++ token_name_text name.now) }
{
    if are_letters_or_digits(name) {
        put_word(text, name)
    } else {
        put_hex(memory, text, name)
    }
}

fn put_policy(
    memory: Memory,
    text: &mut Text,
    names: &Names,
    policy: &PolicyId,
) -> Result<(), NoMemory>
    ensures { OnOk result
        (text.new.items ≡ text.old.items ++ policy_text names.now policy.now) }
{
    let name = names.policy_name(policy);
    if name.is_empty() {
        put_hex(memory, text, policy)
    } else {
        put_word(text, name)
    }
}

fn put_token(
    memory: Memory,
    text: &mut Text,
    names: &Names,
    policy: &PolicyId,
    name: &TokenName,
) -> Result<(), NoMemory>
    ensures { OnOk result (text.new.items
        ≡ text.old.items ++ token_text names.now policy.now name.now) }
{
    put_policy(memory, text, names, policy)?;
    let name = name.as_slice();
    if !name.is_empty() {
        text.push(b'.')?;
        put_token_name(memory, text, name)?;
    }
    Ok(())
}

// Appends the policy, after a space.
fn put_policy_behind(
    memory: Memory,
    text: &mut Text,
    names: &Names,
    policy: &PolicyId,
) -> Result<(), NoMemory>
    ensures { OnOk result
        (text.new.items ≡ text.old.items ++ 32 ∷ policy_text names.now policy.now) }
{
    text.push(b' ')?;
    put_policy(memory, text, names, policy)
}

// Appends the token, after a space.
fn put_token_behind(
    memory: Memory,
    text: &mut Text,
    names: &Names,
    policy: &PolicyId,
    name: &TokenName,
) -> Result<(), NoMemory>
    ensures { OnOk result (text.new.items
        ≡ text.old.items ++ 32 ∷ token_text names.now policy.now name.now) }
{
    text.push(b' ')?;
    put_token(memory, text, names, policy, name)
}

// The index of the rule's word.
fn rule_place(fault: &Invalid) -> usize
    ensures place { result ≡ rule_place fault.now }
    ensures least { result < 18 }
{
    RULE_PLACES[fault.number() as usize - 1]
}

/// The index of the refusal's word in `REFUSAL_WORDS`.
pub fn refusal_place(refusal: &Refusal) -> usize
    ensures place { result ≡ refusal_place refusal.now }
    ensures least { result < 18 }
{
    match refusal {
        Refusal::HistoryFull => 0,
        Refusal::TicketsSpent => 1,
        Refusal::AlreadyInPool(_) => 2,
        Refusal::Full { .. } => 3,
        Refusal::NoMemory => 4,
        Refusal::Invalid(fault) => rule_place(fault),
    }
}

// Appends a space and the index.
fn put_place(text: &mut Text, place: usize) -> Result<(), NoMemory>
    ensures { OnOk result (text.new.items ≡ text.old.items ++ number_text place) }
{
    put_number(text, place as u64)
}

fn put_told_of_fault(
    memory: Memory,
    text: &mut Text,
    names: &Names,
    fault: &Invalid,
) -> Result<(), NoMemory>
    ensures { OnOk result (text.new.items ≡ text.old.items ++ told_of_fault names.now fault.now) }
{
    match fault {
        Invalid::NoMemory | Invalid::NoInputs | Invalid::OutsideInterval => Ok(()),
        Invalid::NegativeOutput(place)
        | Invalid::InputMissing(place)
        | Invalid::ReferenceMissing(place)
        | Invalid::AddressMismatch(place)
        | Invalid::DatumMismatch(place)
        | Invalid::OutputTaken(place)
        | Invalid::ValidatorRefused(place)
        | Invalid::PolicyRefused(place) => put_place(text, *place),
        Invalid::ForgeWithoutPolicy(policy) => put_policy_behind(memory, text, names, policy),
        Invalid::Unbalanced { policy, name, .. } => {
            put_token_behind(memory, text, names, policy, name)
        }
        Invalid::BadSignature(key) => put_place(text, key[0] as usize),
    }
}

// Appends the number of bytes that are needed, and of those that are free.
fn put_bytes(text: &mut Text, need: u64, free: u64) -> Result<(), NoMemory>
    ensures { OnOk result
        (text.new.items ≡ text.old.items ++ (number_text need ++ number_text free)) }
{
    put_number(text, need)?;
    put_number(text, free)
}

// Appends the details of the refusal.
fn put_told_of_refusal(
    memory: Memory,
    text: &mut Text,
    names: &Names,
    refusal: &Refusal,
) -> Result<(), NoMemory>
    ensures { OnOk result
        (text.new.items ≡ text.old.items ++ told_of_refusal names.now refusal.now) }
{
    match refusal {
        Refusal::NoMemory | Refusal::HistoryFull | Refusal::TicketsSpent => Ok(()),
        Refusal::AlreadyInPool(ticket) => put_number(text, *ticket),
        Refusal::Full { need, free } => put_bytes(text, *need, *free),
        Refusal::Invalid(fault) => put_told_of_fault(memory, text, names, fault),
    }
}

// Appends the word at the index.
fn put_word_at(text: &mut Text, words: &[&[u8]], place: usize) -> Result<(), NoMemory>
    requires { place < length words.now }
    ensures { OnOk result
        (text.new.items ≡ text.old.items ++ word_at (map (λ w. w.now) words.now) place) }
{
    put_word(text, words[place])
}

/// Appends the word of the refusal, and its details.
#[tactic(auto, unfolding(crate::specs::AnswerText::refusal_text))]
pub fn put_refusal(
    memory: Memory,
    text: &mut Text,
    names: &Names,
    refusal: &Refusal,
) -> Result<(), NoMemory>
    ensures { OnOk result
        (text.new.items ≡ text.old.items ++ refusal_text names.now refusal.now) }
{
    put_word_at(text, &REFUSAL_WORDS, refusal_place(refusal))?;
    put_told_of_refusal(memory, text, names, refusal)
}

//! Fields that a transaction may have only once.

use crate::fields::{Field, field_of};
use mp_bytes::Hash;
use mp_memory::Memory;
use mp_names::{Denoted, LineFault, Names, Reason, first_repeat};
use mp_tx::OutRef;

// The part of a field that no other field of its transaction may repeat.
#[derive(Clone, Copy, PartialEq, Eq, PartialOrd, Ord)]
enum Subject {
    Reference(OutRef),
    Policy(Hash),
    Signature(u8),
    BadSignature(u8),
    First,
    Last,
    Forged,
}

fn subject_of(field: &Field) -> Denoted<Subject> {
    let subject = match field {
        Field::Pays(_) => return Denoted::Anything,
        Field::Spends(input) => Subject::Reference(input.from),
        Field::LooksAt(reference) => Subject::Reference(*reference),
        Field::From(_) => Subject::First,
        Field::To(_) => Subject::Last,
        Field::Forges(_) => Subject::Forged,
        Field::Carries(script) => Subject::Policy(*script.hash()),
        Field::Signs(signer) if signer.is_good => Subject::Signature(signer.key),
        Field::Signs(signer) => Subject::BadSignature(signer.key),
    };
    Denoted::Once(subject)
}

// Between two spaces there is no field.
fn subject_in(memory: Memory, names: &Names, word: &[u8]) -> Denoted<Subject> {
    match field_of(memory, names, word) {
        Ok(field) => subject_of(&field),
        Err(LineFault::NoMemory) => Denoted::NoMemory,
        Err(LineFault::Bad(_)) if word.is_empty() => Denoted::Anything,
        Err(LineFault::Bad(_)) => Denoted::Bad,
    }
}

/// The first field that repeats one before it, although it may occur only once, unless an earlier field is bad.
pub fn repeat_in<'a>(
    memory: Memory,
    names: &Names,
    words: &'a [u8],
) -> Result<Option<Reason<'a>>, LineFault<'a>> {
    first_repeat(memory, words, b' ', |word| subject_in(memory, names, word))
}

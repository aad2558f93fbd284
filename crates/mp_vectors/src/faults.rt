//! The faults: their names, numbers and texts.

use crate::answer::name_of;
use crate::numbered::Numbered;
use crate::wrong::{Result, Wrong};
use mp_bundle::BundleFault;
use mp_history::AuditFault;
use mp_memory::{Memory, NoMemory};
use mp_script::{DataFault, ScriptFault};
use mp_seqpool::{Invalid, Refusal};
use mp_text::{InputFault, WriteFault};
use mp_tx::{LedgerFault, TxFault};
use std::fmt::{Debug, Display};

const BUNDLE_FAULTS: [BundleFault; 5] = [
    BundleFault::NoMemory,
    BundleFault::NotRising,
    BundleFault::ZeroQuantity,
    BundleFault::NameTooLong,
    BundleFault::QuantityRange,
];

const DATA_FAULTS: [DataFault; 5] = [
    DataFault::NoMemory,
    DataFault::Truncated,
    DataFault::BadTag,
    DataFault::TooDeep,
    DataFault::Trailing,
];

const SCRIPT_FAULTS: [ScriptFault; 7] = [
    ScriptFault::NoMemory,
    ScriptFault::Truncated,
    ScriptFault::BadOperator,
    ScriptFault::Underflow,
    ScriptFault::NotOneExpression,
    ScriptFault::TooLong,
    ScriptFault::TooDeep,
];

/// Why bytes or parts make no transaction.
pub const TX_FAULTS: [TxFault; 12] = [
    TxFault::NoMemory,
    TxFault::Truncated,
    TxFault::Trailing,
    TxFault::BadVersion,
    TxFault::NotRising,
    TxFault::BadBundle,
    TxFault::BadScript,
    TxFault::BadData,
    TxFault::BadInterval,
    TxFault::TooLarge,
    TxFault::ReferenceSpent,
    TxFault::NoReferences,
];

const LEDGER_FAULTS: [LedgerFault; 3] = [
    LedgerFault::NoMemory,
    LedgerFault::Repeated(7),
    LedgerFault::BadBlockBytes,
];

const REFUSALS: [Refusal; 6] = [
    Refusal::NoMemory,
    Refusal::HistoryFull,
    Refusal::TicketsSpent,
    Refusal::AlreadyInPool(7),
    Refusal::Full { need: 9, free: 8 },
    Refusal::Invalid(Invalid::InputMissing(3)),
];

const AUDIT_FAULTS: [AuditFault; 3] = [
    AuditFault::NoMemory,
    AuditFault::WrongReply(4),
    AuditFault::StrangeCaller(7),
];

const INPUT_FAULTS: [InputFault; 2] = [InputFault::NoMemory, InputFault::Read];

// Whether a fault has a name, which is printed before its values.
fn is_named<F: Debug>(memory: Memory, fault: &F, name: &str) -> Result<bool> {
    let told = name_of(memory, fault)?;
    match told.as_str().strip_prefix(name) {
        None => Ok(false),
        Some(rest) => Ok(rest.is_empty() || rest.starts_with('(') || rest.starts_with(' ')),
    }
}

// Whether the fault's number is the expected one, or its number and text, or only its text if it has no number.
fn is_told<F: Numbered + Display>(memory: Memory, fault: &F, wanted: &str) -> Result<bool> {
    let told = match fault.number_if_any() {
        None => format!(in memory; "{fault}")?,
        Some(number) => {
            if wanted.parse::<u64>() == Ok(number) {
                return Ok(true);
            }
            format!(in memory; "{number} {fault}")?
        }
    };
    Ok(told.as_str() == wanted)
}

// Whether the fault with this name has the expected number and text.
fn holds_among<F: Numbered + Debug + Display>(
    memory: Memory,
    faults: &[F],
    name: &str,
    wanted: &str,
) -> Result<bool> {
    for fault in faults {
        if is_named(memory, fault, name)? {
            return is_told(memory, fault, wanted);
        }
    }
    Err(Wrong("no such word"))
}

/// Whether a fault has the expected number and text.
pub fn holds(memory: Memory, given: &str, wanted: &str) -> Result<bool> {
    let (kind, name) = given.split_once("::").unwrap_or((given, given));
    match kind {
        "NoMemory" => holds_among(memory, &[NoMemory], name, wanted),
        "BundleFault" => holds_among(memory, &BUNDLE_FAULTS, name, wanted),
        "DataFault" => holds_among(memory, &DATA_FAULTS, name, wanted),
        "ScriptFault" => holds_among(memory, &SCRIPT_FAULTS, name, wanted),
        "TxFault" => holds_among(memory, &TX_FAULTS, name, wanted),
        "LedgerFault" => holds_among(memory, &LEDGER_FAULTS, name, wanted),
        "Refusal" => holds_among(memory, &REFUSALS, name, wanted),
        "Invalid" => holds_among(memory, &[Invalid::NoMemory], name, wanted),
        "AuditFault" => holds_among(memory, &AUDIT_FAULTS, name, wanted),
        "InputFault" => holds_among(memory, &INPUT_FAULTS, name, wanted),
        "WriteFault" => holds_among(memory, &[WriteFault], name, wanted),
        _ => Err(Wrong("no such word")),
    }
}

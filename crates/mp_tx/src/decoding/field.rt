//! Fields of a transaction.

ghost use Rattle.std.specs.Prelude.{◌≡◌};
ghost use Rattle.mp_bytes.specs.Reading.{seen};
ghost use Rattle.mp_tx.specs.Reading.{Reads, ref_read, byte_read, few_count_read, script_read, data_read, interval_read};

use crate::fault::TxFault;
use crate::reference::OutRef;
use crate::tx::MAX_PARTS;
use mp_bytes::{split_array, split_count, split_sized, split_unsigned};
use mp_memory::Memory;
use mp_script::{Data, DataFault, Script, ScriptFault};

/// One byte.
#[tactic(auto, unfolding(crate::specs::Reading::byte_read))]
pub fn read_byte(bytes: &[u8]) -> Result<(u8, &[u8]), TxFault>
    ensures { seen (λ x. (x.0, x.1.now)) result ≡ byte_read bytes.now }
{
    let Some((byte, rest)) = bytes.split_first() else {
        return Err(TxFault::Truncated);
    };
    Ok((*byte, rest))
}

/// A reference to an output.
#[tactic(auto, unfolding(crate::specs::Reading::ref_read))]
pub fn read_ref(bytes: &[u8]) -> Result<(OutRef, &[u8]), TxFault>
    ensures { seen (λ x. (x.0, x.1.now)) result ≡ ref_read bytes.now }
{
    let Some((id, rest)) = split_array::<32>(bytes) else {
        return Err(TxFault::Truncated);
    };
    let Some((index, rest)) = split_count(rest) else {
        return Err(TxFault::Truncated);
    };
    Ok((OutRef { id: *id, index }, rest))
}

/// A count of at most 256.
pub fn read_count(bytes: &[u8]) -> Result<(u16, &[u8]), TxFault>
    ensures { seen (λ x. (x.0, x.1.now)) result ≡ few_count_read bytes.now }
{
    let Some((count, rest)) = split_count(bytes) else {
        return Err(TxFault::Truncated);
    };
    if count as usize > MAX_PARTS {
        return Err(TxFault::TooLarge);
    }
    Ok((count, rest))
}

/// A script, after its length.
#[tactic(auto, unfolding(crate::specs::Reading::script_read))]
pub fn read_script(memory: Memory, bytes: &[u8]) -> Result<(Script, &[u8]), TxFault>
    ensures { Reads (λ x. (x.0, x.1.now)) result (script_read bytes.now) }
{
    let Some((text, rest)) = split_sized(bytes) else {
        return Err(TxFault::Truncated);
    };
    match Script::decode(memory, text) {
        Ok(script) => Ok((script, rest)),
        Err(ScriptFault::NoMemory) => Err(TxFault::NoMemory),
        Err(_) => Err(TxFault::BadScript),
    }
}

/// A datum, after its length.
#[tactic(auto, unfolding(crate::specs::Reading::data_read))]
pub fn read_data(memory: Memory, bytes: &[u8]) -> Result<(Data, &[u8]), TxFault>
    ensures { Reads (λ x. (x.0, x.1.now)) result (data_read bytes.now) }
{
    let Some((text, rest)) = split_sized(bytes) else {
        return Err(TxFault::Truncated);
    };
    match Data::decode(memory, text) {
        Ok(datum) => Ok((datum, rest)),
        Err(DataFault::NoMemory) => Err(TxFault::NoMemory),
        Err(_) => Err(TxFault::BadData),
    }
}

/// The first tick and the last.
#[tactic(auto, unfolding(crate::specs::Reading::interval_read))]
pub fn read_interval(bytes: &[u8]) -> Result<((u64, u64), &[u8]), TxFault>
    ensures { seen (λ x. (x.0, x.1.now)) result ≡ interval_read bytes.now }
{
    let Some((from, rest)) = split_unsigned(bytes) else {
        return Err(TxFault::Truncated);
    };
    let Some((to, rest)) = split_unsigned(rest) else {
        return Err(TxFault::Truncated);
    };
    if to < from {
        return Err(TxFault::BadInterval);
    }
    Ok(((from, to), rest))
}

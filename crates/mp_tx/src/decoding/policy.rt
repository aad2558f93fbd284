//! Reading policy scripts.

ghost use Rattle.std.specs.Prelude.{◌≡◌, [], None, IfOk};
ghost use Rattle.std.specs.Option.{option_copied};
ghost use Rattle.mp_tx.specs.Reading.{Reads, items_read, counted_read, itself, policy_read};

use super::field::read_script;
use crate::fault::TxFault;
use crate::order::script_follows;
use mp_bytes::split_count;
use mp_memory::Memory;
use mp_script::Script;

// The least number of bytes of a policy script, with its length.
const LEAST_POLICY_BYTES: usize = 3;

#[tactic(auto, unfolding(crate::specs::Reading::policy_read))]
fn read_policy<'a>(
    memory: Memory,
    before: Option<&Script>,
    bytes: &'a [u8],
) -> Result<(Script, &'a [u8]), TxFault>
    ensures { Reads (λ x. (x.0, x.1.now)) result
        (policy_read (option_copied before.entry) bytes.now) }
{
    let (script, rest) = read_script(memory, bytes)?;
    if !script_follows(before, &script) {
        return Err(TxFault::NotRising);
    }
    Ok((script, rest))
}

// Puts this many policy scripts into an empty vector, and returns the bytes after them.
fn put_policies<'a>(
    memory: Memory,
    scripts: &mut Vec<Script, Memory>,
    count: u16,
    bytes: &'a [u8],
) -> Result<&'a [u8], TxFault>
    requires { scripts.old.items ≡ [] }
    ensures { Reads (λ rest. (scripts.new.items, rest.now)) result
        (items_read itself policy_read None count bytes.now) }
{
    let mut rest = bytes;
    for _ in 0..count {
        match read_policy(memory, scripts.last(), rest) {
            Ok((script, after)) => {
                scripts.push(script)?;
                rest = after;
            }
            Err(fault) => return Err(fault),
        }
    }
    Ok(rest)
}

/// Puts the policy scripts into an empty vector, and returns the bytes after them.
pub fn fill_policies<'a>(
    memory: Memory,
    scripts: &mut Vec<Script, Memory>,
    bytes: &'a [u8],
) -> Result<&'a [u8], TxFault>
    requires { scripts.old.items ≡ [] }
    ensures { Reads (λ rest. (scripts.new.items, rest.now)) result
        (counted_read itself policy_read bytes.now) }
{
    let Some((count, rest)) = split_count(bytes) else {
        return Err(TxFault::Truncated);
    };
    let most = rest.len() / LEAST_POLICY_BYTES;
    scripts.reserve_exact(most.min(count as usize))?;
    put_policies(memory, scripts, count, rest)
}

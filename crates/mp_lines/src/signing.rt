//! The signatures of a scenario's signers.

ghost use Rattle.std.specs.Prelude.{◌≡◌, OnOk};
ghost use Rattle.mp_lines.specs.Draft.{flip, first_byte, signature_of, signatures_of};

use crate::fields::Signer;
use mp_memory::{Memory, NoMemory};
use mp_names::insert_rising;
use mp_tx::{Signature, TxId};

const KEY_BYTES: usize = 32;

const SIG_BYTES: usize = 64;

fn flip(byte: u8) -> u8
    ensures { result ≡ flip byte }
{
    if byte % 2 == 0 { byte + 1 } else { byte - 1 }
}

fn first_byte(signer: Signer) -> u8
    ensures { result ≡ first_byte signer }
{
    if signer.is_good {
        signer.key
    } else {
        flip(signer.key)
    }
}

// The key, which is 32 bytes that all have its number, and then the id. A bad signature has another first byte.
#[tactic(auto, unfolding(crate::specs::Draft::signature_of))]
fn signature_of(id: &TxId, signer: Signer) -> Signature
    ensures { result ≡ signature_of id.now signer }
{
    let mut sig = [signer.key; SIG_BYTES];
    sig[0] = first_byte(signer);
    sig[KEY_BYTES..].copy_from_slice(id);
    Signature {
        key: [signer.key; KEY_BYTES],
        sig,
    }
}

/// Adds the signers' signatures of the id, in strictly increasing order.
pub fn put_signatures(
    signatures: &mut Vec<Signature, Memory>,
    id: &TxId,
    signers: &[Signer],
) -> Result<(), NoMemory>
    ensures { OnOk result (signatures.new.items
        ≡ signatures_of id.now signatures.old.items signers.now) }
{
    for signer in signers {
        insert_rising(signatures, signature_of(id, *signer))?;
    }
    Ok(())
}

//! Drafts of transactions.

ghost use Rattle.std.specs.Prelude.{◌≡◌, [], ◌∷◌, ◌++◌, Ok, Some, None, option_and_then, unwrap_or, IfOk, IfErr, OnOk};
ghost use Rattle.mp_names.specs.declared.fault.LineFault.TheVariants as line_faults;
ghost use Rattle.std.specs.Arc.{arc_value};
ghost use Rattle.mp_text.specs.Words.{words_of};
ghost use Rattle.mp_tx.specs.TxFault.{parts_of};
ghost use Rattle.mp_names.specs.Rising.{insert_rising};
ghost use Rattle.mp_lines.specs.Draft.{empty_draft, draft_of, transaction_of, if_fits, signatures_of, signed, declared_of};
ghost use Rattle.mp_names.specs.Fault.{Reads, Gives, IsBad};
ghost use Rattle.mp_lines.specs.Inside.Draft.{bare_of};

use crate::copies::{copy_inputs, copy_scripts, put_outputs};
use crate::fields::{Field, Signer, field_of};
use crate::signing::put_signatures;
use crate::subjects::repeat_in;
use mp_bundle::Bundle;
use mp_memory::{Memory, NoMemory};
use mp_names::{DeclaredTx, LineFault, Names, Payment, Reason, Rising, insert_rising, set_once};
use mp_script::Script;
use mp_text::first_word;
use mp_tx::{Input, OutRef, Tx, TxFault, TxId, TxParts};
use std::marker::Model;
use std::mem;
use std::sync::Arc;

// Nothing is signed yet, so no id is needed.
const NO_ID: TxId = [0; 32];

/// The fields of a transaction so far. Inputs, references and policy scripts are strictly increasing. Payments and
/// signers keep their order.
pub struct Draft {
    inputs: Vec<Input, Memory>,
    references: Vec<OutRef, Memory>,
    payments: Vec<Payment, Memory>,
    from: Option<u64>,
    to: Option<u64>,
    forge: Option<Bundle>,
    scripts: Vec<Script, Memory>,
    signers: Vec<Signer, Memory>,
}

impl Drop for Draft {
    fn drop(self) {
        let Draft {
            inputs: _,
            references: _,
            payments: _,
            from: _,
            to: _,
            forge: _,
            scripts: _,
            signers: _,
        } = self;
    }
}

impl Model for Draft {
    ghost use Rattle.mp_lines.specs.Draft as told;
    ghost use Rattle.mp_lines.specs.Inside.Draft.{draft};

    ghost Value = { told.Draft };

    ghost view = { draft };
}

fn put_last<'a, T: Drop>(items: &mut Vec<T, Memory>, item: T) -> Result<(), LineFault<'a>>
    ensures ok { OnOk result (items.new.items ≡ items.old.items ++ item ∷ []) }
    ensures memory { IfErr result (λ fault. fault ≡ line_faults.NoMemory) }
{
    items.push(item)?;
    Ok(())
}

// Inserts the item before the first that is greater.
fn put_rising<'a, T: Rising + Drop>(
    items: &mut Vec<T, Memory>,
    item: T,
) -> Result<(), LineFault<'a>>
    ensures ok { OnOk result (items.new.items ≡ insert_rising T.order item items.old.items) }
    ensures memory { IfErr result (λ fault. fault ≡ line_faults.NoMemory) }
{
    insert_rising(items, item)?;
    Ok(())
}

impl Draft {
    ghost use Rattle.std.specs.Prelude.{◌≡◌, [], ◌∷◌, ◌++◌, Some, None, option_map, option_copied, OnOk};
    ghost use Rattle.mp_names.specs.Fault.{IsBad};
    ghost use Rattle.mp_lines.specs.Draft.{empty_draft, with_field};

    /// A draft without fields.
    pub fn new(memory: Memory) -> Draft
        ensures { result ≡ empty_draft }
    {
        Draft {
            inputs: Vec::new(memory),
            references: Vec::new(memory),
            payments: Vec::new(memory),
            from: None,
            to: None,
            forge: None,
            scripts: Vec::new(memory),
            signers: Vec::new(memory),
        }
    }

    /// Adds the field. The first tick, the last tick and the forged tokens may be given once. Given again, they are
    /// `Bad`, with this reason.
    pub fn add<'a>(&mut self, field: Field, reason: Reason<'a>) -> Result<(), LineFault<'a>>
        ensures ok { OnOk result (with_field self.old field ≡ Some self.new) }
        ensures bad { IsBad result → with_field self.old field ≡ None }
    {
        match field {
            Field::Spends(input) => put_rising(&mut self.inputs, input),
            Field::LooksAt(reference) => put_rising(&mut self.references, reference),
            Field::Pays(payment) => put_last(&mut self.payments, payment),
            Field::From(tick) => set_once(&mut self.from, tick, reason),
            Field::To(tick) => set_once(&mut self.to, tick, reason),
            Field::Forges(bundle) => set_once(&mut self.forge, bundle, reason),
            Field::Carries(script) => put_rising(&mut self.scripts, script),
            Field::Signs(signer) => put_last(&mut self.signers, signer),
        }
    }
}

// The reason for a word that may occur once, until it is known which earlier word means the same.
fn repeated(word: &[u8]) -> Reason<'_> {
    Reason::Repeats {
        later: word,
        earlier: word,
    }
}

// Adds the fields of the words.
fn fill<'a>(
    draft: &mut Draft,
    memory: Memory,
    names: &Names,
    words: &'a [u8],
) -> Result<(), LineFault<'a>>
    ensures ok { OnOk result
        (draft_of names.now draft.old (words_of words.now) ≡ Some draft.new) }
    ensures bad { IsBad result
        → draft_of names.now draft.old (words_of words.now) ≡ None }
{
    let mut rest = words;
    while let Some((word, others)) = first_word(rest) {
        let field = field_of(memory, names, word)?;
        draft.add(field, repeated(word))?;
        rest = others;
    }
    Ok(())
}

fn forge_of(draft: &Draft) -> Result<Bundle, NoMemory>
    ensures { IfOk result (λ b. b ≡ unwrap_or draft.now.forge []) }
{
    match &draft.forge {
        Some(forge) => forge.share(),
        None => Ok(Bundle::empty()),
    }
}

// The parts that take no memory.
fn bare_parts(memory: Memory, draft: &Draft) -> TxParts
    ensures { parts_of result ≡ bare_of draft.now }
{
    TxParts {
        inputs: Vec::new(memory),
        references: Vec::new(memory),
        outputs: Vec::new(memory),
        from: draft.from.unwrap_or(0),
        to: draft.to.unwrap_or(u64::MAX),
        forge: Bundle::empty(),
        scripts: Vec::new(memory),
        signatures: Vec::new(memory),
    }
}

// Adds copies of the others, and the signatures of the id by these signers.
fn put_others(
    parts: &mut TxParts,
    memory: Memory,
    draft: &Draft,
    id: &TxId,
    signers: &[Signer],
) -> Result<(), NoMemory>
    requires { parts_of parts.old ≡ bare_of draft.now }
    ensures { OnOk result (parts_of parts.new
        ≡ transaction_of draft.now (signatures_of id.now [] signers.now)) }
{
    parts.forge = forge_of(draft)?;
    parts.references = Vec::from_slice(memory, &draft.references)?;
    copy_inputs(&mut parts.inputs, &draft.inputs)?;
    put_outputs(&mut parts.outputs, &draft.payments)?;
    copy_scripts(&mut parts.scripts, &draft.scripts)?;
    put_signatures(&mut parts.signatures, id, signers)
}

fn put_together<'a>(memory: Memory, parts: TxParts) -> Result<Tx, LineFault<'a>>
    ensures { Reads (if_fits (parts_of parts)) result }
{
    match Tx::of_parts(memory, parts) {
        Ok(tx) => Ok(tx),
        Err(TxFault::NoMemory) => Err(LineFault::NoMemory),
        Err(TxFault::BadInterval) => Err(LineFault::Bad(Reason::Interval)),
        Err(_) => Err(LineFault::Bad(Reason::LargeTransaction)),
    }
}

// The transaction, with the signatures of the id by these signers.
fn make_tx<'a>(
    memory: Memory,
    draft: &Draft,
    id: &TxId,
    signers: &[Signer],
) -> Result<Tx, LineFault<'a>>
    ensures { Reads (if_fits
        (transaction_of draft.now (signatures_of id.now [] signers.now))) result }
{
    let mut parts = bare_parts(memory, draft);
    put_others(&mut parts, memory, draft, id, signers)?;
    put_together(memory, parts)
}

fn make_unsigned<'a>(memory: Memory, draft: &Draft) -> Result<Tx, LineFault<'a>>
    ensures { Reads (if_fits (transaction_of draft.now [])) result }
{
    make_tx(memory, draft, &NO_ID, &[])
}

// A signer needs the id, so a signed transaction is made twice.
fn sign<'a>(memory: Memory, draft: &Draft, unsigned: Tx) -> Result<Tx, LineFault<'a>>
    requires { if_fits (transaction_of draft.now []) ≡ Some unsigned }
    ensures { Reads (signed draft.now unsigned) result }
{
    if draft.signers.is_empty() {
        return Ok(unsigned);
    }
    make_tx(memory, draft, unsigned.id(), &draft.signers)
}

fn make_signed<'a>(memory: Memory, draft: &Draft) -> Result<Tx, LineFault<'a>>
    ensures { Reads
        (option_and_then (signed draft.now) (if_fits (transaction_of draft.now []))) result }
{
    let unsigned = make_unsigned(memory, draft)?;
    sign(memory, draft, unsigned)
}

fn make_shared<'a>(memory: Memory, draft: &Draft) -> Result<Arc<Tx, Memory>, LineFault<'a>>
    ensures { Gives arc_value
        (option_and_then (signed draft.now) (if_fits (transaction_of draft.now []))) result }
{
    let tx = make_signed(memory, draft)?;
    Ok(Arc::new(memory, tx)?)
}

// The transaction of the draft, with its payments.
#[tactic(auto, unfolding(crate::specs::Draft::declared_of))]
fn declared_of<'a>(memory: Memory, draft: &mut Draft) -> Result<DeclaredTx, LineFault<'a>>
    ensures { Reads (declared_of draft.old) result }
{
    let tx = make_shared(memory, draft)?;
    let mut payments = mem::replace(&mut draft.payments, Vec::new(memory));
    payments.shrink_to_fit();
    Ok(DeclaredTx::of(tx, payments))
}

fn make_declared<'a>(
    memory: Memory,
    names: &Names,
    words: &'a [u8],
) -> Result<DeclaredTx, LineFault<'a>>
    ensures { Reads (option_and_then declared_of
        (draft_of names.now empty_draft (words_of words.now))) result }
{
    let mut draft = Draft::new(memory);
    fill(&mut draft, memory, names, words)?;
    declared_of(memory, &mut draft)
}

/// The transaction of the fields in these words.
pub fn declared_by<'a>(
    memory: Memory,
    names: &Names,
    words: &'a [u8],
) -> Result<DeclaredTx, LineFault<'a>>
    ensures { Reads (option_and_then declared_of
        (draft_of names.now empty_draft (words_of words.now))) result }
{
    match make_declared(memory, names, words) {
        Err(LineFault::Bad(reason)) => {
            let repeat = repeat_in(memory, names, words)?;
            Err(LineFault::Bad(repeat.unwrap_or(reason)))
        }
        made => made,
    }
}

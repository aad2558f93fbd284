//! The outputs that a pool opens with.

ghost use Rattle.std.specs.Prelude.{◌≡◌, ◌<◌, ◌^◌, ℕ, [], ◌∷◌, ◌++◌, is_some, IfOk, IfSome, IfNone, OnOk, OnErr};
ghost use Rattle.std.specs.FinMap.{get};
ghost use Rattle.mp_tx.specs.Ledger.{HasBlockBytes, ledger_after, AreFree, IsFirstTaken};
ghost use Rattle.mp_names.specs.declared.names.Binding.TheVariants.{Opening};
ghost use Rattle.mp_names.specs.Names.{with_binding};
ghost use Rattle.mp_names.specs.Payments.{output_of};
ghost use Rattle.mp_names.specs.References.{opening_ref};
ghost use Rattle.mp_session.specs.Beginning.{put_in};

use crate::ledgers::make_ledger;
use crate::settings::Settings;
use mp_lines::MAX_OUTPUTS;
use mp_memory::{Memory, NoMemory};
use mp_names::{Binding, LineFault, Name, Names, Payment, Reason};
use mp_tx::{BlockFault, Ledger, OutRef, Output, Salt};
use std::marker::Model;

// Outputs with their references.
type Entries = Vec<(OutRef, Output), Memory>;

/// The outputs that a pool opens with. Contracts see how many of them have names, and a ledger state with all of them.
pub struct Beginning {
    outs: u64,
    // Outputs with names that aren't in the ledger state yet, since adding many at once costs less.
    pending: Entries,
    ledger: Ledger,
}

impl Drop for Beginning {
    fn drop(self) {
        let Beginning {
            outs: _,
            pending: _,
            ledger: _,
        } = self;
    }
}

impl Model for Beginning {
    ghost use Rattle.std.specs.Coded.{codes};
    ghost use Rattle.std.specs.FinMap as finite;
    ghost use Rattle.mp_session.specs.Beginning as told;
    ghost use Rattle.mp_session.specs.Inside.Beginning.{beginning_of, IsPending};

    ghost Value = { told.Beginning };

    ghost coded = { Prim.hlevel (codes, finite.code) };

    ghost view = { beginning_of };

    ghost invariant = { IsPending };
}

// The block bytes have no meaning yet.
const BLOCK_BYTES: u64 = 500_000;

fn put_share(entries: &mut Entries, entry: &(OutRef, Output)) -> Result<(), NoMemory>
    ensures { OnOk result (entries.new.items ≡ entries.old.items ++ entry.now ∷ []) }
{
    entries.push((entry.0, entry.1.share()?))?;
    Ok(())
}

fn share_all(memory: Memory, entries: &[(OutRef, Output)]) -> Result<Entries, NoMemory>
    ensures { IfOk result (λ shares. shares.items ≡ entries.now) }
{
    let mut shares = Vec::new(memory);
    shares.reserve_exact(entries.len())?;
    for entry in entries {
        put_share(&mut shares, entry)?;
    }
    Ok(shares)
}

// The ledger state with these outputs too, unless one of their references is taken.
fn with_made(
    memory: Memory,
    ledger: &Ledger,
    tick: u64,
    block_bytes: u64,
    made: Entries,
) -> Result<Option<Ledger>, NoMemory>
    requires { HasBlockBytes block_bytes }
    ensures made { IfOk result (λ l. IfSome l
        (λ l. l ≡ ledger_after ledger.now tick block_bytes [] made.items)) }
    ensures free { IfOk result (λ l. IfSome l (λ _. AreFree ledger.now.utxo made.items)) }
    ensures taken { IfOk result (λ l. IfNone l
        ((place : ℕ) × IsFirstTaken ledger.now.utxo made.items place)) }
{
    match ledger.after(memory, tick, block_bytes, &[], made) {
        Ok(after) => Ok(Some(after)),
        Err(BlockFault::NoMemory) => Err(NoMemory),
        Err(BlockFault::Repeated(_)) => Ok(None),
        Err(BlockFault::Missing(_)) => unreachable!(),
        Err(BlockFault::BadBlockBytes) => unreachable!(),
    }
}

/// The ledger state with these outputs too.
pub fn add_all(
    memory: Memory,
    ledger: &Ledger,
    tick: u64,
    block_bytes: u64,
    entries: &[(OutRef, Output)],
) -> Result<Ledger, NoMemory>
    requires bytes { HasBlockBytes block_bytes }
    requires free { AreFree ledger.now.utxo entries.now }
    ensures { IfOk result (λ l. l ≡ ledger_after ledger.now tick block_bytes [] entries.now) }
{
    let made = share_all(memory, entries)?;
    match with_made(memory, ledger, tick, block_bytes, made)? {
        Some(ledger) => Ok(ledger),
        None => unreachable!(),
    }
}

/// The ledger state with one more output, unless its reference is taken.
pub fn put_in(
    memory: Memory,
    ledger: &Ledger,
    reference: OutRef,
    output: Output,
) -> Result<Option<Ledger>, NoMemory>
    ensures { IfOk result (λ l. l ≡ put_in ledger.now reference output) }
{
    let mut made = Vec::new(memory);
    made.push((reference, output))?;
    with_made(memory, ledger, ledger.tick(), ledger.block_bytes(), made)
}

fn opening_ref(number: u64) -> OutRef
    requires { number < 2 ^ 16 }
    ensures { result ≡ opening_ref number }
{
    OutRef {
        id: [0; 32],
        index: number as u16,
    }
}

fn is_taken(ledger: &Ledger, reference: &OutRef) -> bool
    ensures { result ≡ is_some (get ledger.now.utxo reference.now) }
{
    ledger.get(reference).is_some()
}

// Adds an output under the reference, and declares the name for it.
fn put_named(
    pending: &mut Entries,
    names: &mut Names,
    name: Name,
    reference: OutRef,
    payment: Payment,
) -> Result<(), NoMemory>
    ensures pending { OnOk result (pending.new.items
        ≡ pending.old.items ++ (reference, output_of payment) ∷ []) }
    ensures names { OnOk result (names.new ≡ with_binding names.old (record {
      name = name;
      binding = Opening reference payment;
    })) }
    ensures err { OnErr result
        ((names.new ≡ names.old) × (pending.new.items ≡ pending.old.items)) }
{
    let output = payment.to_output()?;
    pending.push((reference, output))?;
    match names.declare(name, Binding::Opening(reference, payment)) {
        Ok(()) => Ok(()),
        Err(NoMemory) => {
            let _ = pending.pop();
            Err(NoMemory)
        }
    }
}

impl Beginning {
    ghost use Rattle.std.specs.Prelude.{◌≡◌, Some, None, IfOk, OnOk, OnErr};
    ghost use Rattle.mp_names.specs.declared.names.Binding.TheVariants.{Opening};
    ghost use Rattle.mp_names.specs.Fault.{IsBad};
    ghost use Rattle.mp_names.specs.Names.{with_binding};
    ghost use Rattle.mp_names.specs.References.{opening_ref};
    ghost use Rattle.mp_session.specs.Beginning.{empty_beginning, with_out, with_utxo, opening_ledger};

    /// No outputs.
    pub fn new(memory: Memory, salt: Salt) -> Result<Beginning, NoMemory>
        ensures { IfOk result (λ b. b ≡ empty_beginning salt) }
    {
        let ledger = make_ledger(memory, salt, 0, BLOCK_BYTES, Vec::new(memory))?;
        Ok(Beginning {
            outs: 0,
            pending: Vec::new(memory),
            ledger,
        })
    }

    // The ledger state with all outputs.
    fn whole(&self, memory: Memory) -> Result<Ledger, NoMemory>
        ensures { IfOk result (λ l. l ≡ self.now.ledger) }
    {
        let ledger = &self.ledger;
        let (tick, block_bytes) = (ledger.tick(), ledger.block_bytes());
        add_all(memory, ledger, tick, block_bytes, &self.pending)
    }

    /// Adds an output under the next reference, and declares the name for it. After an `Err` nothing has changed.
    pub fn put_out<'a>(
        &mut self,
        names: &mut Names,
        name: Name,
        payment: Payment,
    ) -> Result<(), LineFault<'a>>
        ensures ok { OnOk result (with_out self.old payment ≡ Some self.new) }
        ensures names { OnOk result (names.new ≡ with_binding names.old (record {
          name = name;
          binding = Opening (opening_ref self.old.outs) payment;
        })) }
        ensures bad { IsBad result → with_out self.old payment ≡ None }
        ensures err { OnErr result ((names.new ≡ names.old) × (self.new ≡ self.old)) }
    {
        if self.outs >= MAX_OUTPUTS as u64 {
            return Err(LineFault::Bad(Reason::ManyOutputs));
        }
        let reference = opening_ref(self.outs);
        if is_taken(&self.ledger, &reference) {
            return Err(LineFault::Bad(Reason::Repeats {
                later: b"out",
                earlier: b"utxo",
            }));
        }
        put_named(&mut self.pending, names, name, reference, payment)?;
        self.outs += 1;
        Ok(())
    }

    /// Adds an output under its reference. After an `Err` nothing has changed.
    pub fn put_utxo<'a>(
        &mut self,
        memory: Memory,
        reference: OutRef,
        output: Output,
    ) -> Result<(), LineFault<'a>>
        ensures ok { OnOk result (with_utxo self.old reference output ≡ Some self.new) }
        ensures bad { IsBad result → with_utxo self.old reference output ≡ None }
        ensures err { OnErr result (self.new ≡ self.old) }
    {
        let whole = self.whole(memory)?;
        match put_in(memory, &whole, reference, output)? {
            Some(ledger) => {
                self.ledger = ledger;
                self.pending.clear();
                Ok(())
            }
            None => Err(LineFault::Bad(Reason::Repeats {
                later: b"utxo",
                earlier: b"utxo",
            })),
        }
    }

    /// The ledger state with which the pool opens.
    pub fn open(&self, memory: Memory, settings: &Settings) -> Result<Ledger, NoMemory>
        ensures { IfOk result (λ l. l ≡ opening_ledger settings.now self.now) }
    {
        let (tick, block_bytes) = (settings.tick(), settings.block_bytes());
        add_all(memory, &self.ledger, tick, block_bytes, &self.pending)
    }
}

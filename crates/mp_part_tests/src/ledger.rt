//! Ledger states after blocks, with failed allocations. States that are made of outputs are tested by the lines of mp_vectors'
//! `ledger.txt`.
use crate::rows::Row;
use mp_bundle::Bundle;
use mp_memory::{Memory, NoMemory};
use mp_testing::{Call, Seen, TrialFault, Trialled, under_each_refusal};
use mp_tx::{Ledger, LedgerFault, OutRef, Output, Salt, Undo};

/// The salt of each ledger state here.
pub const SALT: u64 = 0x5eed;

/// Output `index` of the transaction whose id is 32 times a byte.
pub fn reference(byte: u8, index: u16) -> OutRef {
    OutRef {
        id: [byte; 32],
        index,
    }
}

// An output of no value, with an address of its own.
fn output(byte: u8) -> Output {
    Output {
        address: [byte; 32],
        datum_hash: [0; 32],
        value: Bundle::empty(),
    }
}

// The first outputs of the transactions 0, 1, ..
fn outputs_to(memory: Memory, end: u8) -> Result<Vec<(OutRef, Output), Memory>, NoMemory> {
    let mut outputs = Vec::new(memory);
    for byte in 0..end {
        outputs.push((reference(byte, 0), output(byte)))?;
    }
    Ok(outputs)
}

fn ledger_of(
    memory: Memory,
    outputs: Vec<(OutRef, Output), Memory>,
) -> Result<Ledger, LedgerFault> {
    Ledger::of_outputs(memory, Salt::new(SALT), 6, 1, outputs)
}

/// A ledger state of `outputs` outputs.
pub fn ledger_with(memory: Memory, outputs: u8) -> Option<Ledger> {
    let Ok(outputs) = outputs_to(memory, outputs) else {
        return None;
    };
    ledger_of(memory, outputs).ok()
}

/// The first byte of an output's address.
pub fn address_at(ledger: &Ledger, from: OutRef) -> u64 {
    match ledger.get(&from) {
        Some(output) => u64::from(output.address[0]),
        None => 0,
    }
}

// A block that spends the output of transaction 3 and makes none, on a ledger state.
#[derive(Drop)]
struct Block {
    memory: Memory,
    base: Ledger,
}

impl Call for Block {
    type Value = Ledger;

    fn make(&self) -> Option<Ledger> {
        self.base.share().ok()
    }

    fn call(&self, ledger: &mut Ledger) -> Option<Seen> {
        let made = Vec::new(self.memory);
        let Ok(after) = ledger.after(self.memory, 7, 2, &[reference(3, 0)], made) else {
            return None;
        };
        *ledger = after;
        Some(self.look(ledger))
    }

    fn look(&self, ledger: &Ledger) -> Seen {
        let spent = address_at(ledger, reference(3, 0));
        let kept = address_at(ledger, reference(4, 0));
        [ledger.tick(), ledger.block_bytes(), spent, kept, 0, 0]
    }
}

fn make_block(memory: Memory, outputs: u8) -> Option<Block> {
    let Some(base) = ledger_with(memory, outputs) else {
        return None;
    };
    Some(Block { memory, base })
}

fn tried_block(memory: Memory, outputs: u8) -> Result<Trialled, TrialFault> {
    match make_block(memory, outputs) {
        Some(block) => under_each_refusal(&memory, &block),
        None => Err(TrialFault::NotMade),
    }
}

// The ledger state to which the undo of the block leads.
fn back(memory: Memory, before: &Ledger) -> Option<Ledger> {
    let spent = [reference(3, 0)];
    let Ok(after) = before.after(memory, 7, 2, &spent, Vec::new(memory)) else {
        return None;
    };
    let Ok(undo) = Undo::between(memory, before, &after, &spent) else {
        return None;
    };
    undo.apply(memory, &after).ok()
}

// The way back to the ledger state before that block.
#[derive(Drop)]
struct WayBack {
    block: Block,
}

impl Call for WayBack {
    type Value = Ledger;

    fn make(&self) -> Option<Ledger> {
        self.block.make()
    }

    fn call(&self, ledger: &mut Ledger) -> Option<Seen> {
        let before = back(self.block.memory, &self.block.base)?;
        *ledger = before;
        Some(self.look(ledger))
    }

    fn look(&self, ledger: &Ledger) -> Seen {
        self.block.look(ledger)
    }
}

fn tried_way_back(memory: Memory, outputs: u8) -> Result<Trialled, TrialFault> {
    match make_block(memory, outputs) {
        Some(block) => under_each_refusal(&memory, &WayBack { block }),
        None => Err(TrialFault::NotMade),
    }
}

/// Blocks with failed allocations, and the ways back from them. The changes of some become a layer, on few outputs and on many.
/// Those of one go into a table that is built again.
pub fn blocks(memory: Memory) -> [Row; 5] {
    [
        Row::tried("a layer", tried_block(memory, 9), [7, 2, 0, 4], 7),
        Row::tried("a table", tried_block(memory, 7), [7, 2, 0, 4], 9),
        Row::tried(
            "a layer upon many",
            tried_block(memory, 255),
            [7, 2, 0, 4],
            7,
        ),
        Row::tried(
            "a layer undone",
            tried_way_back(memory, 9),
            [6, 1, 3, 4],
            20,
        ),
        Row::tried(
            "a table undone",
            tried_way_back(memory, 7),
            [6, 1, 3, 4],
            24,
        ),
    ]
}

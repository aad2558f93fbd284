//! Items in lines: transactions by their names, with their tickets.

ghost use Rattle.std.specs.Prelude.{◌≡◌, ◌++◌, option_map, OnOk};
ghost use Rattle.std.specs.Arc.{arc_value};
ghost use Rattle.mp_seqpool.specs.Keep.{bytes_of};
ghost use Rattle.mp_seqpool.specs.Item.{items_of};
ghost use Rattle.hex.specs.Hex.{encode_lower};
ghost use Rattle.mp_answers.specs.AnswerText.{name_or_id, tx_name_text, item_text, items_text};
ghost use Rattle.mp_answers.specs.QueryText.{sized_text, found_text, has_text};

use crate::words::{put_number, put_word};
use mp_memory::{Memory, NoMemory};
use mp_names::Names;
use mp_seqpool::Item;
use mp_text::Text;
use mp_tx::{Tx, TxId};
use std::sync::Arc;

/// Appends each byte of an id as two digits. It allocates only their space in the text.
pub fn put_id(text: &mut Text, id: &TxId) -> Result<(), NoMemory>
    ensures { OnOk result (text.new.items ≡ text.old.items ++ encode_lower id.now) }
{
    let mut digits = [0; 64];
    match hex::encode_to_slice(id.as_slice(), &mut digits) {
        Ok(()) => put_word(text, &digits),
        Err(_) => unreachable!(),
    }
}

// Appends the name, or the digits of the id if the name is empty.
fn put_name_or_id(text: &mut Text, name: &[u8], id: &TxId) -> Result<(), NoMemory>
    ensures { OnOk result (text.new.items ≡ text.old.items ++ name_or_id name.now id.now) }
{
    if name.is_empty() {
        put_id(text, id)
    } else {
        put_word(text, name)
    }
}

/// Appends the name or the digits under which the id is reported.
pub fn put_tx_name(text: &mut Text, names: &Names, id: &TxId) -> Result<(), NoMemory>
    ensures { OnOk result (text.new.items ≡ text.old.items ++ tx_name_text names.now id.now) }
{
    if names.reports_by_id() {
        put_id(text, id)
    } else {
        put_name_or_id(text, names.name_of(id), id)
    }
}

/// Appends an item: its ticket and the name of its transaction.
pub fn put_item(text: &mut Text, names: &Names, ticket: u64, tx: &Tx) -> Result<(), NoMemory>
    ensures { OnOk result (text.new.items ≡ text.old.items
        ++ item_text names.now (ticket, tx.now)) }
{
    put_number(text, ticket)?;
    text.push(b':')?;
    put_tx_name(text, names, tx.id())
}

/// Appends each item: its ticket and the name of its transaction.
pub fn put_items(text: &mut Text, names: &Names, items: &[Item]) -> Result<(), NoMemory>
    ensures { OnOk result (text.new.items ≡ text.old.items
        ++ items_text names.now (items_of items.now)) }
{
    for item in items {
        put_item(text, names, item.ticket, &item.tx)?;
    }
    Ok(())
}

/// Appends the transaction of a ticket, or that there is none.
pub fn put_found(
    text: &mut Text,
    names: &Names,
    found: Option<&Arc<Tx, Memory>>,
) -> Result<(), NoMemory>
    ensures { OnOk result (text.new.items ≡ text.old.items
        ++ found_text names.now (option_map (λ tx. arc_value tx.now) found.entry)) }
{
    match found {
        None => put_word(text, b"lookup none"),
        Some(tx) => {
            put_word(text, b"lookup ")?;
            put_tx_name(text, names, tx.id())
        }
    }
}

/// Appends whether a transaction is there.
pub fn put_has(text: &mut Text, has: bool) -> Result<(), NoMemory>
    ensures { OnOk result (text.new.items ≡ text.old.items ++ has_text has) }
{
    if has {
        put_word(text, b"has yes")
    } else {
        put_word(text, b"has no")
    }
}

/// Appends the number of items, their bytes, and the items.
pub fn put_sized(text: &mut Text, names: &Names, bytes: u64, items: &[Item]) -> Result<(), NoMemory>
    requires { bytes ≡ bytes_of (items_of items.now) }
    ensures { OnOk result (text.new.items ≡ text.old.items
        ++ sized_text names.now (items_of items.now)) }
{
    put_number(text, items.len() as u64)?;
    put_number(text, bytes)?;
    put_items(text, names, items)
}

//! A datum, or one within it, borrowed.

ghost use Rattle.std.specs.Prelude.{◌≡◌, ◌<◌, List, ℕ, ◌++◌, length, IfSome, Some};
ghost use Rattle.std.specs.Option.{option_map};
ghost use Rattle.mp_bytes.specs.Fields.{number_at, sized_at};
ghost use Rattle.mp_script.specs.Datum.{Items, count, AllFit, spellings};
ghost use Rattle.mp_script.specs.Inside.DatumRef.{behind, bare, number_seen, octets_seen, items_seen, head_at, AreItems, IsItem, IsRun};

use crate::walk::{LIST, NUMBER, OCTETS};
use mp_bytes::{split_count, split_number, split_sized};
use std::marker::Model;

/// A borrowed datum, or a part of one. Contracts see its bytes.
#[derive(Debug, Drop)]
pub struct DatumRef<'a> {
    bytes: &'a [u8],
}

impl<'a> Model for DatumRef<'a> {
    ghost use Rattle.std.specs.Prelude.{ℕ, List};
    ghost use Rattle.mp_script.specs.Datum.{IsDatum};

    ghost Value = { List ℕ };

    ghost view = { λ p. p.bytes.now };

    ghost invariant = { λ p. IsDatum p.bytes.now };
}

// The bytes after the tag, if it is the one that is wanted.
fn behind(bytes: &[u8], wanted: u8) -> Option<&[u8]>
    ensures { option_map (λ b. b.now) result ≡ behind bytes.now wanted }
{
    let (tag, rest) = bytes.split_first()?;
    if *tag == wanted { Some(rest) } else { None }
}

#[tactic(auto, unfolding(crate::specs::Inside::DatumRef::number_seen))]
fn number_in(bytes: &[u8]) -> Option<i64>
    ensures { result ≡ number_seen bytes.now }
{
    let (number, _rest) = split_number(behind(bytes, NUMBER)?)?;
    Some(number)
}

#[tactic(auto, unfolding(crate::specs::Inside::DatumRef::octets_seen))]
fn octets_in(bytes: &[u8]) -> Option<&[u8]>
    ensures { option_map (λ b. b.now) result ≡ octets_seen bytes.now }
{
    let (octets, _rest) = split_sized(behind(bytes, OCTETS)?)?;
    Some(octets)
}

#[tactic(auto, unfolding(crate::specs::Inside::DatumRef::items_seen))]
fn items_in(bytes: &[u8]) -> Option<(u16, &[u8])>
    ensures { option_map (λ f. (f.0, f.1.now)) result ≡ items_seen bytes.now }
{
    split_count(behind(bytes, LIST)?)
}

fn octets_head(bytes: &[u8]) -> Option<(u16, &[u8])>
    ensures { option_map (λ f. (f.0, f.1.now)) result ≡ bare (sized_at bytes.now) }
{
    let (_octets, rest) = split_sized(bytes)?;
    Some((0, rest))
}

fn number_head(bytes: &[u8]) -> Option<(u16, &[u8])>
    ensures { option_map (λ f. (f.0, f.1.now)) result ≡ bare (number_at bytes.now) }
{
    let (_number, rest) = split_number(bytes)?;
    Some((0, rest))
}

// The number of data in the datum at the front, and the bytes after its head.
#[tactic(auto, unfolding(crate::specs::Inside::DatumRef::head_at))]
fn head(bytes: &[u8]) -> Option<(u16, &[u8])>
    ensures { option_map (λ f. (f.0, f.1.now)) result ≡ head_at bytes.now }
{
    let (tag, rest) = bytes.split_first()?;
    match *tag {
        NUMBER => number_head(rest),
        OCTETS => octets_head(rest),
        LIST => split_count(rest),
        _ => None,
    }
}

// The bytes after `count` data.
fn skip(bytes: &[u8], count: u64) -> &[u8]
    requires { (rest : List ℕ) × IsRun bytes.now count rest }
    ensures { (rest : List ℕ) → IsRun bytes.now count rest → result.now ≡ rest }
{
    let mut rest = bytes;
    let mut left = count;
    while left > 0 {
        let Some((more, after)) = head(rest) else {
            unreachable!()
        };
        left = left - 1 + more as u64;
        rest = after;
    }
    rest
}

// The bytes of the item at an index.
fn item_bytes(bytes: &[u8], place: u64) -> &[u8]
    requires { (items : Items) × AreItems bytes.now items place }
    ensures { (items : Items) → AllFit items → place < count items → bytes.now ≡ spellings items →
        IsItem items place result.now }
{
    let item = skip(bytes, place);
    let after = skip(item, 1);
    &item[..item.len() - after.len()]
}

impl<'a> DatumRef<'a> {
    ghost use Rattle.std.specs.Prelude.{◌≡◌};
    ghost use Rattle.std.specs.Option.{option_map};
    ghost use Rattle.mp_script.specs.Datum.{IsDatum, number_in, octets_in, length_in, item_in};
    ghost use Rattle.mp_script.specs.DataReading.{tree_of};

    /// The datum that these bytes spell, as a part.
    pub(crate) fn of(bytes: &'a [u8]) -> DatumRef<'a>
        requires { IsDatum bytes.now }
        ensures { result ≡ bytes.now }
    {
        DatumRef { bytes }
    }

    /// Its bytes.
    pub fn bytes(&self) -> &'a [u8]
        ensures same { result.now ≡ self.now }
        ensures datum { IsDatum self.now }
    {
        self.bytes
    }

    /// The number, if the datum is one.
    pub fn number(&self) -> Option<i64>
        ensures { result ≡ number_in (tree_of self.now) }
    {
        number_in(self.bytes)
    }

    /// The bytes that it holds, if the datum is bytes.
    pub fn octets(&self) -> Option<&'a [u8]>
        ensures { option_map (λ b. b.now) result ≡ octets_in (tree_of self.now) }
    {
        octets_in(self.bytes)
    }

    /// The number of items, if the datum is a list.
    pub fn length(&self) -> Option<u16>
        ensures { result ≡ length_in (tree_of self.now) }
    {
        let (count, _items) = items_in(self.bytes)?;
        Some(count)
    }

    /// The item at an index, from 0, if the datum is a list that has one there.
    pub fn item(&self, place: u64) -> Option<DatumRef<'a>>
        ensures { option_map tree_of result ≡ item_in (tree_of self.now) place }
    {
        let (count, items) = items_in(self.bytes)?;
        if place >= count as u64 {
            return None;
        }
        Some(DatumRef {
            bytes: item_bytes(items, place),
        })
    }
}

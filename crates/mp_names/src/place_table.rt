//! Indexes of the items of a list, found by bytes without a walk.

ghost use Rattle.std.specs.Prelude.{◌≡◌, ◌<◌, [], Some};
ghost use Rattle.indexmap.specs.IndexMap.{spare};
ghost use Rattle.mp_names.specs.Inside.PlaceTable.{noted_at, Notes};

use indexmap::IndexMap;
use mp_memory::Memory;
use mp_tx::Salt;

/// Indexes under keys: names, or the hashes of scripts.
pub type PlaceTable = IndexMap<Vec<u8, Memory>, usize, Salt, Memory>;

/// A table without indexes.
pub fn no_places(memory: Memory, salt: Salt) -> PlaceTable
    ensures { result.entries ≡ [] }
{
    IndexMap::with_hasher(memory, salt)
}

/// The index that is noted under the key.
pub fn place_under(places: &PlaceTable, key: &[u8]) -> Option<usize>
    ensures { result ≡ noted_at places.now.entries key.now }
{
    places.get(key).copied()
}

/// Notes the index under the key, unless one is noted there.
pub fn note(places: &mut PlaceTable, key: Vec<u8, Memory>, place: usize)
    requires { 0 < spare places.old }
    ensures { Notes places.old.entries (Some key.items) place places.new.entries }
{
    if places.contains_key(key.as_slice()) {
        return;
    }
    match places.insert(key, place) {
        Ok(_) => {}
        Err(_) => unreachable!(),
    }
}

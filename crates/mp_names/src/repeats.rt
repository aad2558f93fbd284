//! Words of which no two may denote the same.

ghost use Rattle.std.specs.Prelude.{length};
ghost use Rattle.std.specs.List.Sorted.{IsSearchInRange};

use crate::fault::LineFault;
use crate::reason::Reason;
use std::alloc::Allocator;

/// What a word denotes.
#[derive(Drop)]
pub enum Denoted<K> {
    /// No other word may denote the same.
    Once(K),
    /// The word may occur again.
    Anything,
    Bad,
    NoMemory,
}

// A word with what it denotes.
type Earlier<'a, K> = (K, &'a [u8]);

fn place_of<'a, K: Ord>(earlier: &[Earlier<'a, K>], key: &K) -> Result<usize, usize>
    ensures { IsSearchInRange result (length earlier.now) }
{
    earlier.binary_search_by(|word| word.0.cmp(key))
}

/// The first of the words between separators that denotes the same as an earlier one. The search ends at the first bad word.
pub fn first_repeat<'a, A: Allocator + Drop, K: Ord + Drop, F: Fn(&[u8]) -> Denoted<K>>(
    alloc: A,
    words: &'a [u8],
    separator: u8,
    denoted: F,
) -> Result<Option<Reason<'a>>, LineFault<'a>>
    requires { F.IsAlwaysCallable denoted }
{
    let mut earlier: Vec<Earlier<'a, K>, A> = Vec::new(alloc);
    for word in words.split(|byte| *byte == separator) {
        let key = match denoted(word) {
            Denoted::Once(key) => key,
            Denoted::Anything => continue,
            Denoted::Bad => return Ok(None),
            Denoted::NoMemory => return Err(LineFault::NoMemory),
        };
        match place_of(&earlier, &key) {
            Ok(place) => {
                return Ok(Some(Reason::Repeats {
                    later: word,
                    earlier: earlier[place].1,
                }));
            }
            Err(place) => earlier.insert(place, (key, word))?,
        }
    }
    Ok(None)
}

//! Splitting words at their separators.

ghost use Rattle.std.specs.Prelude.{◌≡◌, ◌<◌, ◌==◌, length, position, IfSome, option_copied};
ghost use Rattle.mp_names.specs.Splitting.{split_once};

fn first_place(word: &[u8], separator: u8) -> Option<usize>
    ensures place { result ≡ position (λ b. b == separator) word.now }
    ensures within { IfSome result (λ place. place < length word.now) }
{
    word.iter().position(|&byte| byte == separator)
}

/// The bytes before the first separator, and those after it, if there is one.
#[tactic(auto, unfolding(crate::specs::Splitting::split_once))]
pub fn split_once(word: &[u8], separator: u8) -> (&[u8], Option<&[u8]>)
    ensures before { result.0.now ≡ (split_once separator word.now).0 }
    ensures after { option_copied result.1 ≡ (split_once separator word.now).1 }
    ensures shorter { IfSome result.1 (λ rest. length rest.now < length word.now) }
{
    match first_place(word, separator) {
        Some(place) => (&word[..place], Some(&word[place + 1..])),
        None => (word, None),
    }
}

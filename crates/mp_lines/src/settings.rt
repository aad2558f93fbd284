//! Lines with settings.

ghost use Rattle.std.specs.Prelude.{◌≡◌, option_and_then, option_map};
ghost use Rattle.std.specs.Result.{result_ok};
ghost use Rattle.mp_text.specs.Numbers.{number_of};
ghost use Rattle.mp_text.specs.Words.{words_of};
ghost use Rattle.mp_names.specs.declared.settings.Setting.TheVariants as told;
ghost use Rattle.mp_names.specs.Settings.{block_bytes_of, limit_of};
ghost use Rattle.mp_lines.specs.Words.{one_word};

use crate::forms::{BLOCK, LAST, LIMIT, TICK};
use crate::words::one_word;
use mp_names::{Reason, Setting};

/// block N
pub fn block_setting(words: &[u8]) -> Result<Setting, Reason<'_>>
    ensures { result_ok result ≡ option_map told.BlockBytes
        (option_and_then block_bytes_of (one_word (words_of words.now))) }
{
    let word = one_word(BLOCK.text, words)?;
    Setting::block_bytes(word)
}

/// limit N
pub fn limit_setting(words: &[u8]) -> Result<Setting, Reason<'_>>
    ensures { result_ok result ≡ option_map told.Limit
        (option_and_then limit_of (one_word (words_of words.now))) }
{
    let word = one_word(LIMIT.text, words)?;
    Setting::limit(word)
}

/// last N
pub fn last_setting(words: &[u8]) -> Result<Setting, Reason<'_>>
    ensures { result_ok result ≡ option_map told.Last
        (option_and_then number_of (one_word (words_of words.now))) }
{
    let word = one_word(LAST.text, words)?;
    Setting::last(word)
}

/// tick N
pub fn tick_setting(words: &[u8]) -> Result<Setting, Reason<'_>>
    ensures { result_ok result ≡ option_map told.Tick
        (option_and_then number_of (one_word (words_of words.now))) }
{
    let word = one_word(TICK.text, words)?;
    Setting::tick(word)
}

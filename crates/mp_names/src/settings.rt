//! Settings of a scenario.

use crate::numbers::{any_number, number_in};
use crate::reason::Reason;
use mp_tx::MAX_BLOCK_BYTES;
use std::marker::Model;

const MAX_LIMIT: u64 = 1 << 32;

/// The greatest size of a block in bytes: 1 to 2^39.
#[derive(Drop)]
pub struct BlockBytes {
    bytes: u64,
}

impl Model for BlockBytes {
    ghost use Rattle.std.specs.Prelude.{ℕ};
    ghost use Rattle.mp_tx.specs.Ledger.{HasBlockBytes};

    ghost Value = { ℕ };

    ghost view = { λ b. b.bytes };

    ghost invariant = { λ b. HasBlockBytes b.bytes };
}

impl BlockBytes {
    ghost use Rattle.std.specs.Prelude.{◌≡◌};
    ghost use Rattle.std.specs.Result.{result_ok};
    ghost use Rattle.mp_tx.specs.Ledger.{HasBlockBytes};
    ghost use Rattle.mp_names.specs.Settings.{block_bytes_of};

    /// The value that a word denotes, if it is a number in the range.
    pub fn parse(word: &[u8]) -> Result<BlockBytes, Reason<'_>>
        ensures { result_ok result ≡ block_bytes_of word.now }
    {
        let bytes = number_in(word, 1, MAX_BLOCK_BYTES)?;
        Ok(BlockBytes { bytes })
    }

    /// The number.
    pub fn get(&self) -> u64
        ensures same { result ≡ self.now }
        ensures range { HasBlockBytes result }
    {
        self.bytes
    }
}

/// The most changes that a pool makes: 1 to 2^32.
#[derive(Drop)]
pub struct Limit {
    changes: u64,
}

impl Model for Limit {
    ghost use Rattle.std.specs.Prelude.{ℕ};
    ghost use Rattle.mp_names.specs.Settings.{IsLimit};

    ghost Value = { ℕ };

    ghost view = { λ l. l.changes };

    ghost invariant = { λ l. IsLimit l.changes };
}

impl Limit {
    ghost use Rattle.std.specs.Prelude.{◌≡◌};
    ghost use Rattle.std.specs.Result.{result_ok};
    ghost use Rattle.mp_names.specs.Settings.{IsLimit, limit_of};

    /// The value that a word denotes, if it is a number in the range.
    pub fn parse(word: &[u8]) -> Result<Limit, Reason<'_>>
        ensures { result_ok result ≡ limit_of word.now }
    {
        let changes = number_in(word, 1, MAX_LIMIT)?;
        Ok(Limit { changes })
    }

    /// The number.
    pub fn get(&self) -> u64
        ensures same { result ≡ self.now }
        ensures range { IsLimit result }
    {
        self.changes
    }
}

/// A setting and its value. Without a line, each has a default value.
#[derive(Drop)]
pub enum Setting {
    BlockBytes(BlockBytes),
    Limit(Limit),
    /// The ticket that counts as the last one given.
    Last(u64),
    /// The tick of the opening ledger state.
    Tick(u64),
}

impl Setting {
    ghost use Rattle.std.specs.Prelude.{◌≡◌, option_map};
    ghost use Rattle.std.specs.Result.{result_ok};
    ghost use Rattle.mp_text.specs.Numbers.{number_of};
    ghost use Rattle.mp_names.specs.declared.settings.Setting.TheVariants as told;
    ghost use Rattle.mp_names.specs.Settings.{block_bytes_of, limit_of};

    /// The block bytes that a word denotes.
    pub fn block_bytes(word: &[u8]) -> Result<Setting, Reason<'_>>
        ensures { result_ok result ≡ option_map told.BlockBytes (block_bytes_of word.now) }
    {
        let bytes = BlockBytes::parse(word)?;
        Ok(Setting::BlockBytes(bytes))
    }

    /// The limit of changes that a word denotes.
    pub fn limit(word: &[u8]) -> Result<Setting, Reason<'_>>
        ensures { result_ok result ≡ option_map told.Limit (limit_of word.now) }
    {
        let limit = Limit::parse(word)?;
        Ok(Setting::Limit(limit))
    }

    /// The last ticket that a word denotes.
    pub fn last(word: &[u8]) -> Result<Setting, Reason<'_>>
        ensures { result_ok result ≡ option_map told.Last (number_of word.now) }
    {
        let ticket = any_number(word)?;
        Ok(Setting::Last(ticket))
    }

    /// The tick that a word denotes.
    pub fn tick(word: &[u8]) -> Result<Setting, Reason<'_>>
        ensures { result_ok result ≡ option_map told.Tick (number_of word.now) }
    {
        let tick = any_number(word)?;
        Ok(Setting::Tick(tick))
    }
}

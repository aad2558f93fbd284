//! The settings of a scenario.

use mp_lines::{BLOCK, LAST, LIMIT, TICK};
use mp_names::{BlockBytes, Limit, LineFault, Reason, Setting, set_once};
use mp_tx::Salt;

const BLOCK_BYTES: u64 = 500_000;

const CHANGES: u64 = 1_000_000;

/// What was set before the first command, with defaults for the rest.
#[derive(Drop)]
pub struct Settings {
    pub block_bytes: Option<BlockBytes>,
    pub limit: Option<Limit>,
    /// The ticket before the first one that the pool gives. The default is 0.
    pub last: Option<u64>,
    /// The tick of the opening ledger state. The default is 0.
    pub tick: Option<u64>,
    /// The salt of the tables of all ledger states. No line sets it.
    pub salt: Salt,
}

impl Settings {
    ghost use Rattle.std.specs.Prelude.{◌≡◌, Some, None, OnOk, OnErr};
    ghost use Rattle.mp_tx.specs.Ledger.{HasBlockBytes};
    ghost use Rattle.mp_names.specs.Fault.{IsBad};
    ghost use Rattle.mp_names.specs.Settings.{IsLimit};
    ghost use Rattle.mp_session.specs.Settings.{no_settings, with_setting};
    ghost use Rattle.mp_session.specs.Settings.{block_bytes_of, limit_of, last_of, tick_of, salt_of};

    /// No setting is set.
    pub fn new(salt: Salt) -> Settings
        ensures { result ≡ no_settings salt }
    {
        Settings {
            block_bytes: None,
            limit: None,
            last: None,
            tick: None,
            salt,
        }
    }

    /// Sets a value that isn't set yet. If it returns `Err`, nothing has changed.
    pub fn set<'a>(&mut self, setting: Setting) -> Result<(), LineFault<'a>>
        ensures ok { OnOk result (with_setting self.old setting ≡ Some self.new) }
        ensures bad { IsBad result → with_setting self.old setting ≡ None }
        ensures err { OnErr result (self.new ≡ self.old) }
    {
        match setting {
            Setting::BlockBytes(bytes) => {
                set_once(&mut self.block_bytes, bytes, Reason::SetBefore(BLOCK.word))
            }
            Setting::Limit(limit) => {
                set_once(&mut self.limit, limit, Reason::SetBefore(LIMIT.word))
            }
            Setting::Last(ticket) => {
                set_once(&mut self.last, ticket, Reason::SetBefore(LAST.word))
            }
            Setting::Tick(tick) => set_once(&mut self.tick, tick, Reason::SetBefore(TICK.word)),
        }
    }

    /// The greatest size of a block, in bytes. The default is 500,000.
    pub fn block_bytes(&self) -> u64
        ensures same { result ≡ block_bytes_of self.now }
        ensures range { HasBlockBytes result }
    {
        match &self.block_bytes {
            Some(bytes) => bytes.get(),
            None => BLOCK_BYTES,
        }
    }

    /// The tick of the opening ledger state.
    pub fn tick(&self) -> u64
        ensures { result ≡ tick_of self.now }
    {
        self.tick.unwrap_or(0)
    }

    /// The salt of the tables of all ledger states.
    pub fn salt(&self) -> Salt
        ensures { result ≡ salt_of self.now }
    {
        self.salt
    }

    /// The greatest number of changes. The default is 1,000,000.
    pub fn limit(&self) -> u64
        ensures same { result ≡ limit_of self.now }
        ensures range { IsLimit result }
    {
        match &self.limit {
            Some(limit) => limit.get(),
            None => CHANGES,
        }
    }

    /// The ticket before the first one that the pool gives.
    pub fn last(&self) -> u64
        ensures { result ≡ last_of self.now }
    {
        self.last.unwrap_or(0)
    }
}

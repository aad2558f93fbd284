//! The state of a scenario, a conversation or a race, line by line.

ghost use Rattle.std.specs.Prelude.{◌≡◌, IfOk};
ghost use Rattle.mp_seqpool.specs.Command.{Remove};
ghost use Rattle.mp_seqpool.specs.Inside.Command.{command_of};

use crate::beginning::Beginning;
use crate::ledgers::ledger_at;
use crate::request::Request;
use crate::settings::Settings;
use mp_lines::Line;
use mp_memory::{Memory, NoMemory};
use mp_names::{Binding, LineFault, Name, Names, Payment, Reason, Setting};
use mp_seqpool::{Command, Ids};
use mp_tx::{OutRef, Output, Salt, TxId};
use std::sync::Arc;

// The author of a scenario also runs it, so nobody has to be kept from choosing colliding references.
const SALT: u64 = 0;

/// Whether the pool is open.
#[derive(Drop)]
pub enum Stage<P> {
    /// Nothing has been asked of the pool.
    Before(Beginning),
    /// From the first request on: the pool.
    Open(P),
}

/// What the lines of a session have declared, and its pool.
#[derive(Drop)]
pub struct Session<P> {
    pub names: Names,
    pub settings: Settings,
    pub stage: Stage<P>,
}

fn remove_command(memory: Memory, ids: Vec<TxId, Memory>) -> Result<Command, NoMemory>
    ensures { IfOk result (λ c. command_of c ≡ Remove ids.items) }
{
    Ok(Command::Remove(Arc::new(memory, Ids::of(ids))?))
}

impl<P: Drop> Session<P> {
    ghost use Rattle.std.specs.Prelude.{◌≡◌, Some, None, option_map, IfOk, OnOk, OnErr};
    ghost use Rattle.mp_names.specs.Fault.{IsBad};
    ghost use Rattle.mp_lines.specs.Inside.Line.{to_line};
    ghost use Rattle.mp_session.specs.Ledgers.{ledger_at};
    ghost use Rattle.mp_session.specs.Session.{new_session, set_at, output_at, hold_at, take};
    ghost use Rattle.mp_session.specs.Inside.Request.{to_request};

    /// A session before its first line.
    pub fn new(memory: Memory, salt: Salt) -> Result<Session<P>, NoMemory>
        ensures { IfOk result (λ s. s ≡ new_session salt) }
    {
        Ok(Session {
            names: Names::new(memory, salt)?,
            settings: Settings::new(salt),
            stage: Stage::Before(Beginning::new(memory, salt)?),
        })
    }

    /// A session before its first line, with the salt of scenarios, which is public.
    pub fn of_scenario(memory: Memory) -> Result<Session<P>, NoMemory>
        ensures { IfOk result (λ s. s ≡ new_session 0) }
    {
        Session::new(memory, Salt::new(SALT))
    }

    /// Its settings and its stage.
    pub fn into_stage(self) -> (Settings, Stage<P>)
        ensures { result ≡ (self.settings, self.stage) }
    {
        let Session {
            settings,
            stage,
            ..
        } = self;
        (settings, stage)
    }

    // Settings are allowed before the first request.
    fn set<'a>(&mut self, setting: Setting) -> Result<(), LineFault<'a>>
        ensures ok { OnOk result (set_at self.old setting self.old.stage ≡ Some self.new) }
        ensures bad { IsBad result → set_at self.old setting self.old.stage ≡ None }
        ensures err { OnErr result (self.new ≡ self.old) }
    {
        match &self.stage {
            Stage::Before(_) => self.settings.set(setting),
            Stage::Open(_) => Err(LineFault::Bad(Reason::LateSetting)),
        }
    }

    // Outputs are allowed before the first request.
    fn put_out<'a>(&mut self, name: Name, payment: Payment) -> Result<(), LineFault<'a>>
        ensures ok { OnOk result
            (output_at self.old name payment self.old.stage ≡ Some self.new) }
        ensures bad { IsBad result → output_at self.old name payment self.old.stage ≡ None }
        ensures err { OnErr result (self.new ≡ self.old) }
    {
        match &mut self.stage {
            Stage::Before(beginning) => beginning.put_out(&mut self.names, name, payment),
            Stage::Open(_) => Err(LineFault::Bad(Reason::LateOutput)),
        }
    }

    /// Adds an output under its reference to those that the pool opens with.
    ///
    /// # Errors
    /// `Bad` after the first request, and if the reference is taken. After an `Err` nothing has changed.
    pub fn hold<'a>(
        &mut self,
        memory: Memory,
        reference: OutRef,
        output: Output,
    ) -> Result<(), LineFault<'a>>
        ensures ok { OnOk result
            (hold_at self.old reference output self.old.stage ≡ Some self.new) }
        ensures bad { IsBad result → hold_at self.old reference output self.old.stage ≡ None }
        ensures err { OnErr result (self.new ≡ self.old) }
    {
        match &mut self.stage {
            Stage::Before(beginning) => beginning.put_utxo(memory, reference, output),
            Stage::Open(_) => Err(LineFault::Bad(Reason::LateOutput)),
        }
    }

    /// Notes what the line declares, or returns what it asks of the pool. After an `Err` nothing has changed.
    ///
    /// # Errors
    /// `Bad` for a setting that comes twice or after the first request. `Bad` for an output that comes after the first request,
    /// has a reference that is taken, or is the 65,537th with a name.
    pub fn take<'a>(&mut self, memory: Memory, line: Line) -> Result<Option<Request>, LineFault<'a>>
        ensures ok { IfOk result (λ request.
            take self.old (to_line line) ≡ Some (self.new, option_map to_request request)) }
        ensures bad { IsBad result → take self.old (to_line line) ≡ None }
        ensures err { OnErr result (self.new ≡ self.old) }
    {
        match line {
            Line::Blank => {}
            Line::Sets(setting) => self.set(setting)?,
            Line::Script(named) => self.names.declare_script(named)?,
            Line::Data(named) => self.names.declare_datum(named)?,
            Line::Out(name, payment) => self.put_out(name, payment)?,
            Line::Tx(name, declared) => self.names.declare(name, Binding::Made(declared))?,
            Line::Submit(tx) => return Ok(Some(Request::Change(Command::Submit(tx)))),
            Line::Remove(ids) => {
                return Ok(Some(Request::Change(remove_command(memory, ids)?)));
            }
            Line::Sync(ledger) => {
                let ledger = ledger_at(memory, &self.settings, ledger)?;
                return Ok(Some(Request::Change(Command::Sync(ledger))));
            }
            Line::For(ledger) => {
                return Ok(Some(Request::Try(ledger_at(memory, &self.settings, ledger)?)));
            }
            Line::Asks(query) => return Ok(Some(Request::Read(query))),
        }
        Ok(None)
    }
}

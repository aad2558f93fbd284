//! The pool of a scenario.

ghost use Rattle.std.specs.Prelude.{◌≡◌, IfOk, OnOk, OnErr};
ghost use Rattle.mp_seqpool.specs.SlowPool.{answer, next};
ghost use Rattle.mp_seqpool.specs.PoolLaws.{IsLawful};
ghost use Rattle.mp_seqpool.specs.Inside.Command.{command_of};
ghost use Rattle.mp_signatures.specs.Scheme.{accepted_by};

use crate::beginning::Beginning;
use crate::request::Request;
use crate::settings::Settings;
use mp_answers::{answer_line, kept_line, query_line};
use mp_memory::{Memory, NoMemory};
use mp_names::Names;
use mp_seqpool::{Answer, Command, Config, SeqPool};
use mp_signatures::Signatures;
use mp_text::Text;
use std::marker::Model;

/// The pool of a scenario, which one thread has. It opened empty, and commands led to its content.
pub struct ScenarioPool {
    signatures: Signatures,
    pool: SeqPool,
    // The last ticket that the peer was offered.
    cursor: u64,
}

impl Drop for ScenarioPool {
    fn drop(self) {
        let ScenarioPool {
            signatures: _,
            pool: _,
            cursor: _,
        } = self;
    }
}

impl Model for ScenarioPool {
    ghost use Rattle.std.specs.Coded.{codes};
    ghost use Rattle.std.specs.FinMap as finite;
    ghost use Rattle.mp_session.specs.Pool as told;

    ghost Value = { told.ScenarioPool };

    ghost coded = { Prim.hlevel (codes, finite.code) };

    ghost use Rattle.mp_seqpool.specs.PoolLaws.{IsLawful};
    ghost use Rattle.mp_signatures.specs.Scheme.{accepted_by};

    ghost view = { λ p. record {
      scheme = p.signatures;
      pool = p.pool.pool;
      cursor = p.cursor;
    } };

    ghost invariant = { λ p. IsLawful (accepted_by p.signatures) p.pool.pool };
}

// The pool stays lawful.
fn step(signatures: &Signatures, pool: &mut SeqPool, command: &Command) -> Result<Answer, NoMemory>
    requires { IsLawful (accepted_by signatures.now) pool.old.pool }
    ensures answer { IfOk result (λ a. a
        ≡ answer (accepted_by signatures.now) pool.old.pool (command_of command.now)) }
    ensures next { OnOk result
        (pool.new.pool ≡ next (accepted_by signatures.now) pool.old.pool (command_of command.now)) }
    ensures err { OnErr result (pool.new.pool ≡ pool.old.pool) }
    ensures lawful { IsLawful (accepted_by signatures.now) pool.new.pool }
{
    pool.step(command, signatures)
}

impl ScenarioPool {
    ghost use Rattle.std.specs.Prelude.{◌≡◌, IfOk};
    ghost use Rattle.mp_session.specs.Inside.Request.{to_request};
    ghost use Rattle.mp_session.specs.Scene.{opened, respond};

    /// The empty pool on the opening outputs, which accepts these signatures.
    pub fn open(
        memory: Memory,
        settings: &Settings,
        signatures: &Signatures,
        beginning: &Beginning,
    ) -> Result<ScenarioPool, NoMemory>
        ensures { IfOk result (λ p. p ≡ opened signatures.now settings.now beginning.now) }
    {
        let ledger = beginning.open(memory, settings)?;
        let config = Config {
            limit: settings.limit(),
            last: settings.last(),
        };
        Ok(ScenarioPool {
            signatures: signatures.share()?,
            pool: SeqPool::start(memory, config, &ledger)?,
            cursor: 0,
        })
    }

    /// Does what is asked, and returns the line that answers it.
    ///
    /// # Errors
    /// `NoMemory`.
    pub fn respond(
        &mut self,
        memory: Memory,
        names: &Names,
        request: &Request,
    ) -> Result<Text, NoMemory>
        ensures { IfOk result (λ text.
            respond names.now self.old (to_request request.now) ≡ (self.new, text.items)) }
    {
        match request {
            Request::Change(command) => {
                let answer = step(&self.signatures, &mut self.pool, command)?;
                answer_line(memory, names, &answer)
            }
            Request::Try(ledger) => kept_line(memory, names, &self.pool, ledger, &self.signatures),
            Request::Read(query) => {
                let (text, cursor) = query_line(memory, names, self.cursor, &self.pool, *query)?;
                self.cursor = cursor;
                Ok(text)
            }
        }
    }
}

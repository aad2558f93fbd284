//! Scenarios of races.

ghost use Rattle.std.specs.Prelude.{◌≡◌, ◌≤◌, length, Ok, IfOk, OnOk, IfErr};
ghost use Rattle.mp_text.specs.Lines.{lines_of};
ghost use Rattle.mp_race.specs.Scenario.{reading, scenario_of};
ghost use Rattle.mp_race.specs.Reading.{IsStopOf};

use crate::fault::RaceFault;
use crate::stop::RaceStop;
use crate::task::Task;
use crate::task_lines::read_line;
use mp_memory::{Memory, NoMemory};
use mp_mempool::Config;
use mp_names::LineFault;
use mp_session::{Beginning, Session, Settings, Stage};
use mp_text::{InputFault, MAX_BYTES, first_line, read_all};
use mp_tx::Ledger;
use std::io::Read;
use std::marker::Model;

/// What a race runs: the pool that it opens, and the tasks of its workers. Contracts see the configuration, the ledger state and
/// the tasks.
pub struct Scenario {
    pub(crate) config: Config,
    pub(crate) ledger: Ledger,
    pub(crate) tasks: Vec<Task, Memory>,
}

impl Drop for Scenario {
    fn drop(self) {
        let Scenario {
            config: _,
            ledger: _,
            tasks: _,
        } = self;
    }
}

impl Model for Scenario {
    ghost use Rattle.std.specs.Coded.{codes};
    ghost use Rattle.std.specs.FinMap as finite;
    ghost use Rattle.mp_race.specs.Scenario as told;
    ghost use Rattle.mp_names.specs.Settings.{IsLimit};
    ghost use Rattle.mp_race.specs.Inside.Task.{tasks_of};

    ghost Value = { told.Scenario };

    ghost coded = { Prim.hlevel (codes, finite.code) };

    ghost view = { λ s. record {
      config = s.config;
      ledger = s.ledger;
      tasks = tasks_of s.tasks.items;
    } };

    ghost invariant = { λ s. IsLimit s.config.limit };
}

// Reads the lines of a text in order.
fn read_lines<'a>(
    memory: Memory,
    session: &mut Session<Scenario>,
    text: &'a [u8],
) -> Result<(), RaceStop<'a>>
    requires { length text.now ≤ MAX_BYTES }
    ensures ok { OnOk result (reading session.old 1 (lines_of text.now) ≡ Ok session.new) }
    ensures stop { IfErr result (IsStopOf (reading session.old 1 (lines_of text.now))) }
{
    let mut rest = text;
    let mut number = 1u64;
    while let Some((line, after)) = first_line(rest) {
        match read_line(memory, session, line) {
            Ok(()) => {}
            Err(LineFault::NoMemory) => return Err(RaceStop::NoMemory),
            Err(LineFault::Bad(reason)) => return Err(RaceStop::BadLine(number, reason)),
        }
        rest = after;
        number += 1;
    }
    Ok(())
}

// The scenario of what was read.
fn finish(memory: Memory, session: Session<Scenario>) -> Result<Scenario, NoMemory>
    ensures { IfOk result (λ s. s ≡ scenario_of session) }
{
    let (settings, stage) = session.into_stage();
    match stage {
        Stage::Open(scenario) => Ok(scenario),
        Stage::Before(beginning) => Scenario::begin(memory, &settings, &beginning),
    }
}

impl Scenario {
    ghost use Rattle.std.specs.Prelude.{◌≡◌, ◌≤◌, length, Ok, IfOk, IfErr, IfSome, OnOk};
    ghost use Rattle.mp_text.specs.Lines.{lines_of};
    ghost use Rattle.mp_race.specs.Scenario.{begun, with_task};
    ghost use Rattle.mp_race.specs.Inside.Task.{task_of};
    ghost use Rattle.mp_race.specs.Reading.{scenario_from, IsStopOf, AreRead};

    /// The scenario without tasks whose pool opens with this.
    pub(crate) fn begin(
        memory: Memory,
        settings: &Settings,
        beginning: &Beginning,
    ) -> Result<Scenario, NoMemory>
        ensures { IfOk result (λ s. s ≡ begun settings.now beginning.now) }
    {
        Ok(Scenario {
            config: Config {
                limit: settings.limit(),
                last: settings.last(),
            },
            ledger: beginning.open(memory, settings)?,
            tasks: Vec::new(memory),
        })
    }

    /// Adds the task.
    pub(crate) fn push(&mut self, task: Task) -> Result<(), NoMemory>
        ensures { OnOk result (self.new ≡ with_task self.old (task_of task)) }
    {
        self.tasks.push(task)?;
        Ok(())
    }

    /// The scenario with this text.
    ///
    /// # Errors
    /// `BadLine` at the first line that isn't in a race's language. That is the language of a run with the commands `submit`,
    /// `remove`, `sync` and `snapshot` only.
    pub fn parse<'a>(memory: Memory, text: &'a [u8]) -> Result<Scenario, RaceStop<'a>>
        requires { length text.now ≤ MAX_BYTES }
        ensures ok { IfOk result (λ s. scenario_from (lines_of text.now) ≡ Ok s) }
        ensures stop { IfErr result (IsStopOf (scenario_from (lines_of text.now))) }
    {
        let mut session = Session::of_scenario(memory)?;
        read_lines(memory, &mut session, text)?;
        Ok(finish(memory, session)?)
    }

    /// Reads all of the input, and returns the scenario with this text.
    ///
    /// # Errors
    /// `ReadFault` if a read fails, if there are more than 2^24 bytes, or if 2^25 reads don't find the end. `BadLine` as in
    /// `parse`. `NoMemory` may replace any other answer.
    pub fn read<R: Read>(memory: Memory, reader: &mut R) -> Result<Scenario, RaceFault>
        ensures { IfSome (R.remaining reader.old) (λ bytes. AreRead bytes result) }
    {
        match read_all(memory, reader) {
            Ok(text) => match Scenario::parse(memory, &text) {
                Ok(scenario) => Ok(scenario),
                Err(stop) => Err(stop.to_fault()),
            },
            Err(InputFault::NoMemory) => Err(RaceFault::NoMemory),
            Err(InputFault::Read) => Err(RaceFault::ReadFault),
        }
    }
}

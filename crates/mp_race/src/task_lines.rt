//! Reading the lines of a race's scenario.

ghost use Rattle.std.specs.Prelude.{◌≡◌, Some, None, IfOk, OnOk};
ghost use Rattle.mp_names.specs.Fault.{IsBad};
ghost use Rattle.mp_session.specs.declared.session.Stage.TheVariants.{Open};
ghost use Rattle.mp_session.specs.Inside.Request.{to_request};
ghost use Rattle.mp_race.specs.Scenario.{scenario_at, put_task, task_asked, line_step};
ghost use Rattle.mp_race.specs.Inside.Task.{task_of};

use crate::scenario::Scenario;
use crate::task::Task;
use mp_lines::{Line, Query};
use mp_memory::{Memory, NoMemory};
use mp_names::{LineFault, Reason};
use mp_session::{Request, Session, Settings, Stage};

// What the pool opens with is fixed from the first task on.
fn begin(memory: Memory, settings: &Settings, stage: &mut Stage<Scenario>) -> Result<(), NoMemory>
    ensures { OnOk result (stage.new ≡ Open (scenario_at settings.now stage.old)) }
{
    if let Stage::Before(beginning) = stage {
        let scenario = Scenario::begin(memory, settings, beginning)?;
        *stage = Stage::Open(scenario);
    }
    Ok(())
}

fn put_task(memory: Memory, session: &mut Session<Scenario>, task: Task) -> Result<(), NoMemory>
    ensures { OnOk result (session.new ≡ put_task session.old (task_of task)) }
{
    begin(memory, &session.settings, &mut session.stage)?;
    let Stage::Open(scenario) = &mut session.stage else {
        unreachable!()
    };
    scenario.push(task)
}

// The only reads of a race are snapshots.
fn task_asked<'a>(request: Request) -> Result<Task, LineFault<'a>>
    ensures ok { IfOk result (λ t. task_asked (to_request request) ≡ Some (task_of t)) }
    ensures bad { IsBad result → task_asked (to_request request) ≡ None }
{
    match request {
        Request::Change(command) => Ok(Task::Change(command)),
        Request::Read(Query::Snapshot) => Ok(Task::Read),
        _ => Err(LineFault::Bad(Reason::NotInRace)),
    }
}

/// Notes what the line declares, or adds the task that it asks for.
///
/// # Errors
/// `Bad` if the line isn't in the language, the errors of `Session::take`, and `Bad` for a read that is no snapshot.
#[tactic(auto, unfolding(crate::specs::Scenario::line_step))]
pub fn read_line<'a>(
    memory: Memory,
    session: &mut Session<Scenario>,
    line: &'a [u8],
) -> Result<(), LineFault<'a>>
    ensures ok { OnOk result (line_step session.old line.now ≡ Some session.new) }
    ensures bad { IsBad result → line_step session.old line.now ≡ None }
{
    let line = Line::parse(memory, &session.names, line)?;
    match session.take(memory, line)? {
        None => Ok(()),
        Some(request) => {
            let task = task_asked(request)?;
            Ok(put_task(memory, session, task)?)
        }
    }
}

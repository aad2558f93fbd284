//! The state of a scenario, line by line.

ghost use Rattle.std.specs.Prelude.{◌≡◌, OnOk};
ghost use Rattle.mp_session.specs.Scene.{pool_at};
ghost use Rattle.mp_session.specs.declared.session.Stage.TheVariants.{Open};

use crate::pool::ScenarioPool;
use crate::request::Request;
use crate::session::{Session, Stage};
use crate::settings::Settings;
use mp_lines::Line;
use mp_memory::{Memory, NoMemory};
use mp_names::LineFault;
use mp_signatures::Signatures;
use mp_text::Text;

/// The state of a scenario.
#[derive(Drop)]
pub struct Scene {
    /// Which signatures the pool accepts.
    pub signatures: Signatures,
    pub session: Session<ScenarioPool>,
}

// The pool opens with the first request.
fn open_pool(
    memory: Memory,
    signatures: &Signatures,
    settings: &Settings,
    stage: &mut Stage<ScenarioPool>,
) -> Result<(), NoMemory>
    ensures { OnOk result (stage.new ≡ Open (pool_at signatures.now settings.now stage.old)) }
{
    if let Stage::Before(beginning) = stage {
        let pool = ScenarioPool::open(memory, settings, signatures, beginning)?;
        *stage = Stage::Open(pool);
    }
    Ok(())
}

impl Scene {
    ghost use Rattle.std.specs.Prelude.{◌≡◌, Some, None, IfOk};
    ghost use Rattle.mp_names.specs.Fault.{IsBad};
    ghost use Rattle.mp_session.specs.Inside.Request.{to_request};
    ghost use Rattle.mp_session.specs.Scene.{empty_scene, ask, line_step};

    /// The scene before the first line.
    pub fn new(memory: Memory, signatures: &Signatures) -> Result<Scene, NoMemory>
        ensures { IfOk result (λ s. s ≡ empty_scene signatures.now) }
    {
        Ok(Scene {
            signatures: signatures.share()?,
            session: Session::of_scenario(memory)?,
        })
    }

    // Lets the pool respond, which opens with the first request.
    fn ask(&mut self, memory: Memory, request: &Request) -> Result<Text, NoMemory>
        ensures { IfOk result (λ text.
            ask self.old (to_request request.now) ≡ (self.new, text.items)) }
    {
        let Session {
            names,
            settings,
            stage,
        } = &mut self.session;
        open_pool(memory, &self.signatures, settings, stage)?;
        let Stage::Open(pool) = stage else {
            unreachable!()
        };
        pool.respond(memory, names, request)
    }

    /// Parses and executes the line, and returns what it writes. A bad line changes nothing.
    ///
    /// # Errors
    /// `Bad` if the line isn't in the language, and the errors of `Session::take`. `NoMemory` if an allocation fails.
    #[tactic(auto, unfolding(crate::specs::Scene::line_step))]
    pub fn read_line<'a>(&mut self, memory: Memory, line: &'a [u8]) -> Result<Text, LineFault<'a>>
        ensures ok { IfOk result (λ text.
            line_step self.old line.now ≡ Some (self.new, text.items)) }
        ensures bad { IsBad result → line_step self.old line.now ≡ None }
        ensures stays { IsBad result → self.new ≡ self.old }
    {
        let line = Line::parse(memory, &self.session.names, line)?;
        match self.session.take(memory, line)? {
            None => Ok(Vec::new(memory)),
            Some(request) => Ok(self.ask(memory, &request)?),
        }
    }
}

//! The picture of a race.

ghost use Rattle.std.specs.Prelude.{◌≡◌, ◌++◌, map, OnOk, IfOk, IfErr};
ghost use Rattle.std.specs.Process.{exit_status};
ghost use Rattle.mp_main.specs.Picture.{kind_of, entry_mark, refusal_mark, marks_of};

use crate::ending::end_fault;
use crate::files::write_file;
use mp_memory::{Memory, NoMemory};
use mp_race::picture::{Kind, Mark, put_picture};
use mp_race::{RaceFault, Raced, Refused, Told};
use mp_seqpool::Reply;
use std::process::ExitCode;

type Marks = Vec<Mark, Memory>;

fn kind_of(reply: &Reply) -> Kind
    ensures { result ≡ kind_of reply.now }
{
    match reply {
        Reply::Accepted { .. } => Kind::Accepted,
        Reply::Removed { .. } => Kind::Removed,
        Reply::Synced { .. } => Kind::Synced,
    }
}

fn put_entries(marks: &mut Marks, told: &[Told]) -> Result<(), NoMemory>
    ensures { OnOk result (marks.new.items ≡ marks.old.items ++ map entry_mark told.now) }
{
    for entry in told {
        marks.push(Mark {
            worker: entry.worker,
            place: entry.place,
            kind: kind_of(&entry.reply),
        })?;
    }
    Ok(())
}

fn put_refusals(marks: &mut Marks, refused: &[Refused]) -> Result<(), NoMemory>
    ensures { OnOk result (marks.new.items ≡ marks.old.items ++ map refusal_mark refused.now) }
{
    for refusal in refused {
        marks.push(Mark {
            worker: refusal.worker,
            place: refusal.entries,
            kind: Kind::Refused,
        })?;
    }
    Ok(())
}

// A mark for each entry and for each refusal.
fn marks_of(memory: Memory, raced: &Raced) -> Result<Marks, NoMemory>
    ensures { IfOk result (λ marks. marks.items ≡ marks_of raced.now) }
{
    let mut marks = Vec::new(memory);
    put_entries(&mut marks, &raced.history.told)?;
    put_refusals(&mut marks, &raced.refused)?;
    Ok(marks)
}

// The text of the picture with these marks.
fn draw(memory: Memory, raced: &Raced, marks: &[Mark]) -> Result<Vec<u8, Memory>, NoMemory>
    requires { marks.now ≡ marks_of raced.now }
{
    let mut text = Vec::new(memory);
    put_picture(&mut text, raced.report.workers, raced.report.entries, marks)?;
    Ok(text)
}

fn picture_of(memory: Memory, raced: &Raced) -> Result<Vec<u8, Memory>, NoMemory> {
    let marks = marks_of(memory, raced)?;
    draw(memory, raced, &marks)
}

/// Draws the race.
pub fn write_picture(
    rt: &HostRuntime,
    memory: Memory,
    raced: &Raced,
    path: &str,
) -> Result<(), ExitCode>
    ensures { IfErr result (λ code. exit_status code ≡ 1) }
{
    match picture_of(memory, raced) {
        Ok(text) => write_file(rt, path, &text),
        Err(NoMemory) => Err(end_fault(rt, RaceFault::NoMemory)),
    }
}

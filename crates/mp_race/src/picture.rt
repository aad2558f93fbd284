//! The picture of a race: a lane for each worker, with the results of its commands.

mod frame;
mod layout;
mod mark;
mod refusals;
mod shapes;

ghost use Rattle.std.specs.Prelude.{◌≡◌, OnErr};

use crate::picture::frame::put_frame;
use crate::picture::layout::{Layout, TOP};
use crate::picture::refusals::{Piled, pile};
use crate::picture::shapes::{Svg, put_mark};
pub use mark::{Kind, Mark};
use mp_memory::{Memory, NoMemory};

// A change of the ledger concerns all workers: a line goes through all lanes.
fn put_line(svg: &mut Svg, layout: &Layout, x: u64) -> Result<(), NoMemory> {
    let bottom = layout.bottom();
    write!(svg, r##"<path d="M{x} {TOP}V{bottom}" stroke="#009e73" "##)?;
    writeln!(svg, r#"stroke-dasharray="4 2"/>"#)?;
    Ok(())
}

fn put_lines(svg: &mut Svg, layout: &Layout, marks: &[Mark]) -> Result<(), NoMemory> {
    for mark in marks {
        if mark.kind == Kind::Synced
            && let Some(x) = layout.entry_x(mark.place)
        {
            put_line(svg, layout, x)?;
        }
    }
    Ok(())
}

fn put_entry(svg: &mut Svg, layout: &Layout, mark: Mark) -> Result<(), NoMemory> {
    match layout.entry_x(mark.place) {
        Some(x) if mark.worker < layout.workers => {
            let y = layout.entry_y(mark.worker);
            put_mark(svg, mark.kind, x, y, layout.scale.reach)
        }
        _ => Ok(()),
    }
}

fn put_entries(svg: &mut Svg, layout: &Layout, marks: &[Mark]) -> Result<(), NoMemory> {
    for mark in marks {
        if mark.kind != Kind::Refused {
            put_entry(svg, layout, *mark)?;
        }
    }
    Ok(())
}

fn put_refusals(svg: &mut Svg, layout: &Layout, refusals: &[Piled]) -> Result<(), NoMemory> {
    for refusal in refusals {
        if let Some(x) = layout.refusal_x(refusal) {
            let y = layout.refusal_y(refusal);
            put_mark(svg, Kind::Refused, x, y, layout.scale.reach)?;
        }
    }
    Ok(())
}

fn put_all(
    svg: &mut Svg,
    layout: &Layout,
    marks: &[Mark],
    refusals: &[Piled],
) -> Result<(), NoMemory> {
    put_frame(svg, layout, refusals.len() as u64)?;
    put_lines(svg, layout, marks)?;
    put_entries(svg, layout, marks)?;
    put_refusals(svg, layout, refusals)?;
    svg.push_str("</svg>\n")?;
    Ok(())
}

/// Appends the picture as SVG: a lane for each worker, with the places of the history from left to right. A mark with
/// an unknown worker or place is left out. If it returns `Err`, the text is as before.
pub fn put_picture(
    text: &mut Vec<u8, Memory>,
    workers: u32,
    entries: u64,
    marks: &[Mark],
) -> Result<(), NoMemory>
    ensures err { OnErr result (text.new.items ≡ text.old.items) }
{
    let memory = *text.allocator();
    let refusals = pile(memory, workers, entries, marks)?;
    let layout = Layout::new(memory, workers, entries, &refusals)?;
    let mut svg = String::new(memory);
    put_all(&mut svg, &layout, marks, &refusals)?;
    text.extend_from_slice(svg.as_bytes())?;
    Ok(())
}

//! The marks. Each kind has its own shape and colour.

use crate::picture::mark::Kind;
use mp_memory::{Memory, NoMemory};

/// The text of a picture.
pub type Svg = String<Memory>;

fn put_circle(svg: &mut Svg, x: u64, y: u64, reach: u64) -> Result<(), NoMemory> {
    writeln!(
        svg,
        r##"<circle cx="{x}" cy="{y}" r="{reach}" fill="#0072b2"/>"##
    )?;
    Ok(())
}

fn put_square(svg: &mut Svg, x: u64, y: u64, reach: u64) -> Result<(), NoMemory> {
    let side = reach.saturating_mul(2);
    let left = x.saturating_sub(reach);
    let top = y.saturating_sub(reach);
    write!(
        svg,
        r##"<rect x="{left}" y="{top}" width="{side}" height="{side}" "##
    )?;
    writeln!(svg, r##"fill="#e69f00" stroke="#333333"/>"##)?;
    Ok(())
}

fn put_diamond(svg: &mut Svg, x: u64, y: u64, reach: u64) -> Result<(), NoMemory> {
    let reach = reach.saturating_add(1);
    write!(
        svg,
        r##"<path d="M{x} {y}m-{reach} 0l{reach} -{reach}l{reach} {reach}"##
    )?;
    writeln!(
        svg,
        r##"l-{reach} {reach}z" fill="#009e73" stroke="#333333"/>"##
    )?;
    Ok(())
}

fn put_cross(svg: &mut Svg, x: u64, y: u64) -> Result<(), NoMemory> {
    write!(
        svg,
        r##"<path d="M{x} {y}m-3 -3l6 6m0 -6l-6 6" fill="none" "##
    )?;
    writeln!(svg, r##"stroke="#d55e00" stroke-width="1.5"/>"##)?;
    Ok(())
}

/// Appends the mark of a kind, with its middle at this point. The mark of a refusal always has the same size.
pub fn put_mark(svg: &mut Svg, kind: Kind, x: u64, y: u64, reach: u64) -> Result<(), NoMemory> {
    match kind {
        Kind::Accepted => put_circle(svg, x, y, reach),
        Kind::Removed => put_square(svg, x, y, reach),
        Kind::Synced => put_diamond(svg, x, y, reach),
        Kind::Refused => put_cross(svg, x, y),
    }
}

//! The frame around the marks: the title, the legend, the lanes and the axis.

use crate::picture::layout::{LEFT, Layout, TOP};
use crate::picture::mark::Kind;
use crate::picture::shapes::{Svg, put_mark};
use mp_memory::NoMemory;

// The middle of the legend's marks.
const LEGEND_Y: u64 = 48;

const LEGEND_REACH: u64 = 5;

fn put_head(svg: &mut Svg, layout: &Layout) -> Result<(), NoMemory> {
    let width = layout.width();
    let height = layout.height();
    write!(
        svg,
        r#"<svg xmlns="http://www.w3.org/2000/svg" version="1.1" width="{width}" "#
    )?;
    write!(svg, r#"height="{height}" viewBox="0 0 {width} {height}" "#)?;
    writeln!(svg, r#"font-family="sans-serif" font-size="12">"#)?;
    writeln!(
        svg,
        r##"<rect width="{width}" height="{height}" fill="#ffffff"/>"##
    )?;
    Ok(())
}

fn put_count(svg: &mut Svg, count: u64, one: &str, many: &str) -> Result<(), NoMemory> {
    let word = if count == 1 { one } else { many };
    write!(svg, "{count} {word}")?;
    Ok(())
}

fn put_title(svg: &mut Svg, layout: &Layout, refusals: u64) -> Result<(), NoMemory> {
    write!(
        svg,
        r#"<text x="16" y="26" font-size="16" font-weight="bold">"#
    )?;
    put_count(svg, u64::from(layout.workers), "worker, ", "workers, ")?;
    put_count(svg, layout.entries, "entry, ", "entries, ")?;
    put_count(svg, refusals, "refusal", "refusals")?;
    writeln!(svg, "</text>")?;
    Ok(())
}

fn put_legend_mark(svg: &mut Svg, kind: Kind, x: u64, name: &str) -> Result<(), NoMemory> {
    put_mark(svg, kind, x, LEGEND_Y, LEGEND_REACH)?;
    let left = x.saturating_add(12);
    let base = LEGEND_Y + 4;
    writeln!(svg, r#"<text x="{left}" y="{base}">{name}</text>"#)?;
    Ok(())
}

fn put_legend(svg: &mut Svg) -> Result<(), NoMemory> {
    put_legend_mark(svg, Kind::Accepted, 24, "accepted")?;
    put_legend_mark(svg, Kind::Removed, 120, "removed")?;
    put_legend_mark(svg, Kind::Synced, 216, "synced")?;
    put_legend_mark(svg, Kind::Refused, 312, "refused")
}

fn put_lane(svg: &mut Svg, layout: &Layout, worker: u32) -> Result<(), NoMemory> {
    let top = layout.lane_y(worker);
    let height = layout.lane_height();
    let width = layout.right().saturating_sub(LEFT);
    let fill = if worker % 2 == 0 {
        "#f0f0f0"
    } else {
        "#fafafa"
    };
    write!(
        svg,
        r#"<rect x="{LEFT}" y="{top}" width="{width}" height="{height}" "#
    )?;
    writeln!(svg, r#"fill="{fill}"/>"#)?;
    let base = layout.entry_y(worker).saturating_add(4);
    writeln!(
        svg,
        r#"<text x="76" y="{base}" text-anchor="end">worker {worker}</text>"#
    )?;
    Ok(())
}

fn put_lanes(svg: &mut Svg, layout: &Layout) -> Result<(), NoMemory> {
    for worker in 0..layout.workers {
        put_lane(svg, layout, worker)?;
    }
    Ok(())
}

fn put_tick_number(svg: &mut Svg, x: u64, y: u64, place: u64) -> Result<(), NoMemory> {
    writeln!(
        svg,
        r#"<text x="{x}" y="{y}" font-size="11" text-anchor="middle">{place}</text>"#
    )?;
    Ok(())
}

// The number of a place above and below the lanes, and a light line between.
fn put_tick(svg: &mut Svg, layout: &Layout, place: u64) -> Result<(), NoMemory> {
    let Some(x) = layout.entry_x(place) else {
        return Ok(());
    };
    let top = TOP - 4;
    let bottom = layout.bottom().saturating_add(4);
    writeln!(svg, r##"<path d="M{x} {top}V{bottom}" stroke="#d0d0d0"/>"##)?;
    put_tick_number(svg, x, TOP - 8, place)?;
    put_tick_number(svg, x, bottom.saturating_add(12), place)
}

fn put_ticks(svg: &mut Svg, layout: &Layout) -> Result<(), NoMemory> {
    for place in 0..layout.entries {
        if layout.is_numbered(place) {
            put_tick(svg, layout, place)?;
        }
    }
    Ok(())
}

fn put_axis(svg: &mut Svg, layout: &Layout) -> Result<(), NoMemory> {
    let right = layout.right();
    let bottom = layout.bottom();
    writeln!(
        svg,
        r##"<path d="M{LEFT} {bottom}H{right}" stroke="#333333"/>"##
    )?;
    let base = bottom.saturating_add(36);
    writeln!(
        svg,
        r#"<text x="{LEFT}" y="{base}">place in the history</text>"#
    )?;
    put_ticks(svg, layout)
}

/// Appends everything except the marks and the end.
pub fn put_frame(svg: &mut Svg, layout: &Layout, refusals: u64) -> Result<(), NoMemory> {
    put_head(svg, layout)?;
    put_title(svg, layout, refusals)?;
    put_legend(svg)?;
    put_lanes(svg, layout)?;
    put_axis(svg, layout)
}

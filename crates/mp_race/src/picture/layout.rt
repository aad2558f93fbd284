//! Positions, in pixels from the left and from the top.

use crate::picture::refusals::Piled;
use mp_memory::{Memory, NoMemory};

/// The left edge of the lanes.
pub const LEFT: u64 = 84;

pub const TOP: u64 = 84;

const LEAST_WIDTH: u64 = 420;

const MARGIN: u64 = 16;

const FOOT: u64 = 52;

// A lane has a band for its entries, and rows for refusals below it.
const BAND: u64 = 24;

const ROW: u64 = 8;

const COLUMN: u64 = 8;

const MOST_ROWS: u64 = 4;

/// The distance between places, and the radius of a mark.
#[derive(Clone, Copy)]
pub struct Scale {
    pub step: u64,
    pub reach: u64,
}

/// The picture's plan.
#[derive(Drop)]
pub struct Layout {
    pub workers: u32,
    pub entries: u64,
    pub scale: Scale,
    rows: u64,
    // The left edge of the gap before each entry, then the left and the right edge of the gap after the last.
    edges: Vec<u64, Memory>,
}

// The more places there are, the smaller their distance.
fn scale_of(entries: u64) -> Scale {
    if entries <= 60 {
        Scale { step: 24, reach: 6 }
    } else if entries <= 200 {
        Scale { step: 16, reach: 5 }
    } else {
        Scale { step: 12, reach: 4 }
    }
}

// The number of rows of the highest pile.
fn rows_of(refusals: &[Piled]) -> u64 {
    let mut rows = 0;
    for refusal in refusals {
        rows = rows.max(refusal.rank.saturating_add(1));
    }
    rows.min(MOST_ROWS)
}

// Widens each gap until it has room for the columns of its piles.
fn widen(gaps: &mut [u64], step: u64, refusals: &[Piled]) {
    for refusal in refusals {
        let columns = refusal.rank / MOST_ROWS;
        let wanted = columns.saturating_mul(COLUMN).saturating_add(step);
        if let Some(gap) = gaps.get_mut(refusal.place as usize) {
            *gap = wanted.max(*gap);
        }
    }
}

// Replaces the width of each gap by its left edge.
fn add_up(gaps: &mut [u64]) {
    let mut edge = LEFT;
    for gap in gaps.iter_mut() {
        let width = *gap;
        *gap = edge;
        edge = edge.saturating_add(width);
    }
}

impl Layout {
    /// The plan for these numbers of lanes and entries, with room for the refusals.
    pub fn new(
        memory: Memory,
        workers: u32,
        entries: u64,
        refusals: &[Piled],
    ) -> Result<Layout, NoMemory> {
        let scale = scale_of(entries);
        let count = entries.saturating_add(2) as usize;
        let mut edges = vec![in memory; scale.step; count]?;
        widen(&mut edges, scale.step, refusals);
        add_up(&mut edges);
        Ok(Layout {
            workers,
            entries,
            scale,
            rows: rows_of(refusals),
            edges,
        })
    }

    fn edge(&self, place: u64) -> Option<u64> {
        self.edges.get(place as usize).copied()
    }

    /// The middle of the entry at a place, or `None` if there is no such entry.
    pub fn entry_x(&self, place: u64) -> Option<u64> {
        if place < self.entries {
            self.edge(place.saturating_add(1))
        } else {
            None
        }
    }

    /// The middle of a refusal.
    pub fn refusal_x(&self, refusal: &Piled) -> Option<u64> {
        let edge = self.edge(refusal.place)?;
        let column = refusal.rank / MOST_ROWS;
        let nudge = column.saturating_mul(COLUMN);
        Some(
            edge.saturating_add(self.scale.step / 2)
                .saturating_add(nudge),
        )
    }

    /// The height of a lane.
    pub fn lane_height(&self) -> u64 {
        self.rows.saturating_mul(ROW).saturating_add(BAND)
    }

    /// The top of a worker's lane.
    pub fn lane_y(&self, worker: u32) -> u64 {
        u64::from(worker)
            .saturating_mul(self.lane_height())
            .saturating_add(TOP)
    }

    /// The middle of a worker's entries.
    pub fn entry_y(&self, worker: u32) -> u64 {
        self.lane_y(worker).saturating_add(BAND / 2)
    }

    /// The middle of a refusal.
    pub fn refusal_y(&self, refusal: &Piled) -> u64 {
        let below = (refusal.rank % MOST_ROWS) * ROW + BAND;
        self.lane_y(refusal.worker).saturating_add(below)
    }

    /// The right edge of the lanes.
    pub fn right(&self) -> u64 {
        let end = self.edge(self.entries.saturating_add(1)).unwrap_or(LEFT);
        end.max(LEAST_WIDTH - MARGIN)
    }

    /// The bottom of the last lane.
    pub fn bottom(&self) -> u64 {
        self.lane_y(self.workers)
    }

    pub fn width(&self) -> u64 {
        self.right().saturating_add(MARGIN)
    }

    pub fn height(&self) -> u64 {
        self.bottom().saturating_add(FOOT)
    }

    /// Whether the axis shows the number of a place.
    pub fn is_numbered(&self, place: u64) -> bool {
        if self.entries <= 20 {
            true
        } else if self.entries <= 200 {
            place % 5 == 0
        } else {
            place % 10 == 0
        }
    }
}

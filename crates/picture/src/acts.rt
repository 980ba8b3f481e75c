//! The points at which operations act.

use crate::labels::put_point_title;
use crate::lanes::Lanes;
use crate::shapes::{Spot, put_star};
use points::Point;
use std::alloc::Global;
use std::fmt::Write;
use terms::{NoMemory, Party};

// How far left of its client's lane a point stands, and how far from the next one of the same client and row.
const LEFT_OF_LANE: u64 = 18;

const APART: u64 = 13;

/// Draws the points in the rows, each beside its client's lane. They come by position.
pub(crate) fn put_points(
    alloc: Global,
    lanes: &Lanes,
    points: &[Point],
    svg: &mut String,
) -> Result<(), NoMemory> {
    writeln!(svg, "<g class=\"points\">")?;
    for (index, point) in points.iter().enumerate() {
        if lanes.has_row(point.position as u64) {
            let beside = beside(&points[..index], point);
            put_point(alloc, lanes, point, beside, svg)?;
        }
    }
    Ok(writeln!(svg, "</g>")?)
}

// How many of the points before are of the same client and position.
fn beside(before: &[Point], point: &Point) -> u64 {
    let mut count = 0u64;
    for other in before.iter().rev() {
        if other.position != point.position {
            return count;
        }
        if other.client.number == point.client.number {
            count = count.saturating_add(1);
        }
    }
    count
}

fn put_point(
    alloc: Global,
    lanes: &Lanes,
    point: &Point,
    beside: u64,
    svg: &mut String,
) -> Result<(), NoMemory> {
    let lane = lanes.x(Party::Client(point.client).number());
    let left = LEFT_OF_LANE.saturating_add(beside.saturating_mul(APART));
    write!(svg, "<g>")?;
    put_point_title(alloc, point, svg)?;
    put_star(
        Spot {
            x: lane.saturating_sub(left),
            y: lanes.y(point.position as u64),
        },
        svg,
    )?;
    Ok(writeln!(svg, "</g>")?)
}

//! The shapes of marks.

use std::fmt::Write;
use terms::NoMemory;

/// The place of a mark.
#[derive(Clone, Copy, Drop)]
pub(crate) struct Spot {
    pub(crate) x: u64,
    pub(crate) y: u64,
}

pub(crate) fn put_circle(
    class: &str,
    radius: u8,
    spot: Spot,
    svg: &mut String,
) -> Result<(), NoMemory> {
    let Spot { x, y } = spot;
    Ok(write!(
        svg,
        "<circle class=\"{class}\" cx=\"{x}\" cy=\"{y}\" r=\"{radius}\"/>"
    )?)
}

pub(crate) fn put_diamond(spot: Spot, svg: &mut String) -> Result<(), NoMemory> {
    let Spot { x, y } = spot;
    let top = y.saturating_sub(6);
    Ok(write!(
        svg,
        "<path class=\"installed\" d=\"M{x} {top}l6 6-6 6-6-6z\"/>"
    )?)
}

/// A bar across the lane, so wide to each side.
pub(crate) fn put_bar(
    class: &str,
    half: u64,
    spot: Spot,
    svg: &mut String,
) -> Result<(), NoMemory> {
    let (left, top) = (spot.x.saturating_sub(half), spot.y.saturating_sub(2));
    let width = half.saturating_mul(2);
    Ok(write!(
        svg,
        "<rect class=\"{class}\" x=\"{left}\" y=\"{top}\" width=\"{width}\" height=\"5\" rx=\"1\"/>"
    )?)
}

/// Points at the lane.
pub(crate) fn put_triangle(spot: Spot, svg: &mut String) -> Result<(), NoMemory> {
    let (left, top) = (spot.x.saturating_sub(9), spot.y.saturating_sub(4));
    Ok(write!(
        svg,
        "<path class=\"invoked\" d=\"M{left} {top}l8 4-8 4z\"/>"
    )?)
}

/// A disc with a check sign in it.
pub(crate) fn put_check(spot: Spot, svg: &mut String) -> Result<(), NoMemory> {
    put_circle("accepted", 6, spot, svg)?;
    let Spot { x, y } = spot;
    let left = x.saturating_sub(3);
    Ok(write!(
        svg,
        "<path class=\"accepted-sign\" d=\"M{left} {y}l2 2.6 4-5\"/>"
    )?)
}

/// The line of an arrow that comes from no sending.
pub(crate) fn put_dashes(spot: Spot, svg: &mut String) -> Result<(), NoMemory> {
    let (left, y) = (spot.x.saturating_sub(10), spot.y);
    Ok(write!(svg, "<path class=\"fed\" d=\"M{left} {y}h28\"/>")?)
}

/// The line of an arrow from a sending above the rows.
pub(crate) fn put_dots(spot: Spot, svg: &mut String) -> Result<(), NoMemory> {
    let (left, y) = (spot.x.saturating_sub(10), spot.y);
    Ok(write!(svg, "<path class=\"before\" d=\"M{left} {y}h28\"/>")?)
}

/// The end of an arrow that counts for nothing.
pub(crate) fn put_cross(spot: Spot, svg: &mut String) -> Result<(), NoMemory> {
    let (left, top) = (spot.x.saturating_sub(4), spot.y.saturating_sub(4));
    Ok(write!(
        svg,
        "<path class=\"dropped\" d=\"M{left} {top}l8 8m0-8l-8 8\"/>"
    )?)
}

/// A star of five points.
pub(crate) fn put_star(spot: Spot, svg: &mut String) -> Result<(), NoMemory> {
    let (x, top) = (spot.x, spot.y.saturating_sub(6));
    Ok(write!(
        svg,
        "<path class=\"point\" d=\"M{x} {top}l1.8 3.9 4.2 .5-3.1 2.9.8 4.2-3.7-2.1-3.7 2.1.8-4.2-3.1-2.9 4.2-.5z\"/>"
    )?)
}

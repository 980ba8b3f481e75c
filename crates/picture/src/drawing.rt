//! The whole picture.

ghost use Rattle.std.specs.Prelude.{◌≡◌, length, OnOk, OnErr, IfErr};
ghost use Rattle.picture.specs.Faults.{DrawsEntries, IsLateFault, entries_between};
ghost use Rattle.picture.specs.Pictures.{AppendsPicture};

use crate::acts::put_points;
use crate::arrows::{Arrow, arrows_of, put_arrows};
use crate::fault::PictureFault;
use crate::lanes::{Lanes, MAX_LANES, put_lanes};
use crate::legend::{put_legend, put_styles};
use crate::marks::{put_marks, put_meanings};
use crate::run::{Rows, Run};
use std::alloc::Global;
use std::fmt::Write;
use terms::NoMemory;

const HEAD: &str =
    "<?xml version=\"1.0\" encoding=\"UTF-8\"?>\n<svg xmlns=\"http://www.w3.org/2000/svg\"";

const TAIL: &str = "</svg>\n";

/// Appends the chart of a part of a run as a file of SVG: of the entries from one position to another, as far as the
/// trace has them. Each entry has a row, and each party that takes part there a lane. There is an arrow to each
/// delivery, from the sending of the same bytes, and a mark for each other entry and each point.
///
/// # Errors
///
/// NoEntry if the trace has entries, but none there. TooHigh or TooWide if the chart would have more than 30,000
/// pixels. NoMemory if memory runs out. The bytes are as they were then.
pub fn write_picture(
    alloc: Global,
    run: Run<'_>,
    from: u64,
    to: u64,
    out: &mut Vec<u8>,
) -> Result<(), PictureFault>
    ensures ok { OnOk result (AppendsPicture out.old.items out.new.items) }
    ensures err { OnErr result (out.new.items ≡ out.old.items) }
    ensures drawn { DrawsEntries (length run.entry.trace.now)
        (entries_between (length run.entry.trace.now) from to) result }
{
    let rows = Rows::of(run.trace.len() as u64, from, to)?;
    let mut body = String::new(alloc);
    put_rows(alloc, run, rows, &mut body)?;
    let mut picture = String::from_str(alloc, HEAD)?;
    picture.push_str(body.as_str())?;
    picture.push_str(TAIL)?;
    Ok(out.extend_from_slice(picture.as_bytes())?)
}

fn put_rows(alloc: Global, run: Run<'_>, rows: Rows, svg: &mut String) -> Result<(), PictureFault>
    ensures { IfErr result IsLateFault }
{
    let arrows = arrows_of(alloc, run, rows)?;
    let lanes = Lanes::of(alloc, run, rows, arrows.as_slice())?;
    let parties = lanes.count();
    if parties > MAX_LANES {
        return Err(PictureFault::TooWide {
            parties,
            most: MAX_LANES,
        });
    }
    Ok(put_body(alloc, run, &lanes, arrows.as_slice(), svg)?)
}

fn put_body(
    alloc: Global,
    run: Run<'_>,
    lanes: &Lanes,
    arrows: &[Arrow],
    svg: &mut String,
) -> Result<(), NoMemory> {
    put_frame(lanes, run.trace.len() as u64, svg)?;
    put_styles(svg)?;
    put_legend(svg)?;
    put_meanings(svg)?;
    put_lanes(lanes, svg)?;
    put_arrows(alloc, lanes, run.trace, arrows, svg)?;
    put_marks(alloc, lanes, run.trace, svg)?;
    put_points(alloc, lanes, run.points, svg)?;
    put_positions(lanes, svg)
}

// The rest of the opening of the element, a title, and the paper.
fn put_frame(lanes: &Lanes, entries: u64, svg: &mut String) -> Result<(), NoMemory> {
    let (width, height) = (lanes.width(), lanes.height());
    write!(
        svg,
        " width=\"{width}\" height=\"{height}\" viewBox=\"0 0 {width} {height}\">\n"
    )?;
    put_heading(lanes.rows(), entries, svg)?;
    Ok(writeln!(
        svg,
        "<rect width=\"{width}\" height=\"{height}\" fill=\"#fff\"/>"
    )?)
}

fn put_heading(rows: Rows, entries: u64, svg: &mut String) -> Result<(), NoMemory> {
    if rows.count() == entries {
        return Ok(writeln!(svg, "<title>A run of {entries} entries</title>")?);
    }
    let (first, last) = (rows.first, rows.end.saturating_sub(1));
    Ok(writeln!(
        svg,
        "<title>Entries {first} to {last} of a run of {entries}</title>"
    )?)
}

// The positions along the side, a row each.
fn put_positions(lanes: &Lanes, svg: &mut String) -> Result<(), NoMemory> {
    let Rows { first, end } = lanes.rows();
    writeln!(svg, "<g class=\"at\">")?;
    for position in first..end {
        let y = lanes.y(position).saturating_add(3);
        writeln!(svg, "<text x=\"40\" y=\"{y}\">{position}</text>")?;
    }
    Ok(writeln!(svg, "</g>")?)
}

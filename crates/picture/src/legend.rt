//! Colours, and their meanings.

ghost use Rattle.std.specs.Prelude.{◌<◌};

use crate::messages::{KINDS, MessageKind};
use std::fmt::Write;
use terms::NoMemory;

const STYLE: &str = "<style>
svg{font:10px ui-monospace,Menlo,Consolas,'DejaVu Sans Mono',monospace;fill:#333}
.lanes,.tens,.arrows{fill:none}
.tens{stroke:#eceef1}
.lanes path{stroke:#c9ced6;stroke-width:1.5}
.lanes .bad,.lanes .other{stroke-dasharray:5 4}
.lanes path.bad{stroke:#dba09c}
.lanes rect{fill:#f4f6f9;stroke:#aab2bf}
.lanes rect.bad{fill:#fdf3f2;stroke:#c2453f}
.lanes text{fill:#2b3340;font-weight:bold;text-anchor:middle}
.lanes text.bad{fill:#a83730}
.lanes .small{fill:#9aa1ac;font-size:9px;font-weight:normal}
.arrows{stroke-width:1.2;opacity:.85}
.fed{stroke-dasharray:4 3}
.before{stroke-dasharray:1 3;stroke-linecap:round}
.marks .fed,.marks .before{stroke:#4c5666;stroke-width:1.2}
.dropped{fill:none;stroke:#c2453f;stroke-width:1.8}
.point{fill:#d99a00;stroke:#fff;stroke-width:.8}
.at{fill:#9aa1ac;font-size:9px;text-anchor:end}
.marks text{paint-order:stroke;stroke:#fff;stroke-width:3px;stroke-linejoin:round}
.tick{fill:#fff;stroke:#8a919c;stroke-width:1.3}
.invoked{fill:#2f4b77}
.executed{fill:#3f4a5a}
.installed{fill:#2f9e94}
.accepted{fill:#2e8b4f}
.accepted-sign{fill:none;stroke:#fff;stroke-width:1.8}
.marks .answer{fill:#1f6b3a;font-weight:bold}
";

/// Appends the styles of all classes, and a head for the arrows of each kind.
pub(crate) fn put_styles(svg: &mut String) -> Result<(), NoMemory> {
    svg.push_str(STYLE)?;
    for kind in KINDS {
        put_style(kind, svg)?;
    }
    svg.push_str("</style>\n<defs>\n")?;
    for kind in KINDS {
        put_head(kind, svg)?;
    }
    Ok(svg.push_str("</defs>\n")?)
}

// The arrows of a kind are lines, its dots and bars are filled.
fn put_style(kind: MessageKind, svg: &mut String) -> Result<(), NoMemory> {
    let (name, colour) = (kind.name(), kind.colour());
    Ok(writeln!(
        svg,
        ".arrows .{name}{{stroke:{colour};marker-end:url(#{name})}}.marks .{name}{{fill:{colour}}}"
    )?)
}

fn put_head(kind: MessageKind, svg: &mut String) -> Result<(), NoMemory> {
    let (name, colour) = (kind.name(), kind.colour());
    writeln!(
        svg,
        "<marker id=\"{name}\" markerWidth=\"7\" markerHeight=\"6\" refX=\"6.6\" refY=\"3\" orient=\"auto\">"
    )?;
    Ok(writeln!(
        svg,
        "<path d=\"M0 .4 7 3 0 5.6z\" fill=\"{colour}\"/></marker>"
    )?)
}

/// Appends the meanings of the colours and marks: two lines of kinds, and one of marks.
pub(crate) fn put_legend(svg: &mut String) -> Result<(), NoMemory> {
    writeln!(svg, "<g class=\"arrows\">")?;
    for (place, kind) in KINDS.iter().enumerate() {
        let (x, y, name) = (column(place), line(place), kind.name());
        let end = x + 26;
        writeln!(svg, "<path class=\"{name}\" d=\"M{x} {y}H{end}\"/>")?;
    }
    writeln!(svg, "</g>\n<g class=\"names\">")?;
    for (place, kind) in KINDS.iter().enumerate() {
        let (x, y, name) = (column(place) + 39, line(place) + 3, kind.name());
        writeln!(svg, "<text x=\"{x}\" y=\"{y}\">{name}</text>")?;
    }
    Ok(writeln!(svg, "</g>")?)
}

fn column(place: usize) -> usize
    ensures { result < 1024 }
{
    48 + place % 6 * 140
}

fn line(place: usize) -> usize
    ensures { result < 1024 }
{
    20 + place / 6 % 2 * 18
}

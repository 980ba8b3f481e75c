//! The drills that the words ask for.

ghost use Rattle.std.specs.Prelude.{map};
ghost use Rattle.command_line.specs.Drills.{AreDrills, IsDrillAt, IsDrillOf};

/// Most drills that are kept. A cluster has at most three faulty replicas.
pub const MOST_DRILLS: usize = 4;

/// The values of the option. A cluster has at most ten replicas.
pub(crate) static DRILLS: [&str; 20] = [
    "0=silent", "0=stale", "1=silent", "1=stale", "2=silent", "2=stale", "3=silent", "3=stale",
    "4=silent", "4=stale", "5=silent", "5=stale", "6=silent", "6=stale", "7=silent", "7=stale",
    "8=silent", "8=stale", "9=silent", "9=stale",
];

/// What a replica does in place of its part.
#[derive(Clone, Copy, Debug, PartialEq, Eq)]
pub enum DrillKind {
    /// It sends nothing.
    Silent,
    /// It answers reads from a space without tuples, and sends nothing else.
    Stale,
}

/// A replica, and what it does in place of its part.
#[derive(Clone, Copy, Debug, PartialEq, Eq)]
pub struct Drilled {
    pub replica: u8,
    pub kind: DrillKind,
}

/// The drills that the words ask for, in their order: all of them, or the first [`MOST_DRILLS`], which are too many for
/// any cluster.
#[derive(Clone, Copy, Debug, PartialEq, Eq)]
pub struct Drills(pub [Option<Drilled>; MOST_DRILLS]);

impl Drills {
    pub const NONE: Drills = Drills([None, None, None, None]);
}

/// The drills of these values of the option.
pub(crate) fn drills_among(values: &[&str]) -> Drills
    ensures { AreDrills (map (λ value. value.now) values.now) result }
{
    Drills([
        drill_at(values, 0),
        drill_at(values, 1),
        drill_at(values, 2),
        drill_at(values, 3),
    ])
}

fn drill_at(values: &[&str], at: usize) -> Option<Drilled>
    ensures { IsDrillAt (map (λ value. value.now) values.now) at result }
{
    drill_of(values.get(at)?)
}

// The drill that a text names, as `3=silent`.
fn drill_of(text: &str) -> Option<Drilled>
    ensures { IsDrillOf text.now result }
{
    let [digit @ b'0'..=b'9', b'=', kind @ ..] = text.as_bytes() else {
        return None;
    };
    let kind = match kind {
        b"silent" => DrillKind::Silent,
        b"stale" => DrillKind::Stale,
        _ => return None,
    };
    Some(Drilled {
        replica: *digit - b'0',
        kind,
    })
}

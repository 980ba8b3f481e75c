//! The progress of a run, as it is shown.

use crate::words::{Console, holds};
use cluster_run::Watch;
use run_command::Display;
use std::alloc::Global;

// Whether errors are shown on a terminal; after how many seconds how many operations of seven are answered; and the
// text then, and at the end.
type Row<'a> = (bool, &'a [(u64, u64)], &'a str, &'a str);

static ROWS: [Row<'static>; 3] = [
    // Nothing is shown for two seconds.
    (true, &[(1, 3)], "", ""),
    // Then there is a line, which is cleared.
    (
        true,
        &[(1, 2), (2, 3), (3, 5)],
        "3 of 7 answered\n\x1b[A\x1b[K5 of 7 answered\n",
        "3 of 7 answered\n\x1b[A\x1b[K5 of 7 answered\n\x1b[A\x1b[K",
    ),
    // There is none but on a terminal.
    (false, &[(5, 3)], "", ""),
];

fn is_shown(alloc: Global, (is_terminal, notes, shown, left): Row<'_>) -> bool {
    let console = Console::new(alloc, true);
    let mut display = Display::new(&console, is_terminal, 7);
    for (seconds, answered) in notes {
        display.note(*seconds, *answered);
    }
    let is_right = holds(&console.errors, shown);
    display.end();
    is_right && holds(&console.errors, left) && holds(&console.output, "")
}

#[test]
fn shows_and_clears_a_line(rt: HostRuntime) {
    for row in &ROWS {
        assert!(rt; is_shown(rt.alloc(), *row), "{}", row.3);
    }
}

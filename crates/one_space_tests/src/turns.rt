//! A reader that waits for the results before it gives more bytes, and a writer that shows them when it is flushed.

use crate::endings::{Ending, local_ending};
use one_space::local;
use space::Version;
use std::cell::{Cell, RefCell};
use std::io::{self, Read, Write};

// The text that was typed after the screen showed so much. If none was, the read is interrupted.
struct Turn {
    shown: &'static str,
    typed: Option<&'static str>,
}

// Lines come in parts: the first answers are asked for in mid-line, and twice, and the last line has no end.
static TURNS: [Turn; 6] = [
    Turn {
        shown: "",
        typed: Some("out (1)\nrdp (?i"),
    },
    Turn {
        shown: "done\n",
        typed: None,
    },
    Turn {
        shown: "done\n",
        typed: Some("nt)\n# a comment\n"),
    },
    Turn {
        shown: "done\nfound (1)\n",
        typed: Some("rdp (2)\r\n\n# another"),
    },
    Turn {
        shown: "done\nfound (1)\nabsent\n",
        typed: Some("\ninp (1)"),
    },
    Turn {
        shown: "done\nfound (1)\nabsent\n",
        typed: Some(""),
    },
];

const SHOWN: &str = "done\nfound (1)\nabsent\nfound (1)\n";

// The results that were flushed, and whether they were right at each read.
#[derive(Drop)]
struct Screen {
    shown: RefCell<Vec<u8>>,
    is_right: Cell<bool>,
}

impl Screen {
    fn shows(&self, text: &str) -> bool {
        match self.shown.try_borrow() {
            Ok(shown) => shown.as_slice() == text.as_bytes(),
            Err(_) => false,
        }
    }
}

#[derive(Drop)]
struct Typist<'a> {
    turns: &'a [Turn],
    screen: &'a Screen,
}

impl Read for Typist<'_> {
    fn read(&mut self, buf: &mut [u8]) -> io::Result<usize> {
        let Some((turn, others)) = self.turns.split_first() else {
            return Ok(0);
        };
        self.turns = others;
        if !self.screen.shows(turn.shown) {
            self.screen.is_right.set(false);
        }
        match turn.typed {
            Some(text) => text.as_bytes().read(buf),
            None => Err(io::Error::from(io::ErrorKind::Interrupted)),
        }
    }
}

// Shows nothing before it is flushed.
#[derive(Drop)]
struct Printer<'a> {
    held: Vec<u8>,
    screen: &'a Screen,
}

impl Write for Printer<'_> {
    fn write(&mut self, buf: &[u8]) -> io::Result<usize> {
        self.held.write(buf)
    }

    fn flush(&mut self) -> io::Result<()> {
        match self.screen.shown.try_borrow_mut() {
            Ok(mut shown) => shown.write_all(self.held.as_slice())?,
            Err(_) => return Err(io::Error::from(io::ErrorKind::ResourceBusy)),
        }
        self.held.clear();
        Ok(())
    }
}

#[test]
fn answers_before_it_asks(rt: HostRuntime) {
    let screen = Screen {
        shown: RefCell::new(Vec::new(rt.alloc())),
        is_right: Cell::new(true),
    };
    let typist = Typist {
        turns: TURNS.as_slice(),
        screen: &screen,
    };
    let mut printer = Printer {
        held: Vec::new(rt.alloc()),
        screen: &screen,
    };
    let ending = local_ending(local(rt.alloc(), Version::One, typist, &mut printer));
    assert_eq!(rt; ending, Ending::Complete);
    assert!(rt; screen.is_right.get());
    assert!(rt; screen.shows(SHOWN));
}

//! The table of answers that ./btspace gives before the program is built: each is the program's own.

use crate::answers::TABLES;
use crate::words::{Console, NoWords, ending_of, holds};
use command_line::read_words;
use std::alloc::{AllocError, Global};
use std::process::Abort;

// Words stand behind it, and what is answered on the lines below. Several may have one answer.
const PROMPT: &str = "$ btspace";

// A table that was read has no fewer answers.
const LEAST_ANSWERS: usize = 5;

// What an answer names, in brackets and without, and words that it has to name as well: none of them is like a command,
// an option or a value.
static OTHERS: [(&str, &str, [&str; 3]); 3] = [
    ("[nope]", "nope", ["0", "(7)", "é"]),
    ("[--nope]", "--nope", ["--0", "--%", "--é"]),
    ("[-q]", "-q", ["-0", "-x", "-é"]),
];

// Whether the program answers so to these words.
fn is_answer(alloc: Global, line: &str, text: &str) -> Result<bool, AllocError> {
    let console = Console::new(alloc, true);
    let mut words = vec![in alloc; "btspace"]?;
    for word in line.split(' ').filter(|word| !word.is_empty()) {
        words.push(word)?;
    }
    let ending = ending_of(read_words(&(&console, alloc), words.as_slice()));
    Ok(if text.starts_with("error: ") {
        ending == Some(NoWords::Wrong) && holds(&console.output, "") && holds(&console.errors, text)
    } else {
        ending == Some(NoWords::Shown) && holds(&console.output, text) && holds(&console.errors, "")
    })
}

// Whether the program answers so to the words as they stand.
fn is_own_answer(alloc: Global, line: &str, text: &str) -> Result<bool, AllocError> {
    let line = line.replace(alloc, '[', "")?;
    let line = line.as_str().replace(alloc, ']', "")?;
    is_answer(alloc, line.as_str(), text)
}

// Whether it answers so if another word has the place of one that it names.
fn names_another(
    alloc: Global,
    (line, text): (&str, &str),
    (bracketed, bare): (&str, &str),
    other: &str,
) -> Result<bool, AllocError> {
    let line = line.replace(alloc, bracketed, other)?;
    let text = text.replace(alloc, bare, other)?;
    is_answer(alloc, line.as_str(), text.as_str())
}

fn answers(alloc: Global, table: &str) -> Result<Vec<(&str, &str)>, AllocError> {
    let mut answers = Vec::new(alloc);
    let mut text = "";
    for part in table.rsplit(PROMPT) {
        if let Some((line, own)) = part.split_once('\n') {
            if !own.is_empty() {
                text = own;
            }
            answers.push((line, text))?;
        }
    }
    Ok(answers)
}

fn has_answers<R: Abort>(rt: &R, alloc: Global, table: &str) -> Result<(), AllocError> {
    let answers = answers(alloc, table)?;
    assert!(rt; LEAST_ANSWERS <= answers.len());
    for (line, text) in &answers {
        assert!(rt; is_own_answer(alloc, line, text)?, "{line}");
    }
    Ok(())
}

fn names_others<R: Abort>(rt: &R, alloc: Global, table: &str) -> Result<(), AllocError> {
    for answer in &answers(alloc, table)? {
        for (bracketed, bare, others) in &OTHERS {
            if answer.0.contains(*bracketed) {
                for other in others {
                    let is_named = names_another(alloc, *answer, (bracketed, bare), other)?;
                    assert!(rt; is_named, "{} with {other}", answer.0);
                }
            }
        }
    }
    Ok(())
}

#[test]
fn each_answer_is_the_programs(rt: HostRuntime) -> Result<(), AllocError> {
    for table in &TABLES {
        has_answers(&rt, rt.alloc(), table)?;
    }
    Ok(())
}

#[test]
fn answers_name_other_words_alike(rt: HostRuntime) -> Result<(), AllocError> {
    for table in &TABLES {
        names_others(&rt, rt.alloc(), table)?;
    }
    Ok(())
}

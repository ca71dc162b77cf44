// Every record of data/runs.pack and data/lent.pack: a text's starting state and scans, by the text and from its table, and
// buffers too short for them; and of data/tables.pack: a lent table checked and scanned.
#![tactic(auto)]

mod cases;
mod compare;
mod lines;
mod runs;
mod short;
mod states;

use crate::cases::case_as;
use crate::runs::text_as;
use std::io;
use tally::{Answer, Answers, every_record_of};

// Nothing is wanted but that a record passes.
fn passing(ours: Answer) -> Answers {
    Answers {
        ours,
        wanted: Answer::Passed,
    }
}

fn text_judged(text: &[u8], expected: &[u8]) -> Answers {
    passing(text_as(text, expected))
}

fn case_judged(text: &[u8], expected: &[u8]) -> Answers {
    if case_as(text, expected) == Some(true) {
        passing(Answer::Passed)
    } else {
        passing(Answer::OtherTable)
    }
}

fn main(rt: HostRuntime) -> io::Result<()> {
    every_record_of(&rt, "runs.pack", text_judged)?;
    every_record_of(&rt, "lent.pack", text_judged)?;
    every_record_of(&rt, "tables.pack", case_judged)
}

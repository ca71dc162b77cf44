// Every record of data/st0.pack and data/cases.pack: the print or the refusal against what is expected; a print that is short enough
// is read again, and gives the same print and the same four numbers.
#![tactic(auto)]

ghost use Rattle.std.specs.Prelude.{◌≡◌, true, ◌≤◌, ◌<◌};
ghost use Rattle.paper.specs.Judge.{verdict};
ghost use Rattle.tally.specs.declared.Answer.TheVariants as A;
ghost use Rattle.try_texts.specs.Prints.{Again, PrintedAs, Answered};

use kaldvimur::accept;
use paper::Verdict;
use std::io;
use tally::{Answer, Answers, every_record_of, wanted};

// Whether a print read again gives itself, and the verdict `v`.
fn again(print: &[u8], v: Verdict) -> bool
    ensures { result ≡ true → Again print.now v }
{
    let mut out = [0u8; 8192];
    let Ok(n) = kaldvimur::print(print, &mut out) else {
        return false;
    };
    &out[..n] == print && accept(print) == v
}

// Whether a text's print is as expected, and the same when it is read again.
fn printed_as(text: &[u8], print: &[u8], expected: &[u8]) -> Answer
    ensures { result ≡ A.Passed → PrintedAs text.now print.now expected.now }
{
    if print != expected {
        return Answer::Other { place: 0 };
    }
    if print.len() <= 8192 && !again(print, accept(text)) {
        return Answer::OtherAgain;
    }
    Answer::Passed
}

// The refusal of a text, or whether its print is as expected.
fn answer(text: &[u8], expected: &[u8]) -> Answer
    ensures { Answered text.now expected.now result }
{
    let mut out = [0u8; 65536];
    match kaldvimur::print(text, &mut out) {
        Ok(n) => printed_as(text, &out[..n], expected),
        Err(refusal) => Answer::from(refusal),
    }
}

fn judged(text: &[u8], expected: &[u8]) -> Answers {
    Answers {
        ours: answer(text, expected),
        wanted: wanted(expected, 12),
    }
}

fn main(rt: HostRuntime) -> io::Result<()> {
    every_record_of(&rt, "st0.pack", judged)?;
    every_record_of(&rt, "cases.pack", judged)
}

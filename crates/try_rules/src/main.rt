// Every record of data/st0.pack: the refusals 1 to 7 against what is expected; with any other answer the text is sound so far.
#![tactic(auto)]

ghost use Rattle.judge.specs.Rules.{sound};
ghost use Rattle.tally.specs.Counts.{Says};

use std::{fs, io};
use tally::{Answer, Answers, every_record, print_tally, wanted};

// The first of the refusals 1 to 7 of a text.
fn rules(text: &[u8]) -> Answer
    ensures { Says (sound text.now) result }
{
    let mut pool = [0u16; 32772];
    let mut table = [0u16; 32768];
    let mut scratch = [0u16; 8192];
    Answer::from(judge::ruled(text, &mut pool, &mut table, &mut scratch))
}

fn main(rt: HostRuntime) -> io::Result<()> {
    let Ok(mut file) = fs::open(&rt, "st0.pack") else {
        return println!(rt; "st0.pack cannot be opened");
    };
    let t = every_record(
        &rt,
        &mut file,
        |text, expected| Answers {
            ours: rules(text),
            wanted: wanted(expected, 7),
        },
    );
    print_tally(&rt, t)
}

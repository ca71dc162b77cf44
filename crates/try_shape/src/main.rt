// Every record of data/st0.pack: the refusals 1 to 4 against what is expected; with any other answer the text is well shaped.
#![tactic(auto)]

ghost use Rattle.shaped.specs.Shapes.{shaped};
ghost use Rattle.tally.specs.Counts.{Says};

use std::{fs, io};
use tally::{Answer, Answers, every_record, print_tally, wanted};

// The first of the refusals 1 to 4 of a text.
fn shape(text: &[u8]) -> Answer
    ensures { Says (shaped text.now) result }
{
    let mut pool = [0u16; 32772];
    Answer::from(shaped::shape_of(text, &mut pool))
}

fn main(rt: HostRuntime) -> io::Result<()> {
    let Ok(mut file) = fs::open(&rt, "st0.pack") else {
        return println!(rt; "st0.pack cannot be opened");
    };
    let t = every_record(
        &rt,
        &mut file,
        |text, expected| Answers {
            ours: shape(text),
            wanted: wanted(expected, 4),
        },
    );
    print_tally(&rt, t)
}

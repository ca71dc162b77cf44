// The refusals 1 to 4 of a text, one after another.
#![tactic(auto)]

ghost use Rattle.paper.specs.Refusals.{Gives};
ghost use Rattle.shaped.specs.Shapes.{Stands, TreeFits, shaped};

use paper::{Refusal, Why};

// The root of a text's tree, or the first of the refusals 1 to 4.
pub fn shape_of(text: &[u8], pool: &mut [u16]) -> Result<usize, Refusal>
    requires { TreeFits text.now pool.old }
    ensures { Gives (Stands text.now pool.new) (shaped text.now) result }
{
    if 8192 < text.len() {
        return Err(Refusal {
            why: Why::TooLong,
            place: 0,
        });
    }
    if let Some(place) = words::first_bad(text) {
        return Err(Refusal {
            why: Why::NoWord,
            place,
        });
    }
    let parsed = reader::program(text, pool)?;
    Ok(parsed.root)
}

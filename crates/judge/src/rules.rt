// 5 to 7 of a program, one after another.
ghost use Rattle.std.specs.Prelude.{◌+◌, ◌*◌, ◌≤◌, length};
ghost use Rattle.paper.specs.Refusals.{Gives};
ghost use Rattle.tree.specs.Trees.{program_at};
ghost use Rattle.judge.specs.Rules.{Fits, Keeps, Passes, ruled};

use paper::{Refusal, Why};

// The program that is sound so far: its node, the numbers of its variables and cells.
#[derive(Clone, Copy)]
pub struct Ruled {
    pub root: usize,
    pub variables: usize,
    pub cells: usize,
}

// Refused at the soonest fault, if there is one.
fn refuse(why: Why, soonest: Option<usize>) -> Result<(), Refusal>
    ensures { Passes why soonest result }
{
    match soonest {
        Some(place) => Err(Refusal { why, place }),
        None => Ok(()),
    }
}

// The first of the refusals 5 to 7 of the program at `root`.
pub fn rules(
    text: &[u8],
    pool: &[u16],
    root: usize,
    table: &mut [u16],
    scratch: &mut [u16],
) -> Result<Ruled, Refusal>
    requires { (4 * root + 4 ≤ length pool.now) × (root ≤ length scratch.old) }
    ensures { Fits text.now pool.now table.old scratch.old root → Gives (Keeps text.now pool.now table.new) (ruled (program_at text.now pool.now root)) result }
{
    let named = names::first_bad_name(text, pool, root, table, scratch);
    refuse(Why::BadName, named.first)?;
    let end = 4 * named.count;
    refuse(
        Why::BadType,
        types::first_bad_type(text, pool, &table[..end], root, scratch),
    )?;
    refuse(Why::TooHigh, heights::first_too_high(pool, root))?;
    Ok(Ruled {
        root,
        variables: named.count,
        cells: named.cells as usize,
    })
}

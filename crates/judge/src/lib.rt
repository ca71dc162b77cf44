// The order of refusals: a text judged by 1 to 9, and its program left in lent buffers.
#![tactic(auto)]

mod rules;

ghost use Rattle.paper.specs.Judge as Judge;
ghost use Rattle.paper.specs.Refusals.{Gives};
ghost use Rattle.judge.specs.Judged.{Roomy, Stands};
ghost use Rattle.judge.specs.Rules.{TextFits, Keeps, sound};

use paper::Refusal;
use unwind::unwind_program;

// The accepted program: its node, the numbers of variables and cells, the list and the weight of its ST0.
#[derive(Clone, Copy)]
pub struct Judged {
    pub root: usize,
    pub variables: usize,
    pub cells: usize,
    pub list: usize,
    pub weight: usize,
}

// The first of the refusals 1 to 7 of a text: its tree goes into `pool`, its variables into `table`.
pub fn ruled(
    text: &[u8],
    pool: &mut [u16],
    table: &mut [u16],
    scratch: &mut [u16],
) -> Result<rules::Ruled, Refusal>
    requires { TextFits text.now pool.old table.old scratch.old }
    ensures { Gives (Keeps text.now pool.new table.new) (sound text.now) result }
{
    let root = shaped::shape_of(text, pool)?;
    rules::rules(text, pool, root, table, scratch)
}

// A text judged: its tree goes into `pool`, its variables into `table`, its ST0 into `plain`, which is scratch before.
pub fn judge(
    text: &[u8],
    pool: &mut [u16],
    table: &mut [u16],
    plain: &mut [u16],
) -> Result<Judged, Refusal>
    requires { Roomy text.now pool.old table.old plain.old }
    ensures { Gives (Stands text.now pool.new table.new plain.new) (Judge.judge text.now) result }
{
    let s = ruled(text, pool, table, plain)?;
    let end = 4 * s.variables;
    let u = unwind_program(text, pool, &table[..end], s.cells, s.root, plain)?;
    Ok(Judged {
        root: s.root,
        variables: s.variables,
        cells: s.cells,
        list: u.root,
        weight: u.weight,
    })
}

// Lists of statements just walked, in nodes of the flat pool: one behind another, an assignment, an IF.
ghost use Rattle.std.specs.Prelude.{◌≡◌, ◌+◌, ◌≤◌, ◌<◌, length, MatchResult};
ghost use Rattle.paper.specs.declared.Why.TheVariants.{TooHeavy};
ghost use Rattle.paper.specs.Refusals.{refusal};
ghost use Rattle.variables.specs.Table.{listed_in};
ghost use Rattle.unwind.specs.Parts.{Room};
ghost use Rattle.unwind.specs.Walks.{Ready, WalkDid, Linked, AssignedDid, assign_at, JoinedDid};

use crate::parts::{Part, cell_in, emit, plain_of};
use paper::{Cell, Refusal, Why};
use plain::cells_within;
use tree::node::{Node, node_at};
use variables::listed::Variables;

// The last node, the list and the weight so far.
#[derive(Clone, Copy)]
pub struct Walk {
    pub count: usize,
    pub root: usize,
    pub weight: usize,
}

// No statement.
pub fn nothing(count: usize, weight: usize) -> Walk
    ensures { (result.count ≡ count) × (result.root ≡ 0) × (result.weight ≡ weight) }
{
    Walk {
        count,
        root: 0,
        weight,
    }
}

// The weight with `parts` more, or 9 at `place`.
pub fn heavier(place: usize, parts: usize, weight: usize) -> Result<usize, Refusal>
    requires { (parts ≤ 3001) × (weight ≤ 3000) }
    ensures { MatchResult result
        (λ w. (w ≡ weight + parts) × (w ≤ 3000))
        (λ e. (e ≡ refusal TooHeavy place) × (3000 < weight + parts)) }
{
    let w = weight + parts;
    if 3000 < w {
        return Err(Refusal {
            why: Why::TooHeavy,
            place,
        });
    }
    Ok(w)
}

// One list behind another; an empty one adds nothing.
pub fn linked(out: &mut [u16], count: usize, a: usize, b: usize, weight: usize) -> Walk
    requires { Room out.old (count + 1) × (a ≤ count) × (b ≤ count) }
    ensures { Linked out.old out.new count a b weight result }
{
    if a == 0 {
        return Walk {
            count,
            root: b,
            weight,
        };
    }
    if b == 0 {
        return Walk {
            count,
            root: a,
            weight,
        };
    }
    let n = emit(out, count, 44, a as u16, b as u16, 0);
    Walk {
        count: n,
        root: n,
        weight,
    }
}

// cell := v, where `v` was just walked; the weight passes 3,000 at `at`.
fn assigned(out: &mut [u16], at: usize, cell: Cell, v: Part, weight: usize) -> Result<Walk, Refusal>
    requires { Room out.old v.count × (v.parts ≤ 3001) × (weight ≤ 3000) × (48016 ≤ length out.old) }
    ensures { AssignedDid out.old out.new at cell weight v result }
{
    let w = heavier(at, v.parts, weight)?;
    let n = emit(out, v.count, 40, cell.0, v.count as u16, 0);
    Ok(Walk {
        count: n,
        root: n,
        weight: w,
    })
}

// target := expression
pub fn assignment(
    vars: Variables,
    env: &[u32],
    n: Node,
    out: &mut [u16],
    count: usize,
    weight: usize,
) -> Result<Walk, Refusal>
    requires { Ready out.old count weight × (length env.now ≤ 64) }
    ensures { WalkDid (listed_in vars.entry.text.now vars.entry.pool.now vars.entry.table.now) (length env.now) out.old out.new count weight (assign_at (listed_in vars.entry.text.now vars.entry.pool.now vars.entry.table.now) vars.entry.text.now n.entry.pool.now env.now n.entry.at weight) result }
{
    let x = n.child(1);
    let c = cell_in(vars, env, x)?;
    let v = plain_of(vars, env, c.ty, n.child(2), out, count)?;
    let at = x.first_word() as usize;
    assigned(out, at, Cell(c.cell as u16), v, weight)
}

// An IF of the condition at `c` and two lists, the second just walked.
pub fn joined(
    out: &mut [u16],
    cells: usize,
    q: usize,
    c: usize,
    a: usize,
    b: Walk,
) -> Result<Walk, Refusal>
    requires { Room out.old (b.count + 1) × (cells ≤ 64) × (c ≤ b.count) × (a ≤ b.count) × (b.root ≤ b.count) × (b.weight ≤ 3000) }
    ensures { JoinedDid out.old out.new cells q c a b result }
{
    let w = heavier(
        q,
        cells_within(cells, node_at(out, a), node_at(out, b.root)),
        b.weight,
    )?;
    let n = emit(out, b.count, 41, c as u16, a as u16, b.root as u16);
    Ok(Walk {
        count: n,
        root: n,
        weight: w,
    })
}

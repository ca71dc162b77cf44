// The head of a FOR worked out, and its variable set.
ghost use Rattle.std.specs.Prelude.{◌≡◌, ◌<◌, nat_abs};
ghost use Rattle.paper.specs.Meaning as Meaning;
ghost use Rattle.paper.specs.Plain as Plain;
ghost use Rattle.variables.specs.Table.{listed_in};
ghost use Rattle.unwind.specs.Parts.{Holds};
ghost use Rattle.unwind.specs.Walks.{Ready, Spelt};
ghost use Rattle.unwind.specs.Loops.{HeadDid, SetDid};

use crate::lists::{Walk, heavier};
use crate::parts::emit;
use constants::{variable_cell, whole_in};
use paper::{Refusal, Ty};
use tree::node::Node;
use variables::listed::Variables;

// The head of a FOR: its place, its variable's cell and type, and the values.
#[derive(Clone, Copy)]
pub struct Head {
    pub place: usize,
    pub cell: usize,
    pub ty: Ty,
    pub by: i64,
    pub from: i64,
    pub to: i64,
}

// Whether `v` is beyond `b` in the direction of the step.
pub fn passed(c: i64, b: i64, v: i64) -> bool
    ensures { result ≡ Meaning.passed c b v }
{
    if 0 < c { b < v } else { v < b }
}

// The head of the FOR at a node: its variable is one of the environment's, and its step is not 0.
pub fn head_of(vars: Variables, env: &[u32], n: Node) -> Option<Head>
    ensures { HeadDid (listed_in vars.entry.text.now vars.entry.pool.now vars.entry.table.now) vars.entry.text.now n.entry.pool.now env.now n.entry.at result }
{
    let h = n.child(1);
    let g = h.child(1);
    let v = variable_cell(vars, h.place())?;
    let t = v.ty;
    let by = whole_in(vars, env, t, h.child(2))?;
    let from = whole_in(vars, env, t, g.child(1))?;
    let to = whole_in(vars, env, t, g.child(2))?;
    if env.len() <= v.cell || by == 0 {
        return None;
    }
    Some(Head {
        place: n.place() as usize,
        cell: v.cell,
        ty: t,
        by,
        from,
        to,
    })
}

// A number of the type `t`.
fn number(out: &mut [u16], count: usize, t: Ty, z: i64) -> usize
    requires { (nat_abs z < 4294967296) × Holds out.old count }
    ensures { Spelt out.old out.new count 1 (Plain.number t z) result }
{
    let m = z.unsigned_abs();
    let low = (m % 65536) as u16;
    let high = (m / 65536) as u16;
    let v = u8::from(t) as u16;
    if z < 0 {
        return emit(out, count, 2, low, high, v);
    }
    emit(out, count, 1, low, high, v)
}

// v := value
pub fn set_variable(
    out: &mut [u16],
    h: Head,
    v: i64,
    count: usize,
    weight: usize,
) -> Result<Walk, Refusal>
    requires { (nat_abs v < 4294967296) × (h.cell < 64) × Ready out.old count weight }
    ensures { SetDid out.old out.new h v count weight result }
{
    let w = heavier(h.place, 1, weight)?;
    let n = number(out, count, h.ty, v);
    let m = emit(out, n, 40, h.cell as u16, n as u16, 0);
    Ok(Walk {
        count: m,
        root: m,
        weight: w,
    })
}

// Statements in unwound order: the order of looking and of adding weight is the paper's.
ghost use Rattle.tree.specs.Trees as T;
ghost use Rattle.tree.specs.Kinds.{IsStatement, IsArms};
ghost use Rattle.tree.specs.declared.kinds.Statement.TheVariants.{Choice, Selection, Loop, List};
ghost use Rattle.tree.specs.declared.kinds.Arms.TheVariants.{Arm};
ghost use Rattle.variables.specs.Table.{listed_in};
ghost use Rattle.unwind.specs.Walks.{Walks, UnwindDid};
ghost use Rattle.unwind.specs.Arms.{ArmsDid};
ghost use Rattle.unwind.specs.Loops.{TurnsReady, TurnsDid};

use crate::cases::{Selector, arm_test};
use crate::lists::{Walk, assignment, heavier, joined, linked, nothing};
use crate::loops::{Head, head_of, passed, set_variable};
use crate::parts::plain_of;
use paper::{Refusal, Ty, Why};
use tree::kinds::{Arms, Statement};
use tree::node::Node;
use value::residue_of;
use variables::listed::Variables;

// The statements at a node.
#[cycle(walk)]
pub fn unwind(
    vars: Variables,
    env: &mut [u32],
    n: Node,
    out: &mut [u16],
    count: usize,
    weight: usize,
) -> Result<Walk, Refusal>
    requires { Walks env.old out.old n.at count weight }
    ensures { UnwindDid (listed_in vars.entry.text.now vars.entry.pool.now vars.entry.table.now) vars.entry.text.now n.entry.pool.now env.old env.new out.old out.new n.entry.at count weight result }
{
    match n.statement() {
        Statement::Nothing => Ok(nothing(count, weight)),
        Statement::Assignment => assignment(vars, env, n, out, count, weight),
        Statement::Choice => choice(vars, env, n, out, count, weight),
        Statement::Selection => select(vars, env, n, out, count, weight),
        Statement::Loop => repeat(vars, env, n, out, count, weight),
        Statement::List => both(vars, env, n, out, count, weight),
    }
}

// A list and one statement more.
#[cycle(walk)]
fn both(
    vars: Variables,
    env: &mut [u32],
    n: Node,
    out: &mut [u16],
    count: usize,
    weight: usize,
) -> Result<Walk, Refusal>
    requires { Walks env.old out.old n.at count weight × IsStatement n.pool.now n.at List }
    ensures { UnwindDid (listed_in vars.entry.text.now vars.entry.pool.now vars.entry.table.now) vars.entry.text.now n.entry.pool.now env.old env.new out.old out.new n.entry.at count weight result }
{
    let first = n.child(1);
    let a = unwind(vars, env, first, out, count, weight)?;
    let next = n.child(2);
    let b = unwind(vars, env, next, out, a.count, a.weight)?;
    Ok(linked(out, b.count, a.root, b.root, b.weight))
}

// IF: the condition, the two lists, and the cells that they assign.
#[cycle(walk)]
fn choice(
    vars: Variables,
    env: &mut [u32],
    n: Node,
    out: &mut [u16],
    count: usize,
    weight: usize,
) -> Result<Walk, Refusal>
    requires { Walks env.old out.old n.at count weight × IsStatement n.pool.now n.at Choice }
    ensures { UnwindDid (listed_in vars.entry.text.now vars.entry.pool.now vars.entry.table.now) vars.entry.text.now n.entry.pool.now env.old env.new out.old out.new n.entry.at count weight result }
{
    let j = n.child(2);
    let q = j.place() as usize;
    let test = n.child(1);
    let v = plain_of(vars, env, Ty::Dint, test, out, count)?;
    let w = heavier(q, v.parts, weight)?;
    let first = j.child(1);
    let a = unwind(vars, env, first, out, v.count, w)?;
    let second = j.child(2);
    let b = unwind(vars, env, second, out, a.count, a.weight)?;
    joined(out, env.len(), q, v.count, a.root, b)
}

// CASE: its selector is looked at once, and stands in each test.
#[cycle(walk)]
fn select(
    vars: Variables,
    env: &mut [u32],
    n: Node,
    out: &mut [u16],
    count: usize,
    weight: usize,
) -> Result<Walk, Refusal>
    requires { Walks env.old out.old n.at count weight × IsStatement n.pool.now n.at Selection }
    ensures { UnwindDid (listed_in vars.entry.text.now vars.entry.pool.now vars.entry.table.now) vars.entry.text.now n.entry.pool.now env.old env.new out.old out.new n.entry.at count weight result }
{
    let s = n.child(1);
    let v = plain_of(vars, env, Ty::Dint, s, out, count)?;
    let sel = Selector {
        place: n.place() as usize,
        node: s,
        ty: v.ty,
    };
    let first = n.child(2);
    arms(vars, env, first, sel, out, count, weight)
}

// The arms of a CASE and its ELSE list.
#[cycle(walk)]
fn arms(
    vars: Variables,
    env: &mut [u32],
    n: Node,
    sel: Selector,
    out: &mut [u16],
    count: usize,
    weight: usize,
) -> Result<Walk, Refusal>
    requires { Walks env.old out.old n.at count weight }
    ensures { ArmsDid (listed_in vars.entry.text.now vars.entry.pool.now vars.entry.table.now) vars.entry.text.now n.entry.pool.now env.old env.new out.old out.new sel.entry (T.expr_at vars.entry.text.now sel.entry.node.pool.now sel.entry.node.at) n.entry.at count weight result }
{
    match n.arms() {
        Arms::Nothing => Ok(nothing(count, weight)),
        Arms::Arm => arm(vars, env, n, sel, out, count, weight),
        Arms::Otherwise => {
            let list = n.child(1);
            unwind(vars, env, list, out, count, weight)
        }
    }
}

// An arm, its list and the arms behind it, as an IF.
#[cycle(walk)]
fn arm(
    vars: Variables,
    env: &mut [u32],
    n: Node,
    sel: Selector,
    out: &mut [u16],
    count: usize,
    weight: usize,
) -> Result<Walk, Refusal>
    requires { Walks env.old out.old n.at count weight × IsArms n.pool.now n.at Arm }
    ensures { ArmsDid (listed_in vars.entry.text.now vars.entry.pool.now vars.entry.table.now) vars.entry.text.now n.entry.pool.now env.old env.new out.old out.new sel.entry (T.expr_at vars.entry.text.now sel.entry.node.pool.now sel.entry.node.at) n.entry.at count weight result }
{
    let labels = n.child(1);
    let c = arm_test(vars, env, sel, labels, out, count, weight)?;
    let list = n.child(2);
    let a = unwind(vars, env, list, out, c.count, c.weight)?;
    let rest = n.child(3);
    let b = arms(vars, env, rest, sel, out, a.count, a.weight)?;
    joined(out, env.len(), sel.place, c.root, a.root, b)
}

// FOR at a node.
#[cycle(walk)]
fn repeat(
    vars: Variables,
    env: &mut [u32],
    n: Node,
    out: &mut [u16],
    count: usize,
    weight: usize,
) -> Result<Walk, Refusal>
    requires { Walks env.old out.old n.at count weight × IsStatement n.pool.now n.at Loop }
    ensures { UnwindDid (listed_in vars.entry.text.now vars.entry.pool.now vars.entry.table.now) vars.entry.text.now n.entry.pool.now env.old env.new out.old out.new n.entry.at count weight result }
{
    let Some(h) = head_of(vars, env, n) else {
        return Err(Refusal {
            why: Why::BadWalk,
            place: n.place() as usize,
        });
    };
    if passed(h.by, h.to, h.from) {
        return set_variable(out, h, h.from, count, weight);
    }
    let c = h.cell;
    let old = env[c];
    let body = n.child(2);
    let r = turns(vars, env, h, h.from, body, out, count, weight, 0);
    env[c] = old;
    r
}

// The passes from `v` on; `before` are those so far. A loop, so that many passes take no more stack.
#[cycle(walk)]
fn turns(
    vars: Variables,
    env: &mut [u32],
    h: Head,
    v: i64,
    body: Node,
    out: &mut [u16],
    count: usize,
    weight: usize,
    before: usize,
) -> Result<Walk, Refusal>
    requires { TurnsReady env.old out.old h v body.at count weight before }
    ensures { TurnsDid (listed_in vars.entry.text.now vars.entry.pool.now vars.entry.table.now) vars.entry.text.now body.entry.pool.now env.old env.new out.old out.new h v body.entry.at count weight before result }
{
    let c = h.cell;
    let mut next = v;
    let mut passes = Walk {
        count,
        root: before,
        weight,
    };
    loop {
        let s = set_variable(out, h, next, passes.count, passes.weight)?;
        env[c] = residue_of(h.ty, next);
        let b = unwind(vars, env, body, out, s.count, s.weight)?;
        let x = linked(out, b.count, s.root, b.root, b.weight);
        passes = linked(out, x.count, passes.root, x.root, x.weight);
        next += h.by;
        if passed(h.by, h.to, next) {
            return Ok(passes);
        }
    }
}

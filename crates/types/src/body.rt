// Refusal 6 of statements.
ghost use Rattle.std.specs.Prelude.{◌≡◌, not, ◌&&◌, ◌+◌, ◌≤◌, ◌<◌, length};
ghost use Rattle.std.specs.Bool.{then_some};
ghost use Rattle.std.proofs.Math.Option.{some};
ghost use Rattle.paper.specs.Types as Y;
ghost use Rattle.paper.specs.Typing as T;
ghost use Rattle.tree.specs.Trees.{place_at, whole_at, name_at, expr_at, label_at, labels_at, arms_at, front_at};
ghost use Rattle.faults.specs.Soonest.{soonest, sooner};
ghost use Rattle.variables.specs.Table.{variables_in};
ghost use Rattle.types.specs.Says.{around};
ghost use Rattle.types.specs.Statements.{AssignedAs, FirstOf, assign_at, condition_at, head_at, LimitAt, SelectorAt, heard, choice_front, select_front, loop_front, Walks, WalksArms};

use crate::numbers::is_constant;
use crate::parts::{Judged, Settled, demand, is_integer, judge, judge_in, settle};
use faults::{of_rule, sooner_of, with_fault};
use paper::Ty;
use tree::kinds::{Arms, Statement};
use tree::node::Node;
use value::fits;
use variables::declared::type_of;
use variables::listed::Variables;

// One of a, b and c of a FOR: its soonest fault, and whether it is a scan constant of the loop's type.
#[derive(Clone, Copy)]
pub struct Limit {
    pub first: Option<usize>,
    pub good: bool,
}

// The right side, at a node, has the target's type; where the target is faulty, numbers only aren't judged.
#[tactic(auto, using(faults::proofs::Soonest::soonest_steps, crate::proofs::Judging::assigned))]
fn assigned(q: u16, n: Node, x: Judged, y: Judged) -> Option<usize>
    ensures { AssignedAs n.entry.pool.now q n.entry.at x y result }
{
    match x {
        Judged::Faulty(place) => sooner_of(Some(place), y.fault()),
        Judged::Numbers => with_fault(y.fault(), q),
        Judged::Typed(t) => demand(t, q, settle(t, n, y)),
    }
}

fn assignment(vars: Variables, loops: &[u16], n: Node) -> Option<usize>
    ensures { FirstOf assign_at (variables_in vars.entry.text.now vars.entry.pool.now vars.entry.table.now) vars.entry.text.now loops.now
        n.entry.pool.now n.entry.at result }
{
    let a = n.child(1);
    let b = n.child(2);
    let x = judge(vars, loops, a);
    let y = judge(vars, loops, b);
    assigned(n.place(), b, x, y)
}

// The condition of an IF is a BOOL.
#[tactic(auto, using(faults::proofs::Soonest::soonest_steps))]
fn condition(vars: Variables, loops: &[u16], n: Node) -> Option<usize>
    ensures { FirstOf condition_at (variables_in vars.entry.text.now vars.entry.pool.now vars.entry.table.now) vars.entry.text.now loops.now
        n.entry.pool.now n.entry.at result }
{
    let s = judge_in(vars, loops, Ty::Dint, n.child(1));
    demand(Ty::Bool, n.place(), s)
}

// The selector of a CASE, whose type the labels take where there is no fault.
#[tactic(auto, using(faults::proofs::Soonest::soonest_steps))]
fn selector_of(vars: Variables, loops: &[u16], n: Node) -> Settled
    ensures { SelectorAt (variables_in vars.entry.text.now vars.entry.pool.now vars.entry.table.now) vars.entry.text.now loops.now
        n.entry.pool.now n.entry.at result }
{
    let s = judge_in(vars, loops, Ty::Dint, n.child(1));
    Settled {
        first: of_rule(s.first, is_integer(s.ty), n.place()),
        ..s
    }
}

// ---- FOR

// The declared type of a name, DINT where there is none.
fn type_of_name(vars: Variables, place: u16) -> Ty
    ensures { result ≡ T.type_of_name (variables_in vars.entry.text.now vars.entry.pool.now vars.entry.table.now) (name_at vars.entry.text.now place) }
{
    match vars.find(place) {
        Some(v) => type_of(vars.declaration(v)),
        None => Ty::Dint,
    }
}

// A scan constant of the type `t`, `u` being its own.
fn is_bound(text: &[u8], loops: &[u16], t: Ty, n: Node, u: Ty) -> bool
    ensures { result ≡ (T.is_constant (around text.now loops.now) (expr_at text.now n.entry.pool.now n.entry.at) && Y.same_ty t u) }
{
    is_constant(text, loops, n) && t == u
}

fn limit_of(vars: Variables, loops: &[u16], t: Ty, n: Node) -> Limit
    ensures { LimitAt (variables_in vars.entry.text.now vars.entry.pool.now vars.entry.table.now) vars.entry.text.now loops.now
        n.entry.pool.now t n.entry.at result }
{
    let s = judge_in(vars, loops, t, n);
    Limit {
        first: s.first,
        good: is_bound(vars.text, loops, t, n, s.ty),
    }
}

// Two of them together.
fn both(x: Limit, y: Limit) -> Limit
    ensures { (result.first ≡ sooner x.first y.first) × (result.good ≡ (x.good && y.good)) }
{
    Limit {
        first: sooner_of(x.first, y.first),
        good: x.good && y.good,
    }
}

// The FOR at a node: a, b and c, and where they are sound the FOR itself.
#[tactic(auto, using(crate::proofs::Owns::head_is, faults::proofs::Soonest::soonest_steps))]
fn head(vars: Variables, loops: &[u16], n: Node) -> Option<usize>
    ensures { FirstOf head_at (variables_in vars.entry.text.now vars.entry.pool.now vars.entry.table.now) vars.entry.text.now loops.now
        n.entry.pool.now n.entry.at result }
{
    let h = n.child(1);
    let g = h.child(1);
    let t = type_of_name(vars, h.place());
    let x = limit_of(vars, loops, t, g.child(1));
    let y = limit_of(vars, loops, t, g.child(2));
    let z = limit_of(vars, loops, t, h.child(2));
    let l = both(both(x, y), z);
    of_rule(l.first, l.good, n.place())
}

// ---- labels

// A number of a label.
fn bound_fault(t: Ty, n: Node) -> Option<usize>
    ensures { result ≡ then_some (not (Y.fits t (whole_at n.entry.pool.now n.entry.at))) (place_at n.entry.pool.now n.entry.at) }
{
    (!fits(t, n.whole())).then_some(n.place() as usize)
}

#[tactic(auto, using(faults::proofs::Soonest::soonest_steps))]
fn label(t: Ty, n: Node) -> Option<usize>
    ensures { result ≡ soonest (T.label_faults t (label_at n.entry.pool.now n.entry.at)) }
{
    if n.is_range() {
        let x = bound_fault(t, n.child(1));
        let y = bound_fault(t, n.child(2));
        return sooner_of(x, y);
    }
    bound_fault(t, n)
}

// The labels at a node, where the selector has the type `t`. A loop, so that many labels take no more stack.
fn labels(t: Ty, n: Node, best: Option<usize>) -> Option<usize>
    ensures { result ≡ sooner best (soonest (T.labels_faults (some t) (labels_at n.entry.pool.now n.entry.at))) }
{
    let mut rest = n;
    let mut y = best;
    while rest.at != 0 {
        let x = label(t, rest.child(2));
        y = sooner_of(y, x);
        rest = rest.child(1);
    }
    y
}

// Those of a faulty selector aren't judged.
fn labels_of(s: Settled, n: Node, best: Option<usize>) -> Option<usize>
    ensures { result ≡ sooner best (soonest (T.labels_faults (heard s) (labels_at n.entry.pool.now n.entry.at))) }
{
    match s.first {
        None => labels(s.ty, n, best),
        Some(_) => best,
    }
}

// ---- statements

// The faults of the statements at a node, `depth` FORs being around. A loop, so that a long list takes no more stack.
#[cycle(walk)]
pub fn statements(
    vars: Variables,
    loops: &mut [u16],
    depth: usize,
    n: Node,
    best: Option<usize>,
) -> Option<usize>
    requires { depth + n.at ≤ length loops.old }
    ensures { Walks vars.entry.text.now vars.entry.pool.now vars.entry.table.now loops.old loops.new depth
        (front_at vars.entry.text.now n.entry.pool.now n.entry.at) best result }
{
    let mut rest = n;
    let mut x = best;
    loop {
        match rest.statement() {
            Statement::Nothing => return x,
            Statement::Assignment => {
                return sooner_of(x, assignment(vars, &loops[..depth], rest));
            }
            Statement::Choice => return choice(vars, loops, depth, rest, x),
            Statement::Selection => return selection(vars, loops, depth, rest, x),
            Statement::Loop => return repeat(vars, loops, depth, rest, x),
            Statement::List => {
                x = statements(vars, loops, depth, rest.child(2), x);
                rest = rest.child(1);
            }
        }
    }
}

// IF: its condition and both lists.
#[cycle(walk)]
fn choice(
    vars: Variables,
    loops: &mut [u16],
    depth: usize,
    n: Node,
    best: Option<usize>,
) -> Option<usize>
    requires { (0 < n.at) × (depth + n.at ≤ length loops.old) }
    ensures { Walks vars.entry.text.now vars.entry.pool.now vars.entry.table.now loops.old loops.new depth
        (choice_front vars.entry.text.now n.entry.pool.now n.entry.at) best result }
{
    let lists = n.child(2);
    let c = condition(vars, &loops[..depth], n);
    let x = statements(vars, loops, depth, lists.child(1), sooner_of(best, c));
    statements(vars, loops, depth, lists.child(2), x)
}

// CASE: its selector and its arms.
#[cycle(walk)]
fn selection(
    vars: Variables,
    loops: &mut [u16],
    depth: usize,
    n: Node,
    best: Option<usize>,
) -> Option<usize>
    requires { (0 < n.at) × (depth + n.at ≤ length loops.old) }
    ensures { Walks vars.entry.text.now vars.entry.pool.now vars.entry.table.now loops.old loops.new depth
        (select_front vars.entry.text.now n.entry.pool.now n.entry.at) best result }
{
    let s = selector_of(vars, &loops[..depth], n);
    let x = sooner_of(best, s.first);
    arms(vars, loops, depth, n.child(2), s, x)
}

// FOR: its head, and its body with one FOR more around.
#[cycle(walk)]
fn repeat(
    vars: Variables,
    loops: &mut [u16],
    depth: usize,
    n: Node,
    best: Option<usize>,
) -> Option<usize>
    requires { (0 < n.at) × (depth + n.at ≤ length loops.old) }
    ensures { Walks vars.entry.text.now vars.entry.pool.now vars.entry.table.now loops.old loops.new depth
        (loop_front vars.entry.text.now n.entry.pool.now n.entry.at) best result }
{
    let h = head(vars, &loops[..depth], n);
    let x = sooner_of(best, h);
    let v = n.child(1).place();
    loops[depth] = v;
    statements(vars, loops, depth + 1, n.child(2), x)
}

// The arms of a CASE and its ELSE list. A loop, so that many arms take no more stack.
#[cycle(walk)]
fn arms(
    vars: Variables,
    loops: &mut [u16],
    depth: usize,
    n: Node,
    s: Settled,
    best: Option<usize>,
) -> Option<usize>
    requires { depth + n.at ≤ length loops.old }
    ensures { WalksArms vars.entry.text.now vars.entry.pool.now vars.entry.table.now loops.old loops.new depth
        (arms_at vars.entry.text.now n.entry.pool.now n.entry.at) s best result }
{
    let mut rest = n;
    let mut y = best;
    loop {
        match rest.arms() {
            Arms::Nothing => return y,
            Arms::Otherwise => return statements(vars, loops, depth, rest.child(1), y),
            Arms::Arm => {
                let x = labels_of(s, rest.child(1), y);
                y = statements(vars, loops, depth, rest.child(2), x);
                rest = rest.child(3);
            }
        }
    }
}

// The tests of a CASE's arms: the selector is written once for each arm, and each comparison refers to it.
ghost use Rattle.std.specs.Prelude.{◌≡◌, cond, ◌+◌, ◌*◌, ◌≤◌, eqb, length};
ghost use Rattle.paper.specs.Unwinding.{test_of, tests_of};
ghost use Rattle.tree.specs.Nodes.{word_of};
ghost use Rattle.tree.specs.Trees as T;
ghost use Rattle.variables.specs.Table.{listed_in};
ghost use Rattle.unwind.specs.Parts.{Room};
ghost use Rattle.unwind.specs.Walks.{Ready, TestsParts, Spelt, selects, compared_with, label_nodes, tests_nodes};
ghost use Rattle.unwind.specs.Arms.{ArmTestDid};

use crate::lists::{Walk, heavier};
use crate::parts::{emit, number_at, operator_number, plain_of};
use paper::{Op, Refusal, Ty};
use tree::node::Node;
use variables::listed::Variables;

// The selector of a CASE: its place, its node in the tree and its type.
#[derive(Clone, Copy)]
pub struct Selector<'a> {
    pub place: usize,
    pub node: Node<'a>,
    pub ty: Ty,
}

// How many parts the test of a label has.
fn test_parts(parts: usize, n: Node) -> usize
    requires { parts ≤ 3001 }
    ensures { result ≡ cond (eqb (word_of n.entry.pool.now n.entry.at 0) 31) (2 * parts + 5) (parts + 2) }
{
    if n.is_range() {
        return 2 * parts + 5;
    }
    parts + 2
}

// How many parts the tests of labels have, 3001 standing for more than 3000.
fn tests_parts(parts: usize, n: Node) -> usize
    requires { parts ≤ 3001 }
    ensures { TestsParts n.entry.pool.now parts n.entry.at result }
{
    if n.at == 0 {
        return 1;
    }
    let m = test_parts(parts, n.child(2));
    let b = n.child(1);
    if b.at == 0 {
        return m.min(3001);
    }
    (tests_parts(parts, b) + m + 1).min(3001)
}

// The selector compared by an operator with the number at a node; its own nodes stand already, up to `root`.
fn compared(sel: Selector, root: usize, o: Op, n: Node, out: &mut [u16], count: usize) -> usize
    requires { Room out.old count × (root ≤ count) }
    ensures { Spelt out.old out.new count 2 (compared_with out.old n.entry.pool.now sel.entry root o n.entry.at) result }
{
    let t = sel.ty;
    let m = number_at(n, t, out, count);
    let kind = 11 + operator_number(o);
    emit(out, m, kind, root as u16, m as u16, u8::from(t) as u16)
}

// The test of a label.
fn test(sel: Selector, root: usize, n: Node, out: &mut [u16], count: usize) -> usize
    requires { Room out.old count × (root ≤ count) }
    ensures { Spelt out.old out.new count (label_nodes n.entry.pool.now n.entry.at) (test_of (selects out.old sel.entry root) (T.label_at n.entry.pool.now n.entry.at)) result }
{
    if n.is_range() {
        let a = compared(sel, root, Op::Ge, n.child(1), out, count);
        let b = compared(sel, root, Op::Le, n.child(2), out, a);
        return emit(out, b, 22, a as u16, b as u16, 0);
    }
    compared(sel, root, Op::Eq, n, out, count)
}

// The tests of labels, joined by OR.
fn tests(sel: Selector, root: usize, n: Node, out: &mut [u16], count: usize) -> usize
    requires { Room out.old count × (root ≤ count) }
    ensures { Spelt out.old out.new count (tests_nodes (T.labels_at n.entry.pool.now n.entry.at)) (tests_of (selects out.old sel.entry root) (T.labels_at n.entry.pool.now n.entry.at)) result }
{
    if n.at == 0 {
        return emit(out, count, 3, 0, 0, 0);
    }
    let b = n.child(1);
    if b.at == 0 {
        return test(sel, root, n.child(2), out, count);
    }
    let x = tests(sel, root, b, out, count);
    let y = test(sel, root, n.child(2), out, x);
    emit(out, y, 24, x as u16, y as u16, 0)
}

// The test of an arm with the labels at a node, weighed.
pub fn arm_test(
    vars: Variables,
    env: &[u32],
    sel: Selector,
    n: Node,
    out: &mut [u16],
    count: usize,
    weight: usize,
) -> Result<Walk, Refusal>
    requires { Ready out.old count weight × (length env.now ≤ 64) }
    ensures { ArmTestDid (listed_in vars.entry.text.now vars.entry.pool.now vars.entry.table.now) env.now out.old out.new sel.entry (T.expr_at vars.entry.text.now sel.entry.node.pool.now sel.entry.node.at) (T.labels_at n.entry.pool.now n.entry.at) count weight result }
{
    let v = plain_of(vars, env, Ty::Dint, sel.node, out, count)?;
    let w = heavier(sel.place, tests_parts(v.parts, n), weight)?;
    if n.at == 0 {
        let c = emit(out, count, 3, 0, 0, 0);
        return Ok(Walk {
            count: c,
            root: c,
            weight: w,
        });
    }
    let c = tests(sel, v.count, n, out, v.count);
    Ok(Walk {
        count: c,
        root: c,
        weight: w,
    })
}

// A scan by the statements of ST0 in the flat pool: the value of an expression, and a list carried out on the cells.
#![tactic(auto)]

ghost use Rattle.std.specs.Prelude.{◌≡◌, set};
ghost use Rattle.paper.specs.Plain.{value_of};
ghost use Rattle.plain.specs.Flat.{expr_at, list_at};
ghost use Rattle.run.specs.Parts.{branch_of, Runs};

use plain::kinds::{Expression, Statement, as_expression, as_statement, cell_of, type_of};
use tree::node::Node;
use value::{apply, bit_of, converted, is_true, negated, residue_of};

// ---- expressions

// The value of the expression at a node.
pub fn value_at(n: Node, state: &[u32]) -> u32
    ensures { result ≡ value_of state.now (expr_at n.entry.pool.now n.entry.at) }
{
    match as_expression(n) {
        Expression::Number => residue_of(type_of(n), n.whole()),
        Expression::Truth(b) => bit_of(b),
        Expression::Read => state.get(cell_of(n).0 as usize).copied().unwrap_or(0),
        Expression::Minus => negated(type_of(n), value_at(n.child(1), state)),
        Expression::Complement => bit_of(!is_true(value_at(n.child(1), state))),
        Expression::Conversion(t, u) => converted(t, u, value_at(n.child(1), state)),
        Expression::Binary(o) => {
            let a = value_at(n.child(1), state);
            let b = value_at(n.child(2), state);
            apply(o, type_of(n), a, b)
        }
    }
}

// ---- statements

// A value into a cell; beyond the end there is none.
fn store(state: &mut [u32], c: usize, v: u32)
    ensures { state.new ≡ set state.old c v }
{
    if c < state.len() {
        state[c] = v;
    }
}

// The list that an IF runs.
fn branch<'a>(n: Node<'a>, state: &[u32]) -> Node<'a>
    ensures { (result.pool ≡ n.entry.pool) × (result.at ≡ branch_of n.entry.pool.now n.entry.at state.now) }
{
    if is_true(value_at(n.child(1), state)) {
        n.child(2)
    } else {
        n.child(3)
    }
}

// Carries a list out, and counts its steps; 65535 stands for more.
pub fn run_list(n: Node, state: &mut [u32]) -> usize
    ensures { Runs (list_at n.entry.pool.now n.entry.at) state.old state.new result }
{
    match as_statement(n) {
        Statement::Nothing => 0,
        Statement::Assignment => {
            let v = value_at(n.child(2), state);
            store(state, cell_of(n).0 as usize, v);
            1
        }
        Statement::Choice => {
            let steps = run_list(branch(n, state), state);
            (steps + 1).min(65535)
        }
        Statement::List => {
            let first = run_list(n.child(1), state);
            let second = run_list(n.child(2), state);
            (first + second).min(65535)
        }
    }
}

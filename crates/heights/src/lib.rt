// Refusal 7: the soonest expression that is too high, walked over the flat tree. The place of the soonest so far is carried, None
// where there is none.
#![tactic(auto)]

ghost use Rattle.std.specs.Prelude.{◌≡◌, List, ℕ, ◌+◌, ◌*◌, ◌<◌, ◌≤◌, length};
ghost use Rattle.paper.specs.Heights.{too_high, subscripts, measured, test_height, label_place, arm_faults, statement_faults, height_faults};
ghost use Rattle.faults.specs.Soonest.{soonest};
ghost use Rattle.tree.specs.Trees.{expr_at, label_at, labels_at, arms_at, program_at};
ghost use Rattle.heights.specs.Measured.{With, itself, assigned, headed, listed, branched, first_place, IsJoined};

use faults::with_fault;
use tree::kinds::{Arms, Expression, Statement};
use tree::node::{Node, node_at};

// ---- expressions

// A fault where more than 32 stand above one another.
#[tactic(auto, using(faults::proofs::Soonest::soonest_steps))]
fn too_high(best: Option<usize>, place: u16, height: usize) -> Option<usize>
    ensures { With best result (λ t. too_high place height) }
{
    if 32 < height {
        with_fault(best, place)
    } else {
        best
    }
}

// An expression by itself, without its subscripts.
fn by_itself(n: Node, best: Option<usize>) -> Option<usize>
    ensures { With best result (λ t. itself (expr_at t n.entry.pool.now n.entry.at)) }
{
    too_high(best, n.first_word(), n.height())
}

// Each subscript in an expression. A chain of operators goes on to its left side, in a loop, so that a long one takes no more stack.
fn subscripts(n: Node, best: Option<usize>) -> Option<usize>
    ensures { With best result (λ t. subscripts (expr_at t n.entry.pool.now n.entry.at)) }
{
    let mut rest = n;
    let mut x = best;
    loop {
        match rest.expression() {
            Expression::Element => {
                rest = rest.child(1);
                x = by_itself(rest, x);
            }
            Expression::Minus
            | Expression::Complement
            | Expression::Brackets
            | Expression::Conversion(..) => { rest = rest.child(1) }
            Expression::Binary(_) => {
                x = subscripts(rest.child(2), x);
                rest = rest.child(1);
            }
            _ => return x,
        }
    }
}

// An expression and its subscripts.
#[tactic(auto, using(faults::proofs::Soonest::soonest_steps), unfolding(paper::specs::Heights::measured))]
fn measured(n: Node, best: Option<usize>) -> Option<usize>
    ensures { With best result (λ t. measured (expr_at t n.entry.pool.now n.entry.at)) }
{
    let x = by_itself(n, best);
    subscripts(n, x)
}

// ---- the tests of a CASE, whose selector has the height `h`: at most one for each node of the pool, so that sums fit

// The height of a label's test.
fn test_height(n: Node, h: usize) -> usize
    requires { 4 * h ≤ length n.pool.now }
    ensures { result ≡ test_height h (label_at n.entry.pool.now n.entry.at) }
{
    if n.is_range() { h + 2 } else { h + 1 }
}

// The tests of labels, each further one joined by OR to those before it.
fn joined_height(n: Node, h: usize) -> usize
    requires { (4 * h ≤ length n.pool.now) × (0 < n.at) }
    ensures { IsJoined n.entry.pool.now h n.entry.at result }
{
    let before = n.child(1);
    let test = test_height(n.child(2), h);
    if before.at == 0 {
        return test;
    }
    joined_height(before, h).max(test) + 1
}

// The place of a label.
fn label_place(n: Node) -> u16
    ensures { result ≡ label_place (label_at n.entry.pool.now n.entry.at) }
{
    if n.is_range() {
        n.child(1).place()
    } else {
        n.place()
    }
}

// The place of the first label. A loop, so that a long list takes no more stack.
fn first_label(n: Node) -> u16
    requires { 0 < n.at }
    ensures { result ≡ first_place (labels_at n.entry.pool.now n.entry.at) }
{
    let mut rest = n;
    loop {
        let before = rest.child(1);
        if before.at == 0 {
            return label_place(rest.child(2));
        }
        rest = before;
    }
}

// The tests of an arm.
#[tactic(auto, using(tree::proofs::Frames::labels_nil, faults::proofs::Soonest::soonest_steps))]
fn tests(n: Node, h: usize, best: Option<usize>) -> Option<usize>
    requires { 4 * h ≤ length n.pool.now }
    ensures { With best result (λ t. arm_faults h (labels_at n.entry.pool.now n.entry.at)) }
{
    if n.at == 0 {
        return best;
    }
    too_high(best, first_label(n), joined_height(n, h))
}

// ---- statements

// An assignment: the subscript of its target, and its right side.
#[tactic(auto, using(faults::proofs::Soonest::soonest_steps))]
fn assignment(n: Node, best: Option<usize>) -> Option<usize>
    ensures { With best result (λ t. assigned t n.entry.pool.now n.entry.at) }
{
    let x = subscripts(n.child(1), best);
    measured(n.child(2), x)
}

// The head of a FOR: its bounds and its step.
#[tactic(auto, using(faults::proofs::Soonest::soonest_steps))]
fn head(n: Node, best: Option<usize>) -> Option<usize>
    ensures { With best result (λ t. headed t n.entry.pool.now n.entry.at) }
{
    let bounds = n.child(1);
    let x = measured(bounds.child(1), best);
    let y = measured(bounds.child(2), x);
    measured(n.child(2), y)
}

// The selector of a CASE, which is measured only in its tests: here its subscripts.
fn selector(n: Node, best: Option<usize>) -> Option<usize>
    ensures { With best result (λ t. subscripts (expr_at t n.entry.pool.now n.entry.at)) }
{
    subscripts(n, best)
}

// The two lists of an IF.
#[cycle(walk)]
#[tactic(auto, using(faults::proofs::Soonest::soonest_steps))]
fn branches(n: Node, best: Option<usize>) -> Option<usize>
    ensures { With best result (λ t. branched t n.entry.pool.now n.entry.at) }
{
    let x = statements(n.child(1), best);
    statements(n.child(2), x)
}

// A list of statements, which goes on to what stands before its last one, in a loop, so that a long one takes no more stack.
#[cycle(walk)]
fn statements(n: Node, best: Option<usize>) -> Option<usize>
    ensures { With best result (λ t. listed t n.entry.pool.now n.entry.at) }
{
    let mut rest = n;
    let mut x = best;
    loop {
        let a = rest.child(1);
        let b = rest.child(2);
        match rest.statement() {
            Statement::Nothing => return x,
            Statement::Assignment => return assignment(rest, x),
            Statement::Choice => {
                x = measured(a, x);
                return branches(b, x);
            }
            Statement::Selection => {
                x = selector(a, x);
                return arms(b, a.height(), x);
            }
            Statement::Loop => {
                x = head(a, x);
                rest = b;
            }
            Statement::List => {
                x = statements(b, x);
                rest = a;
            }
        }
    }
}

// The arms of a CASE whose selector has the height `h`, and its ELSE list. A loop, so that many arms take no more stack.
#[cycle(walk)]
fn arms(n: Node, h: usize, best: Option<usize>) -> Option<usize>
    requires { 4 * h ≤ length n.pool.now }
    ensures { With best result (λ t. statement_faults (arms_at t n.entry.pool.now n.entry.at) h) }
{
    let mut rest = n;
    let mut x = best;
    loop {
        let a = rest.child(1);
        match rest.arms() {
            Arms::Nothing => return x,
            Arms::Otherwise => return statements(a, x),
            Arms::Arm => {
                x = tests(a, h, x);
                x = statements(rest.child(2), x);
                rest = rest.child(3);
            }
        }
    }
}

// The soonest of a program.
pub fn first_too_high(pool: &[u16], root: usize) -> Option<usize>
    requires { 4 * root + 4 ≤ length pool.now }
    ensures { (t : List ℕ) → result ≡ soonest (height_faults (program_at t pool.now root)) }
{
    statements(node_at(pool, root).child(2), None)
}

// Refusal 5 of statements: a name that is not declared, an input assigned, a loop variable misused.
ghost use Rattle.std.specs.Prelude.{◌≡◌, ◌+◌, ◌≤◌, ◌<◌, length};
ghost use Rattle.paper.specs.Names.{at, is_known, is_input, can_loop};
ghost use Rattle.tree.specs.Nodes.{child_of};
ghost use Rattle.tree.specs.Trees.{name_at};
ghost use Rattle.variables.specs.Table.{variables_in};
ghost use Rattle.names.specs.Walks.{after, unknown_name, unknown_at, fixed_name, target_at, bad_loop, loop_name, head_at, assignment_at, branches_at, repeat_at, statements_at, arm_faults_at, loopable, Kept};

use faults::matters;
use paper::{Kind, Ty};
use tree::kinds::{Arms, Expression, Statement};
use tree::node::Node;
use variables::among;
use variables::declared::{is_array, section_of, type_of};
use variables::listed::Variables;

// ---- names

// Whether a name is declared.
fn is_known(vars: Variables, place: u16) -> bool
    ensures { result ≡ is_known (variables_in vars.entry.text.now vars.entry.pool.now vars.entry.table.now) (name_at vars.entry.text.now place) }
{
    vars.find(place).is_some()
}

// A name that must be declared.
#[tactic(auto, using(crate::proofs::After::after_at))]
fn known(vars: Variables, place: u16, best: Option<usize>) -> Option<usize>
    ensures { result ≡ after best
        (unknown_name (variables_in vars.entry.text.now vars.entry.pool.now vars.entry.table.now) vars.entry.text.now place) }
{
    if matters(best, place) && !is_known(vars, place) {
        return Some(place as usize);
    }
    best
}

// Whether a name is an input's.
fn is_input(vars: Variables, place: u16) -> bool
    ensures { result ≡ is_input (variables_in vars.entry.text.now vars.entry.pool.now vars.entry.table.now) (name_at vars.entry.text.now place) }
{
    match vars.find(place) {
        Some(v) => section_of(vars.declaration(v)) == Kind::Input,
        None => false,
    }
}

// Whether a FOR may run over the variables of a declaration: integers, no inputs, no arrays.
fn runs(declaration: Node) -> bool
    ensures { result ≡ loopable declaration.entry.pool.now declaration.entry.at }
{
    type_of(declaration) != Ty::Bool
        && section_of(declaration) != Kind::Input
        && !is_array(declaration)
}

// Whether a FOR may run over the variable of a name.
fn can_loop(vars: Variables, place: u16) -> bool
    ensures { result ≡ can_loop (variables_in vars.entry.text.now vars.entry.pool.now vars.entry.table.now) (name_at vars.entry.text.now place) }
{
    match vars.find(place) {
        Some(v) => runs(vars.declaration(v)),
        None => false,
    }
}

// Whether a name is no target: an input's, or that of a FOR around.
fn is_fixed(vars: Variables, loops: &[u16], place: u16) -> bool
    ensures { result ≡ fixed_name (variables_in vars.entry.text.now vars.entry.pool.now vars.entry.table.now) vars.entry.text.now
        loops.now (length loops.now) place }
{
    is_input(vars, place) || among(vars.text, loops, place)
}

// A name that must be a target.
#[tactic(auto, using(crate::proofs::After::after_at))]
fn assigned(vars: Variables, loops: &[u16], place: u16, best: Option<usize>) -> Option<usize>
    ensures { result ≡ after best
        (at place (fixed_name (variables_in vars.entry.text.now vars.entry.pool.now vars.entry.table.now) vars.entry.text.now
        loops.now (length loops.now) place)) }
{
    if matters(best, place) && is_fixed(vars, loops, place) {
        return Some(place as usize);
    }
    best
}

// Whether no FOR may run over the variable of a name here, or it is another FOR's around.
fn is_bad_loop(vars: Variables, loops: &[u16], place: u16) -> bool
    ensures { result ≡ bad_loop (variables_in vars.entry.text.now vars.entry.pool.now vars.entry.table.now) vars.entry.text.now
        loops.now (length loops.now) place }
{
    !can_loop(vars, place) || among(vars.text, loops, place)
}

// The variable of a FOR, which must be one that it may run over, and no other FOR's around.
#[tactic(auto, using(crate::proofs::After::after_at))]
fn loop_name(vars: Variables, loops: &[u16], place: u16, best: Option<usize>) -> Option<usize>
    ensures { result ≡ after best
        (loop_name (variables_in vars.entry.text.now vars.entry.pool.now vars.entry.table.now) vars.entry.text.now
        loops.now (length loops.now) place) }
{
    if matters(best, place) && is_bad_loop(vars, loops, place) {
        return Some(place as usize);
    }
    best
}

// ---- expressions

// The unknown names of an expression. A loop, so that a long chain of operators takes no more stack.
fn unknown(vars: Variables, n: Node, best: Option<usize>) -> Option<usize>
    ensures { result ≡ after best
        (unknown_at (variables_in vars.entry.text.now vars.entry.pool.now vars.entry.table.now) vars.entry.text.now n.entry.pool.now n.entry.at) }
{
    let mut rest = n;
    let mut x = best;
    loop {
        match rest.expression() {
            Expression::Variable => return known(vars, rest.place(), x),
            Expression::Element => x = known(vars, rest.place(), x),
            Expression::Minus
            | Expression::Complement
            | Expression::Brackets
            | Expression::Conversion(..) => {}
            Expression::Binary(_) => x = unknown(vars, rest.child(2), x),
            _ => return x,
        }
        rest = rest.child(1);
    }
}

// A target that is an input, or the variable of a FOR around.
fn target(vars: Variables, loops: &[u16], n: Node, best: Option<usize>) -> Option<usize>
    ensures { result ≡ after best
        (target_at (variables_in vars.entry.text.now vars.entry.pool.now vars.entry.table.now) vars.entry.text.now n.entry.pool.now
        loops.now (length loops.now) n.entry.at) }
{
    match n.expression() {
        Expression::Variable | Expression::Element => assigned(vars, loops, n.place(), best),
        _ => best,
    }
}

// ---- statements

// The head of a FOR: its variable, and its bounds and step.
#[tactic(auto, using(crate::proofs::After::after_append))]
fn head(vars: Variables, loops: &[u16], n: Node, best: Option<usize>) -> Option<usize>
    ensures { result ≡ after best
        (head_at (variables_in vars.entry.text.now vars.entry.pool.now vars.entry.table.now) vars.entry.text.now n.entry.pool.now
        loops.now (length loops.now) n.entry.at) }
{
    let w = loop_name(vars, loops, n.place(), best);
    let bounds = n.child(1);
    let x = unknown(vars, bounds.child(1), w);
    let y = unknown(vars, bounds.child(2), x);
    unknown(vars, n.child(2), y)
}

// An assignment: its target and its right side.
#[tactic(auto, using(crate::proofs::After::after_append))]
fn assignment(vars: Variables, loops: &[u16], n: Node, best: Option<usize>) -> Option<usize>
    ensures { result ≡ after best
        (assignment_at (variables_in vars.entry.text.now vars.entry.pool.now vars.entry.table.now) vars.entry.text.now n.entry.pool.now
        loops.now (length loops.now) (child_of n.entry.pool.now n.entry.at 1) (child_of n.entry.pool.now n.entry.at 2)) }
{
    let a = n.child(1);
    let x = unknown(vars, a, best);
    let y = target(vars, loops, a, x);
    unknown(vars, n.child(2), y)
}

// The two lists of an IF.
#[cycle(walk)]
#[tactic(auto, using(crate::proofs::After::after_append, crate::proofs::Fronts::statements_kept))]
fn branches(
    vars: Variables,
    loops: &mut [u16],
    depth: usize,
    n: Node,
    best: Option<usize>,
) -> Option<usize>
    requires { depth + n.at ≤ length loops.old }
    ensures { (result ≡ after best
        (branches_at (variables_in vars.entry.text.now vars.entry.pool.now vars.entry.table.now) vars.entry.text.now n.entry.pool.now
        loops.old depth n.entry.at))
        × Kept depth loops.old loops.new }
{
    let x = statements(vars, loops, depth, n.child(1), best);
    statements(vars, loops, depth, n.child(2), x)
}

// A FOR: its head and its body.
#[cycle(walk)]
fn repeat(
    vars: Variables,
    loops: &mut [u16],
    depth: usize,
    n: Node,
    best: Option<usize>,
) -> Option<usize>
    requires { (0 < n.at) × (depth + n.at ≤ length loops.old) }
    ensures { (result ≡ after best
        (repeat_at (variables_in vars.entry.text.now vars.entry.pool.now vars.entry.table.now) vars.entry.text.now n.entry.pool.now
        loops.old depth (child_of n.entry.pool.now n.entry.at 1) (child_of n.entry.pool.now n.entry.at 2)))
        × Kept depth loops.old loops.new }
{
    let h = n.child(1);
    let x = head(vars, &loops[..depth], h, best);
    loops[depth] = h.place();
    statements(vars, loops, depth + 1, n.child(2), x)
}

// The faults of the statements at a node, `depth` FORs being around. A loop, so that a long list takes no more stack.
#[cycle(walk)]
pub fn statements(
    vars: Variables,
    loops: &mut [u16],
    depth: usize,
    n: Node,
    best: Option<usize>,
) -> Option<usize>
    requires { depth + n.at ≤ length loops.old }
    ensures { (result ≡ after best
        (statements_at (variables_in vars.entry.text.now vars.entry.pool.now vars.entry.table.now) vars.entry.text.now n.entry.pool.now
        loops.old depth n.entry.at))
        × Kept depth loops.old loops.new }
{
    let mut rest = n;
    let mut x = best;
    loop {
        let a = rest.child(1);
        let b = rest.child(2);
        match rest.statement() {
            Statement::Nothing => return x,
            Statement::Assignment => return assignment(vars, &loops[..depth], rest, x),
            Statement::Choice => {
                let y = unknown(vars, a, x);
                return branches(vars, loops, depth, b, y);
            }
            Statement::Selection => {
                let y = unknown(vars, a, x);
                return arms(vars, loops, depth, b, y);
            }
            Statement::Loop => return repeat(vars, loops, depth, rest, x),
            Statement::List => {
                x = statements(vars, loops, depth, b, x);
                rest = a;
            }
        }
    }
}

// The arms of a CASE and its ELSE list. A loop, so that many arms take no more stack.
#[cycle(walk)]
fn arms(
    vars: Variables,
    loops: &mut [u16],
    depth: usize,
    n: Node,
    best: Option<usize>,
) -> Option<usize>
    requires { depth + n.at ≤ length loops.old }
    ensures { (result ≡ after best
        (arm_faults_at (variables_in vars.entry.text.now vars.entry.pool.now vars.entry.table.now) vars.entry.text.now n.entry.pool.now
        loops.old depth n.entry.at))
        × Kept depth loops.old loops.new }
{
    let mut rest = n;
    let mut x = best;
    loop {
        match rest.arms() {
            Arms::Nothing => return x,
            Arms::Otherwise => return statements(vars, loops, depth, rest.child(1), x),
            Arms::Arm => {
                x = statements(vars, loops, depth, rest.child(2), x);
                rest = rest.child(3);
            }
        }
    }
}

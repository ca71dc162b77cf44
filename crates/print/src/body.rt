// Expressions and statements of ST0.
ghost use Rattle.std.specs.Prelude.{◌≡◌, ◌++◌, ◌<◌};
ghost use Rattle.paper.specs.Words.{bytes, conversion_name};
ghost use Rattle.paper.specs.Printing as P;
ghost use Rattle.tree.specs.Nodes.{word_of, child_of};
ghost use Rattle.plain.specs.Flat.{expr_at, list_at};
ghost use Rattle.variables.specs.Table.{bounds_in, listed_in};
ghost use Rattle.print.specs.Printed.{Printed};
ghost use Rattle.print.specs.Parts.{subscript, is_done, if_empty, if_else, whole};

use crate::bytes::{natural, put, truth, type_name};
use crate::declared::{named, number};
use crate::index::{Names, variable_of};
use paper::{Op, Ty};
use plain::kinds::{Expression, Statement, as_expression, as_statement, cell_of};
use tree::node::Node;
use variables::declared::{bounds_of, is_array};

// The subscript of an array's element, the cell `o` of the array; of another variable nothing.
fn subscripted(n: Node, o: usize, out: &mut [u8], at: usize) -> usize
    requires { o < 65536 }
    ensures { Printed out.old out.new at (subscript (bounds_in n.entry.pool.now n.entry.at) o) result }
{
    if !is_array(n) {
        return at;
    }
    let lo = bounds_of(n).child(1).wide() as usize;
    let a = put(out, at, b"[");
    let b = natural(out, a, (lo + o) as u64);
    put(out, b, b"]")
}

// A cell by its variable's name; of an array, with the subscript.
fn cell(names: Names, c: usize, out: &mut [u8], at: usize) -> usize
    requires { c < 65536 }
    ensures { Printed out.old out.new at (P.cell (listed_in names.entry.variables.text.now names.entry.variables.pool.now names.entry.variables.table.now) c) result }
{
    let vars = names.variables;
    let v = variable_of(names, c);
    if vars.count() <= v {
        return at;
    }
    let first = vars.first_cell(v) as usize;
    let a = named(vars.text, vars.table, v, out, at);
    subscripted(vars.declaration(v), c - first, out, a)
}

// The spelling of an operator between its operands.
fn spelling(o: Op) -> &'static [u8]
    ensures { result.now ≡ bytes (P.sign o) }
{
    match o {
        Op::Mul => b" * ",
        Op::Div => b" / ",
        Op::Mod => b" MOD ",
        Op::Add => b" + ",
        Op::Sub => b" - ",
        Op::Lt => b" < ",
        Op::Gt => b" > ",
        Op::Le => b" <= ",
        Op::Ge => b" >= ",
        Op::Eq => b" = ",
        Op::Ne => b" <> ",
        Op::And => b" AND ",
        Op::Xor => b" XOR ",
        Op::Or => b" OR ",
    }
}

// What stands in front of the operand of a conversion.
fn converted(t: Ty, u: Ty, out: &mut [u8], at: usize) -> usize
    ensures { Printed out.old out.new at (λ k. conversion_name t u ++ P.put "(" k) result }
{
    let a = type_name(out, at, t);
    let b = put(out, a, b"_TO_");
    let c = type_name(out, b, u);
    put(out, c, b"(")
}

fn expression(names: Names, n: Node, out: &mut [u8], at: usize) -> usize
    ensures { Printed out.old out.new at (P.expression (listed_in names.entry.variables.text.now names.entry.variables.pool.now names.entry.variables.table.now) (expr_at n.entry.pool.now n.entry.at)) result }
{
    match as_expression(n) {
        Expression::Number => number(n, out, at),
        Expression::Truth(b) => truth(out, at, b),
        Expression::Read => cell(names, cell_of(n).0 as usize, out, at),
        Expression::Minus => {
            let a = put(out, at, b"(-(");
            let b = expression(names, n.child(1), out, a);
            put(out, b, b"))")
        }
        Expression::Complement => {
            let a = put(out, at, b"(NOT ");
            let b = expression(names, n.child(1), out, a);
            put(out, b, b")")
        }
        Expression::Conversion(t, u) => {
            let a = converted(t, u, out, at);
            let b = expression(names, n.child(1), out, a);
            put(out, b, b")")
        }
        Expression::Binary(o) => {
            let a = put(out, at, b"(");
            let b = expression(names, n.child(1), out, a);
            let c = put(out, b, spelling(o));
            let d = expression(names, n.child(2), out, c);
            put(out, d, b")")
        }
    }
}

// Whether a list has no statement.
fn is_empty(n: Node) -> bool
    ensures { result ≡ is_done (list_at n.entry.pool.now n.entry.at) }
{
    match as_statement(n) {
        Statement::Nothing => true,
        Statement::Assignment | Statement::Choice => false,
        Statement::List => is_empty(n.child(1)) && is_empty(n.child(2)),
    }
}

// The empty statement behind a list that has none.
fn semicolon(n: Node, out: &mut [u8], at: usize) -> usize
    ensures { Printed out.old out.new at (if_empty (list_at n.entry.pool.now n.entry.at)) result }
{
    if is_empty(n) {
        put(out, at, b";\n")
    } else {
        at
    }
}

// ELSE, where the list behind it holds something.
fn otherwise(n: Node, out: &mut [u8], at: usize) -> usize
    ensures { Printed out.old out.new at (if_else (list_at n.entry.pool.now n.entry.at)) result }
{
    if is_empty(n) {
        at
    } else {
        put(out, at, b"ELSE\n")
    }
}

// What stands between the two lists of an IF.
fn between(n: Node, out: &mut [u8], at: usize) -> usize
    ensures { Printed out.old out.new at (λ k. if_empty (list_at n.entry.pool.now (child_of n.entry.pool.now n.entry.at 2)) (if_else (list_at n.entry.pool.now (child_of n.entry.pool.now n.entry.at 3)) k)) result }
{
    let a = semicolon(n.child(2), out, at);
    otherwise(n.child(3), out, a)
}

// IF and its condition.
fn condition(names: Names, n: Node, out: &mut [u8], at: usize) -> usize
    ensures { Printed out.old out.new at (λ k. P.put "IF " (P.expression (listed_in names.entry.variables.text.now names.entry.variables.pool.now names.entry.variables.table.now) (expr_at n.entry.pool.now (child_of n.entry.pool.now n.entry.at 1)) (P.line " THEN" k))) result }
{
    let a = put(out, at, b"IF ");
    let b = expression(names, n.child(1), out, a);
    put(out, b, b" THEN\n")
}

fn assignment(names: Names, n: Node, out: &mut [u8], at: usize) -> usize
    ensures { Printed out.old out.new at (λ k. P.cell (listed_in names.entry.variables.text.now names.entry.variables.pool.now names.entry.variables.table.now) (word_of n.entry.pool.now n.entry.at 1) (P.put " := " (P.expression (listed_in names.entry.variables.text.now names.entry.variables.pool.now names.entry.variables.table.now) (expr_at n.entry.pool.now (child_of n.entry.pool.now n.entry.at 2)) (P.line ";" k)))) result }
{
    let a = cell(names, n.word(1) as usize, out, at);
    let b = put(out, a, b" := ");
    let c = expression(names, n.child(2), out, b);
    put(out, c, b";\n")
}

// The statements of a list.
fn statements(names: Names, n: Node, out: &mut [u8], at: usize) -> usize
    ensures { Printed out.old out.new at (P.statements (listed_in names.entry.variables.text.now names.entry.variables.pool.now names.entry.variables.table.now) (list_at n.entry.pool.now n.entry.at)) result }
{
    match as_statement(n) {
        Statement::Nothing => at,
        Statement::Assignment => assignment(names, n, out, at),
        Statement::Choice => {
            let a = condition(names, n, out, at);
            let b = statements(names, n.child(2), out, a);
            let c = between(n, out, b);
            let d = statements(names, n.child(3), out, c);
            put(out, d, b"END_IF;\n")
        }
        Statement::List => {
            let a = statements(names, n.child(1), out, at);
            statements(names, n.child(2), out, a)
        }
    }
}

// A list; one without statements is one empty statement.
pub fn list(names: Names, n: Node, out: &mut [u8], at: usize) -> usize
    ensures { Printed out.old out.new at (whole (listed_in names.entry.variables.text.now names.entry.variables.pool.now names.entry.variables.table.now) (list_at n.entry.pool.now n.entry.at)) result }
{
    let a = statements(names, n, out, at);
    semicolon(n, out, a)
}

// ST0 in a flat pool: the figure of a list, and the cells that two lists assign.
#![tactic(auto)]

pub mod kinds;

ghost use Rattle.std.specs.Prelude.{◌≡◌, ◌≤◌, min, length};
ghost use Rattle.paper.specs.Plain.{figure, count, cells_within};
ghost use Rattle.plain.specs.Flat.{list_at};
ghost use Rattle.plain.specs.Marks.{is_marked, Marks};

use crate::kinds::{Statement, as_statement, cell_of};
use tree::node::Node;

// The longest way through a list, 65535 standing for more.
pub fn figure_of(n: Node) -> usize
    ensures { result ≡ min 65535 (figure (list_at n.entry.pool.now n.entry.at)) }
{
    match as_statement(n) {
        Statement::Nothing => 0,
        Statement::Assignment => 1,
        Statement::Choice => {
            let a = figure_of(n.child(2));
            let b = figure_of(n.child(3));
            (a.max(b) + 1).min(65535)
        }
        Statement::List => {
            let a = figure_of(n.child(1));
            let b = figure_of(n.child(2));
            (a + b).min(65535)
        }
    }
}

// Marks the cells that a list assigns.
pub fn mark(n: Node, marks: &mut [u8])
    ensures { Marks (list_at n.entry.pool.now n.entry.at) marks.old marks.new }
{
    match as_statement(n) {
        Statement::Nothing => {}
        Statement::Assignment => {
            let c = cell_of(n).0 as usize;
            if c < marks.len() {
                marks[c] = 1;
            }
        }
        Statement::Choice => {
            mark(n.child(2), marks);
            mark(n.child(3), marks);
        }
        Statement::List => {
            mark(n.child(1), marks);
            mark(n.child(2), marks);
        }
    }
}

// How many of the first `n` are marked.
fn marked(marks: &[u8], n: usize) -> usize
    requires { n ≤ length marks.now }
    ensures { result ≡ count (is_marked marks.now) n }
{
    marks[..n].iter().filter(|m| **m != 0).count()
}

// How many of `count` cells two lists assign.
pub fn cells_within(count: usize, a: Node, b: Node) -> usize
    requires { count ≤ 64 }
    ensures { result ≡ cells_within count (list_at a.entry.pool.now a.entry.at) (list_at b.entry.pool.now b.entry.at) }
{
    let mut marks = [0u8; 64];
    mark(a, &mut marks);
    mark(b, &mut marks);
    marked(&marks, count)
}

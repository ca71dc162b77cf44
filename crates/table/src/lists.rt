// Rows of lists of statements.
ghost use Rattle.std.specs.Prelude.{◌≡◌, ◌≤◌, length};
ghost use Rattle.plain.specs.declared.kinds.Statement.TheVariants.{Assignment, Choice};
ghost use Rattle.plain.specs.Flat.{list_at};
ghost use Rattle.plain.specs.Kinds.{IsStatement};
ghost use Rattle.table.specs.Walks.{Binds};

use crate::merging::merge_cells;
use crate::parts::expression_rows;
use crate::standing::set_row;
use plain::kinds::{Statement, as_statement, cell_of};
use tree::node::Node;

// An assignment: its right side's row stands for the cell.
fn assignment_rows(n: Node, infos: &[u32], env: &mut [u16], rows: &mut [u32], count: u16) -> u16
    requires { IsStatement n.pool.now n.at Assignment }
    ensures { Binds infos.now (list_at n.entry.pool.now n.entry.at) env.old env.new rows.old rows.new count result }
{
    let made = expression_rows(n.child(2), env, rows, count);
    set_row(env, cell_of(n), made.at);
    made.count
}

// An IF: both lists start from the same rows, THEN in `env` and ELSE in `other`.
#[cycle(lists)]
fn choice_rows(
    n: Node,
    infos: &[u32],
    env: &mut [u16],
    other: &mut [u16],
    rows: &mut [u32],
    count: u16,
) -> u16
    requires { (IsStatement n.pool.now n.at Choice) × (length infos.now ≡ length env.old) × (length other.old ≡ length env.old) × (length env.old ≤ 64) }
    ensures { Binds infos.now (list_at n.entry.pool.now n.entry.at) env.old env.new rows.old rows.new count result }
{
    other.copy_from_slice(env);
    let test = expression_rows(n.child(1), env, rows, count);
    let a = n.child(2);
    let y = list_rows(a, infos, env, rows, test.count);
    let b = n.child(3);
    let z = list_rows(b, infos, other, rows, y);
    merge_cells(a, b, test.at, infos, env, other, rows, z)
}

// The rows of a list.
#[cycle(lists)]
pub fn list_rows(n: Node, infos: &[u32], env: &mut [u16], rows: &mut [u32], count: u16) -> u16
    requires { (length infos.now ≡ length env.old) × (length env.old ≤ 64) }
    ensures { Binds infos.now (list_at n.entry.pool.now n.entry.at) env.old env.new rows.old rows.new count result }
{
    match as_statement(n) {
        Statement::Nothing => count,
        Statement::Assignment => assignment_rows(n, infos, env, rows, count),
        Statement::Choice => {
            let cells = env.len();
            let mut other = [0u16; 64];
            choice_rows(n, infos, env, &mut other[..cells], rows, count)
        }
        Statement::List => {
            let y = list_rows(n.child(1), infos, env, rows, count);
            list_rows(n.child(2), infos, env, rows, y)
        }
    }
}

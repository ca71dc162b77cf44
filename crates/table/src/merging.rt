// The cells behind an IF: a select where a branch assigns one.
ghost use Rattle.std.specs.Prelude.{◌≡◌, ◌≤◌, length};
ghost use Rattle.plain.specs.Flat.{list_at};
ghost use Rattle.table.specs.Walks.{Selects};

use crate::records::push_select;
use crate::standing::{row_of, set_row};
use paper::{Cell, Row};
use plain::mark;
use tree::node::Node;

// Every cell behind an IF with the lists `a` and `b`: a select over the row `test`, its condition's, where one of them assigns the cell.
pub fn merge_cells(
    a: Node,
    b: Node,
    test: Row,
    infos: &[u32],
    env: &mut [u16],
    other: &[u16],
    rows: &mut [u32],
    count: u16,
) -> u16
    requires { (length infos.now ≡ length env.old) × (length other.now ≡ length env.old) × (length env.old ≤ 64) }
    ensures { Selects (list_at a.entry.pool.now a.entry.at) (list_at b.entry.pool.now b.entry.at) test infos.now env.old env.new other.now rows.old rows.new count result }
{
    let mut marks = [0u8; 64];
    mark(a, &mut marks);
    mark(b, &mut marks);
    let mut count = count;
    for i in 0..env.len() {
        if marks[i] == 0 {
            continue;
        }
        let cell = Cell(i as u16);
        let x = row_of(env, cell);
        let y = row_of(other, cell);
        let made = push_select(rows, count, 32 + infos[i] % 8, test, x, y);
        set_row(env, cell, made.at);
        count = made.count;
    }
    count
}

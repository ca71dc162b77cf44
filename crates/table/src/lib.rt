// The next-state table made from ST0: rows in order, then each cell's next row.
#![tactic(auto)]

ghost use Rattle.std.specs.Prelude.{◌≡◌, ◌+◌, ◌*◌, ◌≤◌, length};
ghost use Rattle.table.specs.Walks.{Starts, Tabled};

mod lists;
mod merging;
mod parts;
mod records;
mod standing;

use lists::list_rows;
use paper::Cell;
use records::{cell_records, push_read};
use standing::set_row;
use tree::node::{Node, node_at};

// A row for each cell's value at the scan's start, which stands for the cell.
fn read_cells(infos: &[u32], env: &mut [u16], rows: &mut [u32]) -> u16
    requires { (length infos.now ≡ length env.old) × (length env.old ≤ 64) }
    ensures { Starts 0 infos.now env.old env.new rows.old rows.new 0 result }
{
    let mut count = 0;
    for (i, info) in infos.iter().enumerate() {
        let cell = Cell(i as u16);
        let made = push_read(rows, count, 8 + info % 8, cell);
        set_row(env, cell, made.at);
        count = made.count;
    }
    count
}

// The table of a list, where `env` has a place for each cell.
fn table_in(
    list: Node,
    infos: &[u32],
    env: &mut [u16],
    rows: &mut [u32],
    cells: &mut [u32],
) -> usize
    requires { (length infos.now ≡ length env.old) × (length env.old ≤ 64) × (length infos.now ≤ length cells.old) }
    ensures { Tabled list.entry.pool.now list.entry.at infos.now rows.old rows.new cells.old cells.new result }
{
    let reads = read_cells(infos, env, rows);
    let count = list_rows(list, infos, env, rows, reads);
    cell_records(infos, env, cells);
    count as usize
}

// The table of a list: its number of rows; rows and cells in front of what the buffers held, where there is room for all rows.
pub fn table_of(
    plain: &[u16],
    list: usize,
    infos: &[u32],
    rows: &mut [u32],
    cells: &mut [u32],
) -> usize
    requires { (4 * list + 4 ≤ length plain.now) × (length infos.now ≤ 64) × (length infos.now ≤ length cells.old) }
    ensures { Tabled plain.now list infos.now rows.old rows.new cells.old cells.new result }
{
    let n = infos.len();
    let mut env = [0u16; 64];
    table_in(node_at(plain, list), infos, &mut env[..n], rows, cells)
}

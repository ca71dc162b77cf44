// Records of rows and cells in the lent buffers. Only here does a row's or a cell's number become a number of a record.
ghost use Rattle.std.specs.Prelude.{◌≡◌, ◌+◌, ◌*◌, ◌≤◌, length};
ghost use Rattle.paper.specs.Types.{tag};
ghost use Rattle.paper.specs.Names.{Info};
ghost use Rattle.paper.specs.Tables.{cell_record};
ghost use Rattle.table.specs.Growth.{Emits};
ghost use Rattle.table.specs.Walks.{Pushes, Says, Ends};

use crate::standing::row_of;
use paper::{Cell, Row, Ty};

// The number of rows so far, and the row that stands for an expression.
#[derive(Clone, Copy)]
pub struct Made {
    pub count: u16,
    pub at: Row,
}

// One row more, where there is room.
fn emit_row(rows: &mut [u32], count: u16, head: u32, a: u32, b: u32, c: u32) -> u16
    ensures { Emits rows.old rows.new count head a b c result }
{
    let i = 4 * count as usize;
    if count == u16::MAX || rows.len() < i + 4 {
        return count;
    }
    rows[i] = head;
    rows[i + 1] = a;
    rows[i + 2] = b;
    rows[i + 3] = c;
    count + 1
}

// One row more, whose number is that of the rows before it.
fn push(rows: &mut [u32], count: u16, first: u32, a: u32, b: u32, c: u32) -> Made
    ensures { Pushes rows.old rows.new count first a b c result }
{
    Made {
        count: emit_row(rows, count, first, a, b, c),
        at: Row(count),
    }
}

// The row of a number or truth value.
pub fn push_number(rows: &mut [u32], count: u16, first: u32, residue: u32) -> Made
    ensures { Pushes rows.old rows.new count first residue 0 0 result }
{
    push(rows, count, first, residue, 0, 0)
}

// The row of a cell's value at the scan's start.
pub fn push_read(rows: &mut [u32], count: u16, first: u32, c: Cell) -> Made
    ensures { Pushes rows.old rows.new count first c.0 0 0 result }
{
    push(rows, count, first, c.0 as u32, 0, 0)
}

// The row of an operator or conversion over the row `a`.
pub fn push_one(rows: &mut [u32], count: u16, first: u32, a: Row) -> Made
    ensures { Pushes rows.old rows.new count first a.0 0 0 result }
{
    push(rows, count, first, a.0 as u32, 0, 0)
}

// The row of an operator over the rows `a` and `b`.
pub fn push_two(rows: &mut [u32], count: u16, first: u32, a: Row, b: Row) -> Made
    ensures { Pushes rows.old rows.new count first a.0 b.0 0 result }
{
    push(rows, count, first, a.0 as u32, b.0 as u32, 0)
}

// The row of a select: `a` where the row `test` holds, else `b`.
pub fn push_select(rows: &mut [u32], count: u16, first: u32, test: Row, a: Row, b: Row) -> Made
    ensures { Pushes rows.old rows.new count first test.0 a.0 b.0 result }
{
    push(rows, count, first, test.0 as u32, a.0 as u32, b.0 as u32)
}

// The first number of a row, by its operation and type.
pub fn head(operation: u32, t: Ty) -> u32
    requires { operation ≤ 65535 }
    ensures { result ≡ 8 * operation + tag t }
{
    8 * operation + u8::from(t) as u32
}

// A cell's number, by its type and kind and its next row.
fn cell_record(info: u32, next: Row) -> u32
    ensures { (i : Info) → Says info i → result ≡ cell_record i next }
{
    if info / 8 % 2 == 1 {
        info % 8 + 8
    } else {
        info % 8 + 16 * (next.0 as u32 + 1)
    }
}

// The cells' numbers, each with its next row.
pub fn cell_records(infos: &[u32], env: &[u16], cells: &mut [u32])
    requires { (length infos.now ≡ length env.now) × (length env.now ≤ 64) × (length infos.now ≤ length cells.old) }
    ensures { Ends 0 infos.now env.now cells.old cells.new }
{
    for (i, info) in infos.iter().enumerate() {
        cells[i] = cell_record(*info, row_of(env, Cell(i as u16)));
    }
}

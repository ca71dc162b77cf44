// The next-state table made from a text; those that check a lent one and scan from it are those of `lent`.
ghost use Rattle.judge.specs.Judged.{Roomy};
ghost use Rattle.kaldvimur.specs.Arrays.{In};
ghost use Rattle.kaldvimur.specs.Tables.{TableDid};
ghost use Rattle.kaldvimur.specs.Writing.{Writable, Writes};

use crate::arrays::{Program, accepted, in_arrays};
use cells::cells_of;
use lent::{has_room, refused};
pub use lent::{check_table, scan_checked, scan_table};
use paper::{Refusal, Why};
use table::table_of;

// How many rows and cells a table has.
#[derive(Clone, Copy)]
pub struct Sizes {
    pub rows: usize,
    pub cells: usize,
}

// The table of the judged program into the front of the two buffers: the number of its rows.
fn write(program: Program, rows: &mut [u32], cells: &mut [u32]) -> usize
    requires { In program (λ p table q j. Writable p table q j cells.old) }
    ensures { In program.entry (λ p table q j. Writes p table q j rows.old cells.old rows.new cells.new result) }
{
    let judged = program.judged;
    let table = &program.table[..4 * judged.variables];
    let mut infos = [0u32; 64];
    cells_of(program.pool, table, &mut infos);
    table_of(
        program.plain,
        judged.list,
        &infos[..judged.cells],
        rows,
        cells,
    )
}

// The next-state table of a text that is judged in lent buffers.
fn table_in(
    text: &[u8],
    pool: &mut [u16],
    table: &mut [u16],
    plain: &mut [u16],
    rows: &mut [u32],
    cells: &mut [u32],
) -> Result<Sizes, Refusal>
    requires { Roomy text.now pool.old table.old plain.old }
    ensures { TableDid text.now rows.old cells.old rows.new cells.new result }
{
    let program = accepted(text, pool, table, plain)?;
    let count = program.judged.cells;
    if !has_room(rows, cells, program.judged.weight + count, count) {
        return Err(refused(Why::NoRoom));
    }
    let n = write(program, rows, cells);
    Ok(Sizes {
        rows: n,
        cells: count,
    })
}

// The next-state table of a text into the front of `rows` and `cells`.
pub fn table(text: &[u8], rows: &mut [u32], cells: &mut [u32]) -> Result<Sizes, Refusal>
    ensures { TableDid text.now rows.old cells.old rows.new cells.new result }
{
    in_arrays(
        text,
        rows,
        cells,
        |pool, table, plain, rows, cells| table_in(text, pool, table, plain, rows, cells),
    )
}

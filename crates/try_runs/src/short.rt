// Lent buffers one place too short: refused with 10 at the place 0, and left as they were.
ghost use Rattle.std.specs.Prelude.{◌≡◌, true, ◌+◌, ◌*◌, ◌<◌, pos, length, replicate, Ok};
ghost use Rattle.paper.specs.declared.Accepted.{Accepted};
ghost use Rattle.paper.specs.declared.Why.TheVariants.{NoRoom};
ghost use Rattle.paper.specs.Refusals.{refused};
ghost use Rattle.paper.specs.Judge.{verdict, start_into, table_into};
ghost use Rattle.try_runs.specs.Short.{TablesAs, Untabled, MadeIn, Short};

use crate::compare::{Wanted, is_as, started};
use kaldvimur::accept;
use kaldvimur::tables::table;
use pack::Refused;
use paper::Accepted;

// The refusal of what has no room.
const NO_ROOM: Refused = Refused {
    number: 10,
    place: 0,
};

// Whether every number of a buffer is v.
fn holds_only(s: &[u32], v: u32) -> bool
    ensures { result ≡ true → s.now ≡ replicate (length s.now) v }
{
    s.iter().all(|n| *n == v)
}

// Whether a table made in these buffers is answered for as expected: its cells are counted.
fn table_as(text: &[u8], rows: &mut [u32], cells: &mut [u32], w: Wanted) -> bool
    ensures { result ≡ true → TablesAs text.now rows.old cells.old w }
{
    is_as(table(text, rows, cells).map(|sizes| sizes.cells), w)
}

// Whether these buffers are too short for the table, and every number in them is v afterwards.
fn untabled(text: &[u8], rows: &mut [u32], cells: &mut [u32], v: u32) -> bool
    ensures { result ≡ true → Untabled text.now rows.old cells.old rows.new cells.new v }
{
    table_as(text, rows, cells, Err(NO_ROOM)) && holds_only(rows, v) && holds_only(cells, v)
}

// Whether a state of n places, which hold 7 before and afterwards, is too short to start in.
fn state_short(text: &[u8], n: usize) -> bool
    ensures { result ≡ true → start_into text.now (replicate n (pos 7)) ≡ refused NoRoom 0 }
{
    let mut state = [7i64; 64];
    let before = [7i64; 64];
    n <= 64 && started(text, &mut state[..n], &before[..n], Err(NO_ROOM))
}

// Whether n numbers and k cells, 7 each, are too few for the table.
fn table_short(text: &[u8], n: usize, k: usize) -> bool
    ensures { result ≡ true → table_into text.now (replicate n 7) (replicate k 7) ≡ refused NoRoom 0 }
{
    let mut rows = [7u32; 12256];
    let mut cells = [7u32; 64];
    if 12256 < n || 64 < k {
        return false;
    }
    untabled(text, &mut rows[..n], &mut cells[..k], 7)
}

// Whether they are enough, k being the number of its cells.
fn table_made(text: &[u8], n: usize, k: usize) -> bool
    ensures { result ≡ true → MadeIn text.now n k }
{
    let mut rows = [7u32; 12256];
    let mut cells = [7u32; 64];
    if 12256 < n || 64 < k {
        return false;
    }
    table_as(text, &mut rows[..n], &mut cells[..k], Ok(k))
}

// Whether buffers as long as the counts of an accepted text ask for are enough, and are too short with a place less.
pub fn short_refused(text: &[u8]) -> bool
    ensures { result ≡ true → (a : Accepted) → verdict text.now ≡ Ok a → 0 < a.cells → Short text.now (4 * (a.weight + a.cells)) a.cells }
{
    let Ok(a) = accept(text) else {
        return false;
    };
    let k = a.cells;
    if k == 0 {
        return true;
    }
    if 64 < k || 3000 < a.weight {
        return false;
    }
    let n = 4 * (a.weight + k);
    state_short(text, k - 1)
        && table_short(text, n - 1, k)
        && table_short(text, n, k - 1)
        && table_made(text, n, k)
}

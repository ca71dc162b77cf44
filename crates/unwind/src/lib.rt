// From the judged tree to ST0, by 8 and 9 in one walk.
#![tactic(auto)]

pub mod cases;
pub mod lists;
pub mod loops;
pub mod parts;
pub mod walk;

ghost use Rattle.std.specs.Prelude.{◌*◌, ◌+◌, ◌≤◌, length};
ghost use Rattle.unwind.specs.Walks.{ProgramDid};

use crate::lists::Walk;
use paper::Refusal;
use tree::node::node_at;
use variables::listed::listed;

// The body of the program at a node, whose variables have so many cells.
pub fn unwind_program(
    text: &[u8],
    pool: &[u16],
    table: &[u16],
    cells: usize,
    root: usize,
    out: &mut [u16],
) -> Result<Walk, Refusal>
    requires { (4 * root + 4 ≤ length pool.now) × (root ≤ 65535) × (cells ≤ 64) × (48016 ≤ length out.old) × (length out.old ≤ 262144) }
    ensures { ProgramDid text.now pool.now table.now cells root out.old out.new result }
{
    let mut env = [0u32; 64];
    walk::unwind(
        listed(text, pool, table),
        &mut env[..cells],
        node_at(pool, root).child(2),
        out,
        0,
        0,
    )
}

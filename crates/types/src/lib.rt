// The type of every expression, and refusal 6: the soonest of its faults.
#![tactic(auto)]

ghost use Rattle.std.specs.Prelude.{◌≡◌, ◌+◌, ◌*◌, ◌≤◌, length};
ghost use Rattle.faults.specs.Soonest.{soonest};
ghost use Rattle.types.specs.Statements.{faults_at};

use crate::body::statements;
use crate::declared::declarations;
use tree::node::node_at;
use variables::listed::listed;

mod body;
mod declared;
mod numbers;
mod parts;

// The program at the node `root`, with the variables of the table; `loops` is scratch.
pub fn first_bad_type(
    text: &[u8],
    pool: &[u16],
    table: &[u16],
    root: usize,
    loops: &mut [u16],
) -> Option<usize>
    requires { (4 * root + 4 ≤ length pool.now) × (root ≤ length loops.old) }
    ensures { (result ≡ soonest (faults_at text.now pool.now table.now root)) × (length loops.new ≡ length loops.old) }
{
    let program = node_at(pool, root);
    let x = declarations(program.child(1), None);
    statements(listed(text, pool, table), loops, 0, program.child(2), x)
}

// Declared names, their table, and refusal 5.
#![tactic(auto)]

ghost use Rattle.std.specs.Prelude.{◌+◌, ◌*◌, ◌≤◌, length};
ghost use Rattle.names.specs.Judged.{Judged};

use declared::Seen;
use tree::node::node_at;
use variables::listed::listed;

mod body;
mod declared;
mod table;

// The place of the soonest fault, None where there is none; how many variables the table has, and their cells, modulo 65536.
#[derive(Clone, Copy)]
pub struct Named {
    pub first: Option<usize>,
    pub count: usize,
    pub cells: u16,
}

// Refusal 5 of the program at `root`, and the table of its variables. `scratch` serves for the names seen, then for the FORs around.
pub fn first_bad_name(
    text: &[u8],
    pool: &[u16],
    root: usize,
    table: &mut [u16],
    scratch: &mut [u16],
) -> Named
    requires { (4 * root + 4 ≤ length pool.now) × (root ≤ length scratch.old) }
    ensures { Judged text.now pool.now table.old table.new (length scratch.old) root result }
{
    let program = node_at(pool, root);
    let declared = program.child(1);
    let filled = table::fill(text, declared, table);
    let count = filled.count;
    let none = Seen {
        count: 0,
        cells: 0,
        best: None,
    };
    let seen = declared::declarations(text, declared, scratch, none);
    let end = 4 * count;
    let vars = listed(text, pool, &table[..end]);
    let first = body::statements(vars, scratch, 0, program.child(2), seen.best);
    Named {
        first,
        count,
        cells: filled.cells,
    }
}

// ST0 as text, byte for byte as document 01 says. A place beyond the buffer is counted and not written.
#![tactic(auto)]

pub mod body;
pub mod bytes;
pub mod declared;
pub mod index;

ghost use Rattle.std.specs.Prelude.{◌++◌, ◌+◌, ◌*◌, ◌/◌, ◌≤◌, length};
ghost use Rattle.paper.specs.Printing as P;
ghost use Rattle.tree.specs.Trees.{name_at};
ghost use Rattle.plain.specs.Flat.{list_at};
ghost use Rattle.variables.specs.Table.{entries, listed_in};
ghost use Rattle.print.specs.Printed.{Printed};

use index::Names;
use tree::node::node_at;
use variables::listed::listed;
use words::name_of;

// The program whose name stands at the place `name` of the text, from the buffer's first byte on: the number of its bytes.
pub fn print(
    text: &[u8],
    pool: &[u16],
    table: &[u16],
    plain: &[u16],
    name: usize,
    root: usize,
    out: &mut [u8],
) -> usize
    requires { (4 ≤ length pool.now) × (4 * root + 4 ≤ length plain.now) }
    ensures { Printed out.old out.new 0 (λ k. P.print (name_at text.now name) (entries text.now pool.now table.now (length table.now / 4)) (listed_in text.now pool.now table.now) (list_at plain.now root) ++ k) result }
{
    let a = bytes::put(out, 0, b"PROGRAM ");
    let b = bytes::capitals(out, a, name_of(text, name));
    let c = bytes::put(out, b, b"\n");
    let variables = listed(text, pool, table);
    let d = declared::sections(variables, out, c);
    let index = index::indexed(variables);
    let names = Names {
        variables,
        index: &index,
    };
    let e = body::list(names, node_at(plain, root), out, d);
    bytes::put(out, e, b"END_PROGRAM\n")
}

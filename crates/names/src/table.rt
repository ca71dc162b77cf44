// The table of variables, in printed order: four words each, the place of its name, the node of its declaration, its first cell, its name's key.
ghost use Rattle.std.specs.Prelude.{◌≡◌, ◌/◌, ◌≤◌, length};
ghost use Rattle.tree.specs.Nodes.{child_of};
ghost use Rattle.names.specs.Fills.{Adds, FillsNames, FillsKind, FillsAll};

use paper::Kind;
use tree::node::Node;
use tree::put;
use variables::declared::{section_of, size_of};
use variables::key_of;

// How many variables the table has, and how many cells they have, modulo 65536.
#[derive(Clone, Copy)]
pub struct Filled {
    pub count: usize,
    pub cells: u16,
}

// One variable more, where there is room.
fn add(text: &[u8], table: &mut [u16], f: Filled, place: u16, number: u16, size: usize) -> Filled
    ensures { Adds text.now table.old table.new place number size f result }
{
    if table.len() / 4 <= f.count {
        return f;
    }
    let key = key_of(text, place);
    put(table, f.count, place, number, f.cells, key);
    let cells = (((f.cells as usize) + size % 65536) % 65536) as u16;
    Filled {
        count: f.count + 1,
        cells,
    }
}

// The names from the node `n` on, of the declaration with a number; each variable has `size` cells.
fn add_names(text: &[u8], n: Node, number: u16, size: usize, table: &mut [u16], f: Filled) -> Filled
    requires { f.count ≤ length table.old / 4 }
    ensures { (result.count ≤ length table.old / 4)
        × FillsNames text.now n.entry.pool.now table.old table.new n.entry.at number size f result }
{
    if n.at == 0 {
        return f;
    }
    let g = add_names(text, n.child(1), number, size, table, f);
    add(text, table, g, n.place(), number, size)
}

// The number of the declaration at a node of declarations.
fn number_of(n: Node) -> u16
    ensures { result ≡ child_of n.entry.pool.now n.entry.at 2 }
{
    let w = n.word(2);
    if (w as usize) < n.at { w } else { 0 }
}

// The declarations of one kind of section, from the node `n` on.
fn add_kind(text: &[u8], n: Node, section: Kind, table: &mut [u16], f: Filled) -> Filled
    requires { f.count ≤ length table.old / 4 }
    ensures { (result.count ≤ length table.old / 4) × FillsKind text.now n.entry.pool.now table.old table.new n.entry.at section f result }
{
    if n.at == 0 {
        return f;
    }
    let g = add_kind(text, n.child(1), section, table, f);
    let declaration = n.child(2);
    if section_of(declaration) == section {
        let size = size_of(declaration);
        return add_names(text, declaration.child(1), number_of(n), size, table, g);
    }
    g
}

// All variables, inputs first, then outputs, then the others.
pub fn fill(text: &[u8], n: Node, table: &mut [u16]) -> Filled
    ensures { (result.count ≤ length table.old / 4) × FillsAll text.now n.entry.pool.now table.old table.new n.entry.at result }
{
    let none = Filled { count: 0, cells: 0 };
    let inputs = add_kind(text, n, Kind::Input, table, none);
    let outputs = add_kind(text, n, Kind::Output, table, inputs);
    add_kind(text, n, Kind::Other, table, outputs)
}

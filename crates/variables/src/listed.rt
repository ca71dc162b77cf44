// The variables that a table lists, with the text that names them and the pool that declares them.
ghost use Rattle.std.specs.Prelude.{◌≡◌, ◌/◌, ◌<◌, ◌≤◌, length};
ghost use Rattle.tree.specs.Nodes.{word_of};
ghost use Rattle.variables.specs.Table.{node_in, Seeks};

use crate::key_from;
use tree::node::Node;
use tree::word;
use words::{name_of, same_name};

#[derive(Clone, Copy)]
pub struct Variables<'a> {
    pub text: &'a [u8],
    pub pool: &'a [u16],
    pub table: &'a [u16],
    pub ghost nil: { 4 ≤ length pool.now },
}

// The variables of a table.
pub fn listed<'a>(text: &'a [u8], pool: &'a [u16], table: &'a [u16]) -> Variables<'a>
    requires { 4 ≤ length pool.now }
    ensures { (result.text ≡ text.entry) × (result.pool ≡ pool.entry) × (result.table ≡ table.entry) }
{
    Variables { text, pool, table }
}

// The number of the variable of a name in a table, if there is one. The text is looked at only where the keys agree.
pub fn find(text: &[u8], table: &[u16], place: u16) -> Option<usize>
    ensures { Seeks text.now table.now place result }
{
    let name = name_of(text, place as usize);
    let key = key_from(name);
    for v in 0..table.len() / 4 {
        if word(table, v, 3) == key
            && same_name(text, place as usize, name.len(), word(table, v, 0) as usize)
        {
            return Some(v);
        }
    }
    None
}

// The node of the declaration of the variable `v` of a table; nil where the pool has none of that number.
pub fn declaration_in<'a>(pool: &'a [u16], table: &[u16], v: usize) -> Node<'a>
    requires { (v < length table.now / 4) × (4 ≤ length pool.now) }
    ensures { (result.pool ≡ pool.entry) × (result.at ≡ node_in pool.now (word_of table.now v 1)) }
{
    let j = word(table, v, 1) as usize;
    Node {
        pool,
        at: if 4 * j + 4 <= pool.len() { j } else { 0 },
    }
}

impl<'a> Variables<'a> {
    // How many there are.
    pub fn count(self) -> usize
        ensures { result ≡ length self.entry.table.now / 4 }
    {
        self.table.len() / 4
    }

    // The place of the name of the variable `v`.
    pub fn place(self, v: usize) -> u16
        requires { v < length self.table.now / 4 }
        ensures { result ≡ word_of self.entry.table.now v 0 }
    {
        word(self.table, v, 0)
    }

    // The node of its declaration.
    pub fn declaration(self, v: usize) -> Node<'a>
        requires { v < length self.table.now / 4 }
        ensures { (result.pool ≡ self.entry.pool) × (result.at ≡ node_in self.entry.pool.now (word_of self.entry.table.now v 1)) }
    {
        declaration_in(self.pool, self.table, v)
    }

    // Its first cell.
    pub fn first_cell(self, v: usize) -> u16
        requires { v < length self.table.now / 4 }
        ensures { result ≡ word_of self.entry.table.now v 2 }
    {
        word(self.table, v, 2)
    }

    // The key of its name.
    pub fn key(self, v: usize) -> u16
        requires { v < length self.table.now / 4 }
        ensures { result ≡ word_of self.entry.table.now v 3 }
    {
        word(self.table, v, 3)
    }

    // The number of the variable of a name, if there is one.
    pub fn find(self, place: u16) -> Option<usize>
        ensures { Seeks self.entry.text.now self.entry.table.now place result }
    {
        find(self.text, self.table, place)
    }
}

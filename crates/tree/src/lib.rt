// The flat tree that reading leaves in a lent pool: four words a node, children before parents, node 0 nil.
#![tactic(auto)]

pub mod kinds;
pub mod node;

ghost use Rattle.std.specs.Prelude.{◌≡◌, ◌+◌, ◌*◌, ◌<◌, ◌≤◌, length};
ghost use Rattle.tree.specs.Nodes.{word_of, kind_of, child_of, written};

// Writes the node `n`.
pub fn put(pool: &mut [u16], n: usize, kind: u16, a: u16, b: u16, c: u16)
    requires { 4 * n + 4 ≤ length pool.old }
    ensures { pool.new ≡ written pool.old n kind a b c }
{
    let i = 4 * n;
    pool[i] = kind;
    pool[i + 1] = a;
    pool[i + 2] = b;
    pool[i + 3] = c;
}

// The word `k` of the node `i`.
pub fn word(pool: &[u16], i: usize, k: usize) -> u16
    requires { (4 * i + 4 ≤ length pool.now) × (k < 4) }
    ensures { result ≡ word_of pool.now i k }
{
    pool[4 * i + k]
}

// The same as an earlier node, and nil where it is none.
pub fn child(pool: &[u16], i: usize, k: usize) -> usize
    requires { (4 * i + 4 ≤ length pool.now) × (k < 4) }
    ensures { result ≡ child_of pool.now i k }
{
    let w = word(pool, i, k) as usize;
    if w < i { w } else { 0 }
}

// The kind of a node, 0 of nil.
pub fn kind(pool: &[u16], i: usize) -> u16
    requires { 4 * i + 4 ≤ length pool.now }
    ensures { result ≡ kind_of pool.now i }
{
    if i == 0 { 0 } else { word(pool, i, 0) }
}

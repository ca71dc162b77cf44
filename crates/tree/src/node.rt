// A node of the flat tree, held together with the pool that it lies in.
ghost use Rattle.std.specs.Prelude.{◌≡◌, ◌+◌, ◌*◌, ◌<◌, ◌≤◌, length};
ghost use Rattle.tree.specs.Nodes.{word_of, kind_of, child_of};
ghost use Rattle.tree.specs.Trees.{place_at, wide, whole_at};

#[derive(Clone, Copy)]
pub struct Node<'a> {
    pub pool: &'a [u16],
    pub at: usize,
    pub ghost inside: { 4 * at + 4 ≤ length pool.now },
}

// The node `at` of a pool.
pub fn node_at<'a>(pool: &'a [u16], at: usize) -> Node<'a>
    requires { 4 * at + 4 ≤ length pool.now }
    ensures { (result.pool ≡ pool.entry) × (result.at ≡ at) }
{
    Node { pool, at }
}

impl<'a> Node<'a> {
    // The word `k` of the node.
    pub fn word(self, k: usize) -> u16
        requires { k < 4 }
        ensures { result ≡ word_of self.entry.pool.now self.entry.at k }
    {
        self.pool[4 * self.at + k]
    }

    // The same as an earlier node, and nil where it is none.
    pub fn child(self, k: usize) -> Node<'a>
        requires { k < 4 }
        ensures { (result.pool ≡ self.entry.pool) × (result.at ≡ child_of self.entry.pool.now self.entry.at k) }
    {
        let w = self.word(k) as usize;
        Node {
            pool: self.pool,
            at: if w < self.at { w } else { 0 },
        }
    }

    // Its place in the text.
    pub fn place(self) -> u16
        ensures { result ≡ place_at self.entry.pool.now self.entry.at }
    {
        self.word(3)
    }

    // The kind; nil has none.
    pub fn kind(self) -> u16
        ensures { result ≡ kind_of self.entry.pool.now self.entry.at }
    {
        if self.at == 0 { 0 } else { self.word(0) }
    }

    // The number in two words of the node.
    pub fn wide(self) -> u32
        ensures { result ≡ wide self.entry.pool.now self.entry.at }
    {
        self.word(1) as u32 + 65536 * self.word(2) as u32
    }

    // The same with its minus, if the kind says so.
    pub fn whole(self) -> i64
        ensures { result ≡ whole_at self.entry.pool.now self.entry.at }
    {
        let n = self.wide() as i64;
        if self.word(0) == 2 { -n } else { n }
    }
}

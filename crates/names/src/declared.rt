// Refusal 5 of declarations: a name again, bounds the wrong way round, a 65th cell; in the order of the text.
ghost use Rattle.std.specs.Prelude.{◌≡◌, ◌+◌, ◌≤◌, ◌<◌, min, length};
ghost use Rattle.paper.specs.Names.{at};
ghost use Rattle.names.specs.Walks.{after};
ghost use Rattle.names.specs.Declares.{bad_name, DeclaresName, DeclaresNames, DeclaresAll};

use faults::matters;
use tree::node::Node;
use variables::among;
use variables::declared::size_of;

// Names seen so far, their cells (65 stands for more than 64) and the soonest fault.
#[derive(Clone, Copy)]
pub struct Seen {
    pub count: usize,
    pub cells: usize,
    pub best: Option<usize>,
}

// So many cells more; 65 stands for more than 64.
fn more_cells(cells: usize, size: usize) -> usize
    ensures { result ≡ min 65 (cells + size) }
{
    cells.saturating_add(size).min(65)
}

// Whether a name may not be declared, whose variable has `size` cells, the last of `cells`, after the names `seen`.
fn is_bad_name(text: &[u8], seen: &[u16], place: u16, size: usize, cells: usize) -> bool
    ensures { result ≡ bad_name text.now seen.now (length seen.now) place size cells }
{
    among(text, seen, place) || size == 0 || 64 < cells
}

// The soonest fault with that of such a name.
#[tactic(auto, using(crate::proofs::After::after_at))]
fn judged(
    text: &[u8],
    seen: &[u16],
    place: u16,
    size: usize,
    cells: usize,
    best: Option<usize>,
) -> Option<usize>
    ensures { result ≡ after best (at place (bad_name text.now seen.now (length seen.now) place size cells)) }
{
    if matters(best, place) && is_bad_name(text, seen, place, size, cells) {
        return Some(place as usize);
    }
    best
}

// One name more, of a variable with `size` cells.
#[tactic(auto, using(crate::proofs::Declaring::bad_part))]
fn declare(text: &[u8], seen: &mut [u16], s: Seen, place: u16, size: usize) -> Seen
    requires { s.count ≤ length seen.old }
    ensures { (result.count ≤ length seen.old) × (s.count < length seen.old → DeclaresName text.now seen.old seen.new place size s result) }
{
    let n = s.count;
    let cells = more_cells(s.cells, size);
    let best = judged(text, &seen[..n], place, size, cells, s.best);
    if n < seen.len() {
        seen[n] = place;
        return Seen {
            count: n + 1,
            cells,
            best,
        };
    }
    Seen { cells, best, ..s }
}

// The names of one declaration, from the node `n` on.
fn names(text: &[u8], n: Node, size: usize, seen: &mut [u16], s: Seen) -> Seen
    requires { s.count ≤ length seen.old }
    ensures { (result.count ≤ length seen.old) × DeclaresNames text.now n.entry.pool.now seen.old seen.new n.entry.at size s result }
{
    if n.at == 0 {
        return s;
    }
    let r = names(text, n.child(1), size, seen, s);
    declare(text, seen, r, n.place(), size)
}

// All declarations, from the node `n` on.
pub fn declarations(text: &[u8], n: Node, seen: &mut [u16], s: Seen) -> Seen
    requires { s.count ≤ length seen.old }
    ensures { (result.count ≤ length seen.old) × DeclaresAll text.now n.entry.pool.now seen.old seen.new n.entry.at s result }
{
    if n.at == 0 {
        return s;
    }
    let r = declarations(text, n.child(1), seen, s);
    let declaration = n.child(2);
    let size = size_of(declaration);
    names(text, declaration.child(1), size, seen, r)
}

// The sections, in printed order.
ghost use Rattle.std.specs.Prelude.{◌≡◌, [], ◌∷◌, ◌++◌, ◌/◌, ◌<◌, length};
ghost use Rattle.paper.specs.Words.{type_name};
ghost use Rattle.paper.specs.Names.{of_kind};
ghost use Rattle.paper.specs.Source.{nothing};
ghost use Rattle.paper.specs.Printing as P;
ghost use Rattle.tree.specs.Trees.{initial_at, whole_at};
ghost use Rattle.variables.specs.Table.{name_in, entry_at, entries};
ghost use Rattle.print.specs.Printed.{Printed};
ghost use Rattle.print.specs.Parts.{of_section, is_of, Counts, typing, array_of, headed};

use crate::bytes::{capitals, natural, put, truth, type_name, whole};
use paper::{Kind, Ty};
use tree::kinds::Initial;
use tree::node::Node;
use tree::word;
use variables::declared::{bounds_of, is_array, section_of, type_of};
use variables::key_of;
use variables::listed::Variables;
use words::name_of;

// The number of a node.
pub fn number(n: Node, out: &mut [u8], at: usize) -> usize
    ensures { Printed out.old out.new at (P.whole (whole_at n.entry.pool.now n.entry.at)) result }
{
    whole(out, at, n.word(0) == 2, n.wide())
}

// What stands for no declared value.
fn zero(out: &mut [u8], at: usize, t: Ty) -> usize
    ensures { Printed out.old out.new at (P.initial_of t nothing) result }
{
    if t == Ty::Bool {
        truth(out, at, false)
    } else {
        put(out, at, b"0")
    }
}

// The declared value, or what stands for none.
fn initial(n: Node, t: Ty, out: &mut [u8], at: usize) -> usize
    ensures { Printed out.old out.new at (P.initial_of t (initial_at n.entry.pool.now n.entry.at)) result }
{
    match n.initial() {
        Initial::Value => number(n.child(1), out, at),
        Initial::Flag(b) => truth(out, at, b),
        Initial::Nothing => zero(out, at, t),
    }
}

// An array by the node of its bounds.
fn array(bounds: Node, t: Ty, out: &mut [u8], at: usize) -> usize
    ensures { Printed out.old out.new at (array_of bounds.entry.pool.now bounds.entry.at t) result }
{
    let x = put(out, at, b"ARRAY[");
    let y = natural(out, x, bounds.child(1).wide() as u64);
    let z = put(out, y, b"..");
    let w = natural(out, z, bounds.child(2).wide() as u64);
    let v = put(out, w, b"] OF ");
    let u = type_name(out, v, t);
    put(out, u, b";\n")
}

fn unvalued(t: Ty, out: &mut [u8], at: usize) -> usize
    ensures { Printed out.old out.new at (λ k. type_name t ++ P.line ";" k) result }
{
    let a = type_name(out, at, t);
    put(out, a, b";\n")
}

fn valued(n: Node, t: Ty, out: &mut [u8], at: usize) -> usize
    ensures { Printed out.old out.new at (λ k. type_name t ++ P.put " := " (P.initial_of t (initial_at n.entry.pool.now n.entry.at) (P.line ";" k))) result }
{
    let a = type_name(out, at, t);
    let b = put(out, a, b" := ");
    let c = initial(n, t, out, b);
    put(out, c, b";\n")
}

// The type of a declaration, and its value where it may have one. An array of outputs has no print.
fn typed(n: Node, out: &mut [u8], at: usize) -> usize
    ensures { Printed out.old out.new at (typing n.entry.pool.now n.entry.at) result }
{
    let t = type_of(n);
    let section = section_of(n);
    if section == Kind::Input {
        unvalued(t, out, at)
    } else if !is_array(n) {
        valued(n.child(2).child(2), t, out, at)
    } else if section == Kind::Output {
        at
    } else {
        array(bounds_of(n), t, out, at)
    }
}

// Whether the variable `v` is of a section.
fn is_of(vars: Variables, section: Kind, v: usize) -> bool
    requires { v < length vars.table.now / 4 }
    ensures { result ≡ is_of vars.entry.pool.now vars.entry.table.now section v }
{
    section == section_of(vars.declaration(v))
}

// How many variables are of a section.
fn count(vars: Variables, section: Kind) -> usize
    ensures { Counts vars.entry.pool.now vars.entry.table.now section (length vars.entry.table.now / 4) result }
{
    let mut k = 0;
    for v in 0..vars.count() {
        k += usize::from(is_of(vars, section, v));
    }
    k
}

// The name of the variable `v`; `?` where its key is another's.
pub fn named(text: &[u8], table: &[u16], v: usize, out: &mut [u8], at: usize) -> usize
    requires { v < length table.now / 4 }
    ensures { Printed out.old out.new at (λ k. name_in text.now table.now v ++ k) result }
{
    let place = word(table, v, 0);
    if word(table, v, 3) == key_of(text, place) {
        return capitals(out, at, name_of(text, place as usize));
    }
    put(out, at, b"?")
}

// The variable `v`, if it is of the section.
fn variable(vars: Variables, section: Kind, v: usize, out: &mut [u8], at: usize) -> usize
    requires { v < length vars.table.now / 4 }
    ensures { Printed out.old out.new at (P.declarations (of_kind section (entry_at vars.entry.text.now vars.entry.pool.now vars.entry.table.now v ∷ []))) result }
{
    if is_of(vars, section, v) {
        let a = named(vars.text, vars.table, v, out, at);
        let b = put(out, a, b" : ");
        return typed(vars.declaration(v), out, b);
    }
    at
}

// The variables of a section.
fn listed(vars: Variables, section: Kind, out: &mut [u8], at: usize) -> usize
    ensures { Printed out.old out.new at (P.declarations (of_section vars.entry.text.now vars.entry.pool.now vars.entry.table.now section (length vars.entry.table.now / 4))) result }
{
    let mut a = at;
    for v in 0..vars.count() {
        a = variable(vars, section, v, out, a);
    }
    a
}

// A section with its first line; one without variables has no print.
fn headed(vars: Variables, section: Kind, head: &[u8], out: &mut [u8], at: usize) -> usize
    ensures { Printed out.old out.new at (headed head.now (of_section vars.entry.text.now vars.entry.pool.now vars.entry.table.now section (length vars.entry.table.now / 4))) result }
{
    if count(vars, section) == 0 {
        return at;
    }
    let a = put(out, at, head);
    let b = listed(vars, section, out, a);
    put(out, b, b"END_VAR\n")
}

pub fn sections(vars: Variables, out: &mut [u8], at: usize) -> usize
    ensures { Printed out.old out.new at (P.sections (entries vars.entry.text.now vars.entry.pool.now vars.entry.table.now (length vars.entry.table.now / 4))) result }
{
    let a = headed(vars, Kind::Input, b"VAR_INPUT\n", out, at);
    let b = headed(vars, Kind::Output, b"VAR_OUTPUT\n", out, a);
    headed(vars, Kind::Other, b"VAR\n", out, b)
}

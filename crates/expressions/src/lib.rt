// Expressions read into the flat tree: refusals 3 and 4, or the expression's node. Operands and operators, brackets and subscripts
// call each other; what is left of the text falls.
#![tactic(auto)]

ghost use Rattle.std.specs.Prelude.{◌≡◌, ◌+◌, ◌*◌, ◌%◌, ◌/◌, ◌<◌, ◌≤◌, length};
ghost use Rattle.paper.specs.declared.Why.TheVariants.{BadShape, TooDeep};
ghost use Rattle.paper.specs.Refusals.{refusal};
ghost use Rattle.words.specs.Denoted.{IsWord};
ghost use Rattle.tree.specs.Nodes.{written};
ghost use Rattle.expressions.specs.Reads.{Room, ExpectDid, ExpectedDid, OperandDid, SignedDid, PrimaryDid, WrappedDid, BracketedDid, NamedDid, ExpressionDid, JoinedDid};

pub mod classes;

use classes::{
    FALSE, MINUS, NOT, ROUND, ROUND_END, SQUARE, SQUARE_END, TRUE, conversion, level, operator,
};
use paper::{Refusal, Why};
use tree::put;
use words::{NAME, NUMBER, Word, next_word};

// What was read: the place behind it, the last node and the root.
#[derive(Clone, Copy)]
pub struct Parsed {
    pub at: usize,
    pub count: usize,
    pub root: usize,
}

// Refusal 3.
pub fn broken(at: usize) -> Refusal
    ensures { result ≡ refusal BadShape at }
{
    Refusal {
        why: Why::BadShape,
        place: at,
    }
}

// Refusal 4.
pub fn too_deep(at: usize) -> Refusal
    ensures { result ≡ refusal TooDeep at }
{
    Refusal {
        why: Why::TooDeep,
        place: at,
    }
}

// The place behind the word of a class, which must come next.
pub fn expect(text: &[u8], at: usize, class: u8) -> Result<usize, Refusal>
    requires { (length text.now ≤ 8192) × (at ≤ length text.now) }
    ensures { ExpectDid text.now at class result }
{
    expected(next_word(text, at), class)
}

// The place behind the word `w`, which must be of a class.
pub fn expected(w: Word, class: u8) -> Result<usize, Refusal>
    ensures { ExpectedDid w class result }
{
    if w.class == class {
        Ok(w.end)
    } else {
        Err(broken(w.at))
    }
}

// A node behind the last of a pool, of a kind and three words; `at` is the place behind the words that it stands for.
pub fn node(
    pool: &mut [u16],
    at: usize,
    count: usize,
    kind: u16,
    a: usize,
    b: usize,
    c: usize,
) -> Parsed
    requires room { 4 * (count + 1) + 4 ≤ length pool.old }
    requires first { a < 65536 }
    requires second { b < 65536 }
    requires third { c < 65536 }
    ensures written { pool.new ≡ written pool.old (count + 1) kind a b c }
    ensures read { result ≡ record { at = at; count = count + 1; root = count + 1 } }
{
    put(pool, count + 1, kind, a as u16, b as u16, c as u16);
    Parsed {
        at,
        count: count + 1,
        root: count + 1,
    }
}

// The node of a number at `place`, its value in two words: kind 1, or 2 for one below 0.
pub fn number_node(
    pool: &mut [u16],
    at: usize,
    count: usize,
    kind: u16,
    value: u32,
    place: usize,
) -> Parsed
    requires room { 4 * (count + 1) + 4 ≤ length pool.old }
    requires place { place < 65536 }
    ensures written { pool.new ≡ written pool.old (count + 1) kind (value % 65536) (value / 65536) place }
    ensures read { result ≡ record { at = at; count = count + 1; root = count + 1 } }
{
    let low = (value % 65536) as usize;
    let high = (value / 65536) as usize;
    node(pool, at, count, kind, low, high, place)
}

// An operand: at most one unary sign; a minus before a number makes it negative.
#[cycle(reading)]
pub fn operand(
    text: &[u8],
    at: usize,
    nest: usize,
    pool: &mut [u16],
    count: usize,
) -> Result<Parsed, Refusal>
    requires { Room text.now pool.old at count }
    ensures { OperandDid text.now pool.old pool.new at nest count result }
{
    let w = next_word(text, at);
    match w.class {
        MINUS => {
            let v = next_word(text, w.end);
            if v.class == NUMBER {
                return Ok(number_node(pool, v.end, count, 2, v.value, w.at));
            }
            signed(text, w.end, v, nest, pool, count, 7, w.at)
        }
        NOT => {
            let v = next_word(text, w.end);
            signed(text, w.end, v, nest, pool, count, 8, w.at)
        }
        _ => primary(text, at, w, nest, pool, count),
    }
}

// What a unary sign at `place` stands before; its first word is `w`.
#[cycle(reading)]
fn signed(
    text: &[u8],
    at: usize,
    w: Word,
    nest: usize,
    pool: &mut [u16],
    count: usize,
    kind: u16,
    place: usize,
) -> Result<Parsed, Refusal>
    requires { Room text.now pool.old at (count + 1) × IsWord text.now at w × (place < at) × (7 ≤ kind) × (kind ≤ 8) }
    ensures { SignedDid text.now pool.old pool.new at nest count kind place result }
{
    let r = primary(text, at, w, nest, pool, count)?;
    Ok(node(pool, r.at, r.count, kind, r.root, 0, place))
}

// A number, a truth value, a name with or without subscript, a conversion, brackets; `w` is its first word.
#[cycle(reading)]
pub fn primary(
    text: &[u8],
    at: usize,
    w: Word,
    nest: usize,
    pool: &mut [u16],
    count: usize,
) -> Result<Parsed, Refusal>
    requires { Room text.now pool.old at count × IsWord text.now at w }
    ensures { PrimaryDid text.now pool.old pool.new at nest count result }
{
    match w.class {
        NAME => named(text, w.at, w.end, nest, pool, count),
        NUMBER => Ok(number_node(pool, w.end, count, 1, w.value, w.at)),
        TRUE => Ok(node(pool, w.end, count, 4, 0, 0, w.at)),
        FALSE => Ok(node(pool, w.end, count, 3, 0, 0, w.at)),
        _ => match conversion(w.class) {
            Some(c) => {
                let v = next_word(text, w.end);
                wrapped(text, w.end, v, nest, pool, count, 10, c, w.at)
            }
            None => wrapped(text, at, w, nest, pool, count, 9, 0, w.at),
        },
    }
}

// Brackets that begin with `w`, or a conversion's, under a node of their own at `place`.
#[cycle(reading)]
fn wrapped(
    text: &[u8],
    at: usize,
    w: Word,
    nest: usize,
    pool: &mut [u16],
    count: usize,
    kind: u16,
    b: u16,
    place: usize,
) -> Result<Parsed, Refusal>
    requires { Room text.now pool.old at count × IsWord text.now at w × (place < 65536) × (9 ≤ kind) × (kind ≤ 10) }
    ensures { WrappedDid text.now pool.old pool.new at nest count kind b place result }
{
    let r = bracketed(text, at, w, nest, pool, count)?;
    Ok(node(pool, r.at, r.count, kind, r.root, b as usize, place))
}

// ( expression ), if the word `w` opens it.
#[cycle(reading)]
fn bracketed(
    text: &[u8],
    at: usize,
    w: Word,
    nest: usize,
    pool: &mut [u16],
    count: usize,
) -> Result<Parsed, Refusal>
    requires { Room text.now pool.old at count × IsWord text.now at w }
    ensures { BracketedDid text.now pool.old pool.new at nest count result }
{
    if w.class != ROUND {
        return Err(broken(w.at));
    }
    if 64 <= nest {
        return Err(too_deep(w.at));
    }
    let r = expression(text, w.end, 1, nest + 1, pool, count)?;
    let end = expect(text, r.at, ROUND_END)?;
    Ok(Parsed { at: end, ..r })
}

// A name that stands from `place` to `end`, with one subscript or none.
#[cycle(reading)]
fn named(
    text: &[u8],
    place: usize,
    end: usize,
    nest: usize,
    pool: &mut [u16],
    count: usize,
) -> Result<Parsed, Refusal>
    requires { Room text.now pool.old end (count + 1) × (place < end) }
    ensures { NamedDid text.now pool.old pool.new end place nest count result }
{
    let w = next_word(text, end);
    if w.class != SQUARE {
        return Ok(node(pool, end, count, 5, 0, 0, place));
    }
    if 64 <= nest {
        return Err(too_deep(w.at));
    }
    let r = expression(text, w.end, 1, nest + 1, pool, count)?;
    let behind = expect(text, r.at, SQUARE_END)?;
    Ok(node(pool, behind, r.count, 6, r.root, w.at, place))
}

// Operands joined by operators that bind at least as tightly as `least`.
#[cycle(reading)]
pub fn expression(
    text: &[u8],
    at: usize,
    least: u8,
    nest: usize,
    pool: &mut [u16],
    count: usize,
) -> Result<Parsed, Refusal>
    requires { Room text.now pool.old at count × (0 < least) }
    ensures { ExpressionDid text.now pool.old pool.new at least nest count result }
{
    let r = operand(text, at, nest, pool, count)?;
    joined(text, r, least, nest, pool)
}

// The operand `first` with what follows it; equal operators group to the left. A loop, so that a long chain takes no more stack.
#[cycle(reading)]
fn joined(
    text: &[u8],
    first: Parsed,
    least: u8,
    nest: usize,
    pool: &mut [u16],
) -> Result<Parsed, Refusal>
    requires { Room text.now pool.old first.at first.count × (0 < least) × (first.root ≤ first.count) }
    ensures { JoinedDid text.now pool.old pool.new first.at least nest first.count first.root result }
{
    let mut left = first;
    loop {
        let w = next_word(text, left.at);
        let Some(o) = operator(w.class) else {
            return Ok(left);
        };
        let l = level(Some(o));
        if l < least {
            return Ok(left);
        }
        let r = expression(text, w.end, l + 1, nest, pool, left.count)?;
        left = node(
            pool,
            r.at,
            r.count,
            11 + (o as u16),
            left.root,
            r.root,
            w.at,
        );
    }
}

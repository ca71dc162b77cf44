// Declarations, and the whole program, read into the flat tree.
#![tactic(auto)]

ghost use Rattle.std.specs.Prelude.{◌≡◌, ◌+◌, ◌*◌, ◌<◌, ◌≤◌, length};
ghost use Rattle.paper.specs.Source.{single};
ghost use Rattle.paper.specs.Reading as R;
ghost use Rattle.expressions.specs.Reads.{Room};
ghost use Rattle.reader.specs.Declarations.{NumberDid, NamesDid, IsSection, BoundsPartDid, ArrayBoundsDid, ArrayEndDid, InitialPartDid, InitialDid, TypingDid, DeclarationDid, SectionDid, SectionsDid, BodyDid, ProgramDid};

use expressions::classes::{
    ARRAY, BECOMES, COLON, COMMA, END_PROGRAM, END_VAR, FALSE, OF, PROGRAM, RANGE, SEMICOLON,
    SQUARE, SQUARE_END, TRUE, VAR, VAR_INPUT, VAR_OUTPUT, type_named,
};
use expressions::{Parsed, broken, expect, node, number_node};
use paper::{Kind, Refusal};
use statements::{list, signed_number};
use words::{ENDING, NAME, NUMBER, next_word};

// A number without minus.
fn number(text: &[u8], at: usize, pool: &mut [u16], count: usize) -> Result<Parsed, Refusal>
    requires { Room text.now pool.old at count }
    ensures { NumberDid text.now pool.old pool.new at count result }
{
    let w = next_word(text, at);
    if w.class != NUMBER {
        return Err(broken(w.at));
    }
    Ok(number_node(pool, w.end, count, 1, w.value, w.at))
}

// Names parted by commas.
fn names(text: &[u8], at: usize, pool: &mut [u16], count: usize) -> Result<Parsed, Refusal>
    requires { Room text.now pool.old at count }
    ensures { NamesDid text.now pool.old pool.new at count 0 result }
{
    let mut read = Parsed { at, count, root: 0 };
    loop {
        let w = next_word(text, read.at);
        if w.class != NAME {
            return Err(broken(w.at));
        }
        let n = node(pool, w.end, read.count, 33, read.root, 0, w.at);
        let c = next_word(text, w.end);
        if c.class != COMMA {
            return Ok(n);
        }
        read = Parsed { at: c.end, ..n };
    }
}

// The kind of section that a word of the class begins.
fn section_kind(class: u8) -> Option<Kind>
    ensures { IsSection class result }
{
    match class {
        VAR_INPUT => Some(Kind::Input),
        VAR_OUTPUT => Some(Kind::Output),
        VAR => Some(Kind::Other),
        _ => None,
    }
}

// Whether a section of the kind may hold arrays.
fn holds_arrays(kind: Kind) -> bool
    ensures { result ≡ R.holds_arrays kind }
{
    matches!(kind, Kind::Other)
}

// Whether values may be declared there, of names that are no arrays.
fn holds_values(kind: Kind) -> bool
    ensures { result ≡ R.holds_values kind single }
{
    !matches!(kind, Kind::Input)
}

// An array's bounds, if they come next; nil if not.
fn bounds_part(
    text: &[u8],
    at: usize,
    kind: Kind,
    pool: &mut [u16],
    count: usize,
) -> Result<Parsed, Refusal>
    requires { Room text.now pool.old at count }
    ensures { BoundsPartDid text.now pool.old pool.new at kind count result }
{
    let w = next_word(text, at);
    if holds_arrays(kind) && w.class == ARRAY {
        return array_bounds(text, w.end, pool, count);
    }
    Ok(Parsed { at, count, root: 0 })
}

// [lo..hi] OF, behind ARRAY.
fn array_bounds(text: &[u8], at: usize, pool: &mut [u16], count: usize) -> Result<Parsed, Refusal>
    requires { Room text.now pool.old at count }
    ensures { ArrayBoundsDid text.now pool.old pool.new at count result }
{
    let open = expect(text, at, SQUARE)?;
    let lo = number(text, open, pool, count)?;
    let range = expect(text, lo.at, RANGE)?;
    let hi = number(text, range, pool, lo.count)?;
    let end = array_end(text, hi.at)?;
    Ok(node(pool, end, hi.count, 34, lo.root, hi.root, 0))
}

// The place behind `] OF`.
fn array_end(text: &[u8], at: usize) -> Result<usize, Refusal>
    requires { (length text.now ≤ 8192) × (at ≤ length text.now) }
    ensures { ArrayEndDid text.now at result }
{
    let close = expect(text, at, SQUARE_END)?;
    expect(text, close, OF)
}

// A declared value, if one comes next; nil if not.
fn initial_part(
    text: &[u8],
    at: usize,
    allowed: bool,
    pool: &mut [u16],
    count: usize,
) -> Result<Parsed, Refusal>
    requires { Room text.now pool.old at count }
    ensures { InitialPartDid text.now pool.old pool.new at allowed count result }
{
    let w = next_word(text, at);
    if allowed && w.class == BECOMES {
        return initial(text, w.end, pool, count, w.at);
    }
    Ok(Parsed { at, count, root: 0 })
}

// A number with or without minus, TRUE or FALSE, behind the `:=` at `p`.
fn initial(
    text: &[u8],
    at: usize,
    pool: &mut [u16],
    count: usize,
    p: usize,
) -> Result<Parsed, Refusal>
    requires { Room text.now pool.old at count × (count + 1 ≤ at) × (p < 65536) }
    ensures { InitialDid text.now pool.old pool.new at count p result }
{
    let w = next_word(text, at);
    match w.class {
        TRUE => Ok(node(pool, w.end, count, 37, 0, 0, p)),
        FALSE => Ok(node(pool, w.end, count, 36, 0, 0, p)),
        _ => {
            let z = signed_number(text, at, pool, count)?;
            Ok(node(pool, z.at, z.count, 35, z.root, 0, p))
        }
    }
}

// type [:= value];
fn typing(
    text: &[u8],
    at: usize,
    kind: Kind,
    pool: &mut [u16],
    count: usize,
) -> Result<Parsed, Refusal>
    requires { Room text.now pool.old at count }
    ensures { TypingDid text.now pool.old pool.new at kind count result }
{
    let b = bounds_part(text, at, kind, pool, count)?;
    let t = next_word(text, b.at);
    let Some(ty) = type_named(t.class) else {
        return Err(broken(t.at));
    };
    let allowed = b.root == 0 && holds_values(kind);
    let v = initial_part(text, t.end, allowed, pool, b.count)?;
    let end = expect(text, v.at, SEMICOLON)?;
    let tag = usize::from(u8::from(ty));
    Ok(node(pool, end, v.count, 30, b.root, v.root, tag))
}

// names : type [:= value];
fn declaration(
    text: &[u8],
    at: usize,
    kind: Kind,
    pool: &mut [u16],
    count: usize,
) -> Result<Parsed, Refusal>
    requires { Room text.now pool.old at count }
    ensures { DeclarationDid text.now pool.old pool.new at kind count result }
{
    let n = names(text, at, pool, count)?;
    let colon = expect(text, n.at, COLON)?;
    let t = typing(text, colon, kind, pool, n.count)?;
    Ok(node(pool, t.at, t.count, 38, n.root, t.root, kind as usize))
}

// One or more declarations, up to END_VAR; `before` are those read so far.
fn section(
    text: &[u8],
    at: usize,
    kind: Kind,
    pool: &mut [u16],
    count: usize,
    before: usize,
) -> Result<Parsed, Refusal>
    requires { Room text.now pool.old at count × (before ≤ count) }
    ensures { SectionDid text.now pool.old pool.new at kind count before result }
{
    let mut read = Parsed {
        at,
        count,
        root: before,
    };
    loop {
        let d = declaration(text, read.at, kind, pool, read.count)?;
        read = node(pool, d.at, d.count, 39, read.root, d.root, 0);
        let w = next_word(text, d.at);
        if w.class == END_VAR {
            return Ok(Parsed { at: w.end, ..read });
        }
    }
}

// All sections, from the pool's first node on.
fn sections(text: &[u8], at: usize, pool: &mut [u16]) -> Result<Parsed, Refusal>
    requires { Room text.now pool.old at 0 }
    ensures { SectionsDid text.now pool.old pool.new at 0 0 result }
{
    let mut read = Parsed {
        at,
        count: 0,
        root: 0,
    };
    loop {
        let w = next_word(text, read.at);
        let Some(kind) = section_kind(w.class) else {
            return Ok(read);
        };
        read = section(text, w.end, kind, pool, read.count, read.root)?;
    }
}

// Sections and the statement list, behind the program's name at `p`.
fn body(text: &[u8], at: usize, pool: &mut [u16], p: usize) -> Result<Parsed, Refusal>
    requires { Room text.now pool.old at 0 × (2 ≤ at) × (p < 65536) }
    ensures { BodyDid text.now pool.old pool.new at p result }
{
    let d = sections(text, at, pool)?;
    let b = list(text, d.at, 0, pool, d.count, 0)?;
    let end = expect(text, b.at, END_PROGRAM)?;
    Ok(node(pool, end, b.count, 29, d.root, b.root, p))
}

// PROGRAM name, sections, one statement list, END_PROGRAM, nothing after.
pub fn program(text: &[u8], pool: &mut [u16]) -> Result<Parsed, Refusal>
    requires { (length text.now ≤ 8192) × (4 * length text.now + 4 ≤ length pool.old) }
    ensures { ProgramDid text.now pool.old pool.new result }
{
    let head = expect(text, 0, PROGRAM)?;
    let n = next_word(text, head);
    if n.class != NAME {
        return Err(broken(n.at));
    }
    let b = body(text, n.end, pool, n.at)?;
    let e = next_word(text, b.at);
    if e.class != ENDING {
        return Err(broken(e.at));
    }
    Ok(b)
}

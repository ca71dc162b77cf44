// Statements and lists read into the flat tree, in a cycle of calls; what is left of the text falls.
#![tactic(auto)]

ghost use Rattle.std.specs.Prelude.{◌≡◌, ◌+◌, ◌*◌, ◌<◌, ◌≤◌, length};
ghost use Rattle.words.specs.Denoted.{IsWord};
ghost use Rattle.expressions.specs.Reads.{Room};
ghost use Rattle.statements.specs.Lists.{StartsIs, LinkedDid, ListDid, StatementDid, AssignmentDid, BranchDid, BranchesDid, OtherwiseDid, ClosingDid, CasesDid, ArmsDid, MoreArmsDid, LabelsDid, LabelDid, SignedNumberDid, RepeatDid, HeadDid, BoundsDid, StepDid};

use expressions::classes::{
    BECOMES, BY, CASE, COLON, COMMA, DO, ELSE, ELSIF, END_CASE, END_FOR, END_IF, FOR, IF, MINUS,
    OF, RANGE, SEMICOLON, THEN, TO,
};
use expressions::{
    Parsed, broken, expect, expected, expression, node, number_node, primary, too_deep,
};
use paper::Refusal;
use words::{NAME, NUMBER, Word, next_word};

// Whether a word of the class starts a statement.
#[tactic(auto, using(crate::proofs::Starting::start_of_lem))]
pub fn starts(class: u8) -> bool
    ensures { StartsIs class result }
{
    matches!(class, NAME | IF | CASE | FOR | SEMICOLON)
}

// One or more statements, each ended by `;`; `before` is the list read so far.
#[cycle(reading)]
pub fn list(
    text: &[u8],
    at: usize,
    depth: usize,
    pool: &mut [u16],
    count: usize,
    before: usize,
) -> Result<Parsed, Refusal>
    requires { Room text.now pool.old at count × (before ≤ count) }
    ensures { ListDid text.now pool.old pool.new at depth count before result }
{
    let mut read = Parsed {
        at,
        count,
        root: before,
    };
    let mut w = next_word(text, at);
    loop {
        let s = statement(text, read.at, w, depth, pool, read.count)?;
        let end = expect(text, s.at, SEMICOLON)?;
        read = linked(pool, end, s.count, read.root, s.root);
        w = next_word(text, read.at);
        if !starts(w.class) {
            return Ok(read);
        }
    }
}

// The list `before` with one statement more, up to `at`; an empty one, nil, adds nothing, and the first is the list.
fn linked(pool: &mut [u16], at: usize, count: usize, before: usize, s: usize) -> Parsed
    requires { (4 * count + 8 ≤ length pool.old) × (before ≤ count) × (s ≤ count) × (count < 8192) }
    ensures { LinkedDid pool.old pool.new at count before s result }
{
    if s == 0 {
        return Parsed {
            at,
            count,
            root: before,
        };
    }
    if before == 0 {
        return Parsed { at, count, root: s };
    }
    node(pool, at, count, 44, before, s, 0)
}

// A statement whose first word is `w`; nil for an empty one. 3 at a word that starts none, else 4 where it is too deep.
#[cycle(reading)]
fn statement(
    text: &[u8],
    at: usize,
    w: Word,
    depth: usize,
    pool: &mut [u16],
    count: usize,
) -> Result<Parsed, Refusal>
    requires { Room text.now pool.old at count × IsWord text.now at w }
    ensures { StatementDid text.now pool.old pool.new at depth count result }
{
    let starting = starts(w.class);
    if !starting {
        return Err(broken(w.at));
    }
    if 32 < depth {
        return Err(too_deep(w.at));
    }
    match w.class {
        NAME => assignment(text, at, w, pool, count),
        IF => branch(text, w.end, depth, pool, count, w.at, w.at),
        CASE => cases(text, w.end, depth, pool, count, w.at),
        FOR => repeat(text, w.end, depth, pool, count, w.at),
        _ => Ok(Parsed { at, count, root: 0 }),
    }
}

// target := expression; `w` is the target's name.
fn assignment(
    text: &[u8],
    at: usize,
    w: Word,
    pool: &mut [u16],
    count: usize,
) -> Result<Parsed, Refusal>
    requires { Room text.now pool.old at count × IsWord text.now at w }
    ensures { AssignmentDid text.now pool.old pool.new at count result }
{
    let x = primary(text, at, w, 0, pool, count)?;
    let b = next_word(text, x.at);
    if b.class != BECOMES {
        return Err(broken(b.at));
    }
    let e = expression(text, b.end, 1, 0, pool, x.count)?;
    Ok(node(pool, e.at, e.count, 40, x.root, e.root, b.at))
}

// Behind IF or ELSIF at `p`: a condition, its list, and what follows; the IF stands at `q`.
#[cycle(reading)]
fn branch(
    text: &[u8],
    at: usize,
    depth: usize,
    pool: &mut [u16],
    count: usize,
    p: usize,
    q: usize,
) -> Result<Parsed, Refusal>
    requires { Room text.now pool.old at count × (depth ≤ 32 + at) × (p < 65536) × (q < 65536) }
    ensures { BranchDid text.now pool.old pool.new at depth count p q result }
{
    let c = expression(text, at, 1, 0, pool, count)?;
    let then = expect(text, c.at, THEN)?;
    let b = branches(text, then, depth, pool, c.count, q)?;
    Ok(node(pool, b.at, b.count, 41, c.root, b.root, p))
}

// The two lists of an IF, up to END_IF.
#[cycle(reading)]
fn branches(
    text: &[u8],
    at: usize,
    depth: usize,
    pool: &mut [u16],
    count: usize,
    q: usize,
) -> Result<Parsed, Refusal>
    requires { Room text.now pool.old at count × (depth ≤ 32 + at) × (q < 65536) }
    ensures { BranchesDid text.now pool.old pool.new at depth count q result }
{
    let a = list(text, at, depth + 1, pool, count, 0)?;
    let b = otherwise(text, a.at, depth, pool, a.count, q)?;
    Ok(node(pool, b.at, b.count, 45, a.root, b.root, q))
}

// ELSIF, ELSE or nothing, up to END_IF; an ELSIF is an IF one deeper.
#[cycle(reading)]
fn otherwise(
    text: &[u8],
    at: usize,
    depth: usize,
    pool: &mut [u16],
    count: usize,
    q: usize,
) -> Result<Parsed, Refusal>
    requires { Room text.now pool.old at count × (depth ≤ 32 + at) × (q < 65536) }
    ensures { OtherwiseDid text.now pool.old pool.new at depth count q result }
{
    let w = next_word(text, at);
    if w.class == ELSIF {
        return branch(text, w.end, depth + 1, pool, count, w.at, q);
    }
    closing(text, at, w, depth, pool, count, END_IF)
}

// An ELSE list or nothing, and the closing word; `w` is the first word.
#[cycle(reading)]
fn closing(
    text: &[u8],
    at: usize,
    w: Word,
    depth: usize,
    pool: &mut [u16],
    count: usize,
    class: u8,
) -> Result<Parsed, Refusal>
    requires { Room text.now pool.old at count × IsWord text.now at w × (depth ≤ 32 + at) }
    ensures { ClosingDid text.now pool.old pool.new at depth count class result }
{
    if w.class != ELSE {
        let end = expected(w, class)?;
        return Ok(Parsed {
            at: end,
            count,
            root: 0,
        });
    }
    let b = list(text, w.end, depth + 1, pool, count, 0)?;
    let end = expect(text, b.at, class)?;
    Ok(Parsed { at: end, ..b })
}

// Behind CASE at `p`.
#[cycle(reading)]
fn cases(
    text: &[u8],
    at: usize,
    depth: usize,
    pool: &mut [u16],
    count: usize,
    p: usize,
) -> Result<Parsed, Refusal>
    requires { Room text.now pool.old at count × (depth ≤ 32 + at) × (p < 65536) }
    ensures { CasesDid text.now pool.old pool.new at depth count p result }
{
    let s = expression(text, at, 1, 0, pool, count)?;
    let of = expect(text, s.at, OF)?;
    let a = arms(text, of, depth, pool, s.count)?;
    Ok(node(pool, a.at, a.count, 42, s.root, a.root, p))
}

// An arm and what follows it, up to END_CASE.
#[cycle(reading)]
fn arms(
    text: &[u8],
    at: usize,
    depth: usize,
    pool: &mut [u16],
    count: usize,
) -> Result<Parsed, Refusal>
    requires { Room text.now pool.old at count × (depth ≤ 32 + at) }
    ensures { ArmsDid text.now pool.old pool.new at depth count result }
{
    let l = labels(text, at, pool, count, 0)?;
    let a = list(text, l.at, depth + 1, pool, l.count, 0)?;
    let b = more_arms(text, a.at, depth, pool, a.count)?;
    Ok(node(pool, b.at, b.count, 48, l.root, a.root, b.root))
}

// The next arm, one deeper, or ELSE or nothing, up to END_CASE.
#[cycle(reading)]
fn more_arms(
    text: &[u8],
    at: usize,
    depth: usize,
    pool: &mut [u16],
    count: usize,
) -> Result<Parsed, Refusal>
    requires { Room text.now pool.old at count × (depth < 32 + at) }
    ensures { MoreArmsDid text.now pool.old pool.new at depth count result }
{
    let w = next_word(text, at);
    match w.class {
        NUMBER | MINUS => arms(text, at, depth + 1, pool, count),
        _ => {
            let b = closing(text, at, w, depth, pool, count, END_CASE)?;
            Ok(node(pool, b.at, b.count, 49, b.root, 0, 0))
        }
    }
}

// Labels parted by commas, and the colon; `before` are the labels read so far.
fn labels(
    text: &[u8],
    at: usize,
    pool: &mut [u16],
    count: usize,
    before: usize,
) -> Result<Parsed, Refusal>
    requires { Room text.now pool.old at count × (before ≤ count) }
    ensures { LabelsDid text.now pool.old pool.new at count before result }
{
    let mut read = Parsed {
        at,
        count,
        root: before,
    };
    loop {
        let l = label(text, read.at, pool, read.count)?;
        let w = next_word(text, l.at);
        match w.class {
            COMMA | COLON => {}
            _ => return Err(broken(w.at)),
        }
        read = node(pool, w.end, l.count, 32, read.root, l.root, 0);
        if w.class == COLON {
            return Ok(read);
        }
    }
}

// A number with or without minus, or two joined by `..`.
fn label(text: &[u8], at: usize, pool: &mut [u16], count: usize) -> Result<Parsed, Refusal>
    requires { Room text.now pool.old at count }
    ensures { LabelDid text.now pool.old pool.new at count result }
{
    let a = signed_number(text, at, pool, count)?;
    let w = next_word(text, a.at);
    if w.class != RANGE {
        return Ok(a);
    }
    let b = signed_number(text, w.end, pool, a.count)?;
    Ok(node(pool, b.at, b.count, 31, a.root, b.root, 0))
}

// A number with or without minus.
pub fn signed_number(
    text: &[u8],
    at: usize,
    pool: &mut [u16],
    count: usize,
) -> Result<Parsed, Refusal>
    requires { Room text.now pool.old at count }
    ensures { SignedNumberDid text.now pool.old pool.new at count result }
{
    let w = next_word(text, at);
    if w.class == NUMBER {
        return Ok(number_node(pool, w.end, count, 1, w.value, w.at));
    }
    if w.class != MINUS {
        return Err(broken(w.at));
    }
    let v = next_word(text, w.end);
    if v.class != NUMBER {
        return Err(broken(v.at));
    }
    Ok(number_node(pool, v.end, count, 2, v.value, w.at))
}

// Behind FOR at `p`.
#[cycle(reading)]
fn repeat(
    text: &[u8],
    at: usize,
    depth: usize,
    pool: &mut [u16],
    count: usize,
    p: usize,
) -> Result<Parsed, Refusal>
    requires { Room text.now pool.old at count × (depth ≤ 32 + at) × (p < 65536) }
    ensures { RepeatDid text.now pool.old pool.new at depth count p result }
{
    let h = head(text, at, pool, count, p)?;
    let b = list(text, h.at, depth + 1, pool, h.count, 0)?;
    let end = expect(text, b.at, END_FOR)?;
    Ok(node(pool, end, b.count, 43, h.root, b.root, p))
}

// v := a TO b [BY c] DO
fn head(text: &[u8], at: usize, pool: &mut [u16], count: usize, p: usize) -> Result<Parsed, Refusal>
    requires { Room text.now pool.old at count × (p < 65536) }
    ensures { HeadDid text.now pool.old pool.new at count p result }
{
    let v = next_word(text, at);
    if v.class != NAME {
        return Err(broken(v.at));
    }
    let g = bounds(text, v.end, pool, count)?;
    let c = step(text, g.at, pool, g.count, p)?;
    let end = expect(text, c.at, DO)?;
    Ok(node(pool, end, c.count, 46, g.root, c.root, v.at))
}

// := a TO b
fn bounds(text: &[u8], at: usize, pool: &mut [u16], count: usize) -> Result<Parsed, Refusal>
    requires { Room text.now pool.old at count }
    ensures { BoundsDid text.now pool.old pool.new at count result }
{
    let becomes = expect(text, at, BECOMES)?;
    let a = expression(text, becomes, 1, 0, pool, count)?;
    let to = expect(text, a.at, TO)?;
    let b = expression(text, to, 1, 0, pool, a.count)?;
    Ok(node(pool, b.at, b.count, 47, a.root, b.root, 0))
}

// c, or 1 at the place of the FOR.
fn step(text: &[u8], at: usize, pool: &mut [u16], count: usize, p: usize) -> Result<Parsed, Refusal>
    requires { Room text.now pool.old at count × (count < at) × (p < 65536) }
    ensures { StepDid text.now pool.old pool.new at count p result }
{
    let w = next_word(text, at);
    if w.class == BY {
        return expression(text, w.end, 1, 0, pool, count);
    }
    Ok(node(pool, at, count, 1, 1, 0, p))
}

// What a row says, by the numbers of docs/LAYOUT.md. The reading is total: an unknown operation is the number 0, an unknown type BOOL.
ghost use Rattle.std.specs.Prelude.{◌≡◌, ◌+◌, ◌*◌, ◌≤◌, length};
ghost use Rattle.paper.specs.Tables.{two, to, line_in};
ghost use Rattle.rows.specs.Lent.{line_at};
ghost use Rattle.rows.specs.Said.{said, meant, form_of};

use paper::{Op, Ty};
use value::type_with;

// What a row's operation makes of its operands.
#[derive(Clone, Copy)]
pub enum Form {
    Number,
    Read,
    Minus,
    Complement,
    Select,
    Binary(Op),
    Conversion(Ty),
    Unknown,
}

// A row, with the type of its operands; its operands are a number, a cell or earlier rows.
#[derive(Clone, Copy)]
pub enum Line {
    Number(Ty, u32),
    Read(Ty, u32),
    Minus(Ty, u32),
    Complement(Ty, u32),
    // the second row's value where the first holds, else the third's
    Select(Ty, u32, u32, u32),
    Binary(Op, Ty, u32, u32),
    Conversion(Ty, Ty, u32),
}

// The operator of an operation.
#[tactic(auto, unfolding(paper::specs::Tables::forms))]
fn operator_of(operation: u32) -> Op
    requires { (5 ≤ operation) × (operation ≤ 18) }
    ensures { form_of operation ≡ two result }
{
    match operation {
        5 => Op::Mul,
        6 => Op::Div,
        7 => Op::Mod,
        8 => Op::Add,
        9 => Op::Sub,
        10 => Op::Lt,
        11 => Op::Gt,
        12 => Op::Le,
        13 => Op::Ge,
        14 => Op::Eq,
        15 => Op::Ne,
        16 => Op::And,
        17 => Op::Xor,
        _ => Op::Or,
    }
}

// The type that a conversion gives.
#[tactic(auto, unfolding(paper::specs::Tables::forms))]
fn target_of(operation: u32) -> Ty
    requires { (19 ≤ operation) × (operation ≤ 22) }
    ensures { form_of operation ≡ to result }
{
    match operation {
        19 => Ty::Int,
        20 => Ty::Uint,
        21 => Ty::Dint,
        _ => Ty::Udint,
    }
}

// The form with an operation's number.
#[tactic(auto, unfolding(paper::specs::Tables::forms))]
pub fn form_of(operation: u32) -> Form
    ensures { meant result ≡ form_of operation }
{
    match operation {
        0 => Form::Number,
        1 => Form::Read,
        2 => Form::Minus,
        3 => Form::Complement,
        4 => Form::Select,
        5..=18 => Form::Binary(operator_of(operation)),
        19..=22 => Form::Conversion(target_of(operation)),
        _ => Form::Unknown,
    }
}

// The line of a row's four numbers.
fn line_in(head: u32, a: u32, b: u32, c: u32) -> Line
    ensures { said result ≡ line_in head a b c }
{
    let t = type_with(head % 8);
    match form_of(head / 8) {
        Form::Number => Line::Number(t, a),
        Form::Read => Line::Read(t, a),
        Form::Minus => Line::Minus(t, a),
        Form::Complement => Line::Complement(t, a),
        Form::Select => Line::Select(t, a, b, c),
        Form::Binary(o) => Line::Binary(o, t, a, b),
        Form::Conversion(u) => Line::Conversion(t, u, a),
        Form::Unknown => Line::Number(t, 0),
    }
}

// Row i.
#[tactic(auto, unfolding(crate::specs::Lent::line_at))]
pub fn line_at(rows: &[u32], i: usize) -> Line
    requires { 4 * i + 4 ≤ length rows.now }
    ensures { said result ≡ line_at rows.now i }
{
    let at = 4 * i;
    line_in(rows[at], rows[at + 1], rows[at + 2], rows[at + 3])
}

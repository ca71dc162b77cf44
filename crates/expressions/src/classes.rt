// Classes of words that the shape asks for: 3 and the number in the list of reserved words, 54 and the number in that of the signs.
ghost use Rattle.std.specs.Prelude.{◌≡◌};
ghost use Rattle.expressions.specs.Reads.{level_of, IsOperator, IsType, IsConversion};

use paper::{Op, Ty};

pub const PROGRAM: u8 = 3;

pub const END_PROGRAM: u8 = 4;

pub const VAR_INPUT: u8 = 5;

pub const VAR_OUTPUT: u8 = 6;

pub const VAR: u8 = 7;

pub const END_VAR: u8 = 8;

pub const ARRAY: u8 = 9;

pub const OF: u8 = 10;

pub const IF: u8 = 11;

pub const THEN: u8 = 12;

pub const ELSIF: u8 = 13;

pub const ELSE: u8 = 14;

pub const END_IF: u8 = 15;

pub const CASE: u8 = 16;

pub const END_CASE: u8 = 17;

pub const FOR: u8 = 18;

pub const TO: u8 = 19;

pub const BY: u8 = 20;

pub const DO: u8 = 21;

pub const END_FOR: u8 = 22;

pub const NOT: u8 = 28;

pub const TRUE: u8 = 33;

pub const FALSE: u8 = 34;

pub const BECOMES: u8 = 54;

pub const RANGE: u8 = 55;

pub const COLON: u8 = 59;

pub const SEMICOLON: u8 = 60;

pub const COMMA: u8 = 61;

pub const ROUND: u8 = 62;

pub const ROUND_END: u8 = 63;

pub const SQUARE: u8 = 64;

pub const SQUARE_END: u8 = 65;

pub const MINUS: u8 = 69;

// The operator that a word of the class is.
#[tactic(auto, using(crate::proofs::Arms::operator_said))]
pub fn operator(class: u8) -> Option<Op>
    ensures { IsOperator class result }
{
    match class {
        66 => Some(Op::Mul),
        67 => Some(Op::Div),
        29 => Some(Op::Mod),
        68 => Some(Op::Add),
        69 => Some(Op::Sub),
        70 => Some(Op::Lt),
        71 => Some(Op::Gt),
        56 => Some(Op::Le),
        57 => Some(Op::Ge),
        72 => Some(Op::Eq),
        58 => Some(Op::Ne),
        30 => Some(Op::And),
        73 => Some(Op::And),
        31 => Some(Op::Xor),
        32 => Some(Op::Or),
        _ => None,
    }
}

// How tightly an operator binds, 0 for none.
pub fn level(operator: Option<Op>) -> u8
    ensures { result ≡ level_of operator }
{
    let Some(o) = operator else {
        return 0;
    };
    match o {
        Op::Mul => 7,
        Op::Div => 7,
        Op::Mod => 7,
        Op::Add => 6,
        Op::Sub => 6,
        Op::Lt => 5,
        Op::Gt => 5,
        Op::Le => 5,
        Op::Ge => 5,
        Op::Eq => 4,
        Op::Ne => 4,
        Op::And => 3,
        Op::Xor => 2,
        Op::Or => 1,
    }
}

// The type that a word of the class names.
#[tactic(auto, using(crate::proofs::Arms::type_said))]
pub fn type_named(class: u8) -> Option<Ty>
    ensures { IsType class result }
{
    match class {
        23 => Some(Ty::Bool),
        24 => Some(Ty::Int),
        25 => Some(Ty::Uint),
        26 => Some(Ty::Dint),
        27 => Some(Ty::Udint),
        _ => None,
    }
}

// The conversion that a word of the class is, as 8 times the source's tag and the target's.
#[tactic(auto, using(crate::proofs::Arms::conversion_said))]
pub fn conversion(class: u8) -> Option<u16>
    ensures { IsConversion class result }
{
    match class {
        35 => Some(10),
        36 => Some(11),
        37 => Some(12),
        38 => Some(17),
        39 => Some(19),
        40 => Some(20),
        41 => Some(25),
        42 => Some(26),
        43 => Some(28),
        44 => Some(33),
        45 => Some(34),
        46 => Some(35),
        _ => None,
    }
}

// The types that every crate shares, in the words of document 01. What they mean stands in specs/.
#![tactic(auto)]

ghost use Rattle.std.specs.Prelude.{◌≡◌};
ghost use Rattle.paper.specs.Types.{tag};
ghost use Rattle.paper.specs.Numbers.{Numbers};
ghost use Rattle.paper.specs.Refusals.{number_of};

// The five types.
#[derive(Clone, Copy, PartialEq, Eq)]
pub enum Ty {
    Bool,
    Int,
    Uint,
    Dint,
    Udint,
}

// A number that no type has.
#[derive(Clone, Copy, PartialEq, Eq)]
pub struct UnknownType(pub u32);

// A type's number in a table.
impl From<Ty> for u8 {
    ghost from_gives = { λ t n. n ≡ tag t };

    fn from(t: Ty) -> u8 {
        match t {
            Ty::Bool => 0,
            Ty::Int => 1,
            Ty::Uint => 2,
            Ty::Dint => 3,
            Ty::Udint => 4,
        }
    }
}

// The type with a number.
impl TryFrom<u32> for Ty {
    type Error = UnknownType;

    ghost try_from_gives = { Numbers };

    fn try_from(n: u32) -> Result<Ty, UnknownType> {
        match n {
            0 => Ok(Ty::Bool),
            1 => Ok(Ty::Int),
            2 => Ok(Ty::Uint),
            3 => Ok(Ty::Dint),
            4 => Ok(Ty::Udint),
            _ => Err(UnknownType(n)),
        }
    }
}

// The section kinds, in printed order.
#[derive(Clone, Copy, PartialEq, Eq)]
pub enum Kind {
    Input,
    Output,
    Other,
}

// The operators with two operands.
#[derive(Clone, Copy, PartialEq, Eq)]
pub enum Op {
    Mul,
    Div,
    Mod,
    Add,
    Sub,
    Lt,
    Gt,
    Le,
    Ge,
    Eq,
    Ne,
    And,
    Xor,
    Or,
}

// A cell's number and a row's number are counted apart.
#[derive(Clone, Copy, PartialEq, Eq)]
pub struct Cell(pub u16);

#[derive(Clone, Copy, PartialEq, Eq)]
pub struct Row(pub u16);

// Why something is refused, in the order of the refusals' numbers.
#[derive(Clone, Copy, PartialEq, Eq)]
pub enum Why {
    TooLong,
    NoWord,
    BadShape,
    TooDeep,
    BadName,
    BadType,
    TooHigh,
    BadWalk,
    TooHeavy,
    NoRoom,
    BadTable,
    BadValue,
}

// A refusal: why, and the place in the text; 0 for what no place in a text has.
#[derive(Clone, Copy, PartialEq, Eq)]
pub struct Refusal {
    pub why: Why,
    pub place: usize,
}

// The four numbers of an accepted text.
#[derive(Clone, Copy, PartialEq, Eq)]
pub struct Accepted {
    pub cells: usize,
    pub weight: usize,
    pub figure: usize,
    pub length: usize,
}

// What acceptance answers.
pub type Verdict = Result<Accepted, Refusal>;

// The number that answers a refusal.
impl From<Why> for u8 {
    ghost from_gives = { λ why n. n ≡ number_of why };

    fn from(why: Why) -> u8 {
        match why {
            Why::TooLong => 1,
            Why::NoWord => 2,
            Why::BadShape => 3,
            Why::TooDeep => 4,
            Why::BadName => 5,
            Why::BadType => 6,
            Why::TooHigh => 7,
            Why::BadWalk => 8,
            Why::TooHeavy => 9,
            Why::NoRoom => 10,
            Why::BadTable => 11,
            Why::BadValue => 12,
        }
    }
}

// What nodes are, by their kinds: of expressions, of statements and of the arms of a CASE. A node of another kind is nothing.
ghost use Rattle.std.specs.Prelude.{◌≡◌, List, ℕ, eqb, slice_get};
ghost use Rattle.paper.specs.Heights.{first_word};
ghost use Rattle.tree.specs.Nodes.{word_of, kind_of};
ghost use Rattle.tree.specs.Trees.{operators, expr_at, IsHeight};
ghost use Rattle.tree.specs.Kinds.{IsExpression, IsStatement, IsArms, IsInitial};

use crate::node::Node;
use paper::{Op, Ty};
use value::type_with;

// The node of an expression; its operands are its children.
#[derive(Clone, Copy)]
pub enum Expression {
    Nothing,
    Number,
    Truth(bool),
    Variable,
    Element,
    Minus,
    Complement,
    Brackets,
    Conversion(Ty, Ty),
    Binary(Op),
}

// The node of a list: one statement, or a list and one statement more.
#[derive(Clone, Copy)]
pub enum Statement {
    Nothing,
    Assignment,
    Choice,
    Selection,
    Loop,
    List,
}

// The node of the arms of a CASE: an arm and what follows it, or the ELSE list.
#[derive(Clone, Copy)]
pub enum Arms {
    Nothing,
    Arm,
    Otherwise,
}

// The node of a declared value: a number, its child, or a truth value.
#[derive(Clone, Copy)]
pub enum Initial {
    Nothing,
    Value,
    Flag(bool),
}

// The operator with a number, if one has it.
pub fn operator_with(n: u32) -> Option<Op>
    ensures { result ≡ slice_get operators n }
{
    match n {
        0 => Some(Op::Mul),
        1 => Some(Op::Div),
        2 => Some(Op::Mod),
        3 => Some(Op::Add),
        4 => Some(Op::Sub),
        5 => Some(Op::Lt),
        6 => Some(Op::Gt),
        7 => Some(Op::Le),
        8 => Some(Op::Ge),
        9 => Some(Op::Eq),
        10 => Some(Op::Ne),
        11 => Some(Op::And),
        12 => Some(Op::Xor),
        13 => Some(Op::Or),
        _ => None,
    }
}

impl<'a> Node<'a> {
    // The node as that of an expression.
    pub fn expression(self) -> Expression
        ensures { IsExpression self.entry.pool.now self.entry.at result }
    {
        match self.kind() {
            0 => Expression::Nothing,
            1 | 2 => Expression::Number,
            3 => Expression::Truth(false),
            4 => Expression::Truth(true),
            5 => Expression::Variable,
            6 => Expression::Element,
            7 => Expression::Minus,
            8 => Expression::Complement,
            9 => Expression::Brackets,
            10 => {
                let w = self.word(2) as u32;
                Expression::Conversion(type_with(w / 8), type_with(w % 8))
            }
            k => match operator_with(k as u32 - 11) {
                Some(o) => Expression::Binary(o),
                None => Expression::Nothing,
            },
        }
    }

    // The node as that of a list of statements.
    pub fn statement(self) -> Statement
        ensures { IsStatement self.entry.pool.now self.entry.at result }
    {
        if self.at == 0 {
            return Statement::Nothing;
        }
        match self.word(0) {
            0..=40 => Statement::Assignment,
            41 => Statement::Choice,
            42 => Statement::Selection,
            43 => Statement::Loop,
            44 => Statement::List,
            _ => Statement::Nothing,
        }
    }

    // The node as that of the arms of a CASE.
    pub fn arms(self) -> Arms
        ensures { IsArms self.entry.pool.now self.entry.at result }
    {
        if self.at == 0 {
            return Arms::Nothing;
        }
        match self.word(0) {
            0..=48 => Arms::Arm,
            49 => Arms::Otherwise,
            _ => Arms::Nothing,
        }
    }

    // Whether the label at the node is a range of two numbers, its children.
    pub fn is_range(self) -> bool
        ensures { result ≡ eqb (word_of self.entry.pool.now self.entry.at 0) 31 }
    {
        self.word(0) == 31
    }

    // The place of the expression's first word. A loop, so that a long chain of operators takes no more stack.
    pub fn first_word(self) -> u16
        ensures { (t : List ℕ) → result ≡ first_word (expr_at t self.entry.pool.now self.entry.at) }
    {
        let mut rest = self;
        loop {
            match rest.expression() {
                Expression::Nothing => return 0,
                Expression::Binary(_) => rest = rest.child(1),
                _ => return rest.place(),
            }
        }
    }

    // How high the expression of the node is.
    pub fn height(self) -> usize
        ensures { IsHeight self.entry.pool.now self.entry.at result }
    {
        match self.expression() {
            Expression::Brackets => self.child(1).height(),
            Expression::Minus | Expression::Complement | Expression::Conversion(..) => {
                self.child(1).height() + 1
            }
            Expression::Binary(_) => self.child(1).height().max(self.child(2).height()) + 1,
            _ => 1,
        }
    }

    // The node as that of a declared value.
    pub fn initial(self) -> Initial
        ensures { IsInitial self.entry.pool.now self.entry.at result }
    {
        match self.kind() {
            35 => Initial::Value,
            36 => Initial::Flag(false),
            37 => Initial::Flag(true),
            _ => Initial::Nothing,
        }
    }

    // Whether the node is that of an array's bounds, two numbers, its children.
    pub fn is_bounds(self) -> bool
        ensures { result ≡ eqb (kind_of self.entry.pool.now self.entry.at) 34 }
    {
        self.kind() == 34
    }
}

//! Trees of texts, over the names of a text or the numbers of a program.

ghost use Rattle.std.specs.Prelude.{◌≡◌, ◌↔◌, IsTrue, IfOk};
ghost use Rattle.std.specs.Str.{bytes_eq};

use crate::Value;
use seuss_base::{Box, List, Memory, Text};
use std::alloc::Global;

/// A name as it stands in a text, with its line, counted from 1.
#[derive(Debug, Drop)]
pub struct Name {
    pub text: Text,
    pub line: u32,
}

impl Name {
    /// An equal name of its own.
    pub fn copy(&self, alloc: Global) -> Result<Name, Memory>
        ensures { IfOk result (λ name. name ≡ self.now) }
    {
        let text = self.text.copy(alloc)?;
        Ok(Name {
            text,
            line: self.line,
        })
    }

    /// Whether the text is the same, on whatever line.
    pub fn is_same(&self, other: &Name) -> bool
        ensures value { result ≡ bytes_eq self.now.text other.now.text }
        ensures same { IsTrue result ↔ (self.now.text ≡ other.now.text) }
    {
        self.text.as_bytes() == other.text.as_bytes()
    }
}

/// What a name of a checked program stands for, as a number from 0.
#[derive(Clone, Copy, Debug, PartialEq, Eq)]
pub enum Ref {
    /// A variable of the cat.
    Var(u32),
    /// A parameter, result or local of the procedure.
    Slot(u32),
    /// A given box of the cat.
    Given(u32),
    /// A procedure of the cat of the box that is called.
    Method(u32),
    Cat(u32),
}

/// The type of a variable, a parameter or a local.
#[derive(Clone, Copy, Debug, PartialEq, Eq)]
pub enum Kind {
    Int,
    Bool,
    Seq,
}

/// A text as a tree. Its names are those of the text.
#[derive(Debug, Drop)]
pub struct Tree {
    pub cats: List<Cat<Name>>,
    pub boxes: List<BoxDecl>,
}

/// A class of boxes. `N` is `Name` in a tree and `Ref` in a program.
#[derive(Debug, Drop)]
pub struct Cat<N> {
    pub name: Name,
    pub given: List<Given<N>>,
    pub vars: List<Var>,
    pub procs: List<Proc<N>>,
    pub semis: List<Semi<N>>,
}

/// A box that each box of the cat is given, and its cat.
#[derive(Debug, Drop)]
pub struct Given<N> {
    pub name: Name,
    pub cat: N,
}

/// A variable with the value that it starts with.
#[derive(Debug, Drop)]
pub struct Var {
    pub name: Name,
    pub kind: Kind,
    pub start: Value,
}

impl Var {
    /// An equal variable of its own.
    pub fn copy(&self, alloc: Global) -> Result<Var, Memory>
        ensures { IfOk result (λ var. var ≡ self.now) }
    {
        let name = self.name.copy(alloc)?;
        let start = self.start.copy(alloc)?;
        Ok(Var {
            name,
            kind: self.kind,
            start,
        })
    }
}

#[derive(Debug, Drop)]
pub struct Param {
    pub name: Name,
    pub kind: Kind,
}

/// A method or an action. `gives` says that it has a result.
#[derive(Debug, Drop)]
pub struct Proc<N> {
    pub name: Name,
    pub params: List<Param>,
    pub gives: bool,
    pub form: Form<N>,
}

#[derive(Debug, Drop)]
pub enum Form<N> {
    /// A method that never rejects.
    Total(List<Statement<N>>),
    /// A method that may reject.
    Partial(List<Alternative<N>>),
    /// What the scheduler runs by itself.
    Action(List<Alternative<N>>),
}

/// `when cond ; pre -> body`, or `~>` where it isn't positive.
#[derive(Debug, Drop)]
pub struct Alternative<N> {
    pub line: u32,
    pub cond: Expr<N>,
    pub pre: Option<Pre<N>>,
    pub positive: bool,
    pub body: List<Statement<N>>,
}

/// The call that an alternative begins with, and the local that its result is bound to.
#[derive(Debug, Drop)]
pub struct Pre<N> {
    pub bind: Option<N>,
    pub call: Call<N>,
}

/// A call of a method of a given box.
#[derive(Debug, Drop)]
pub struct Call<N> {
    pub target: N,
    pub method: N,
    pub args: List<Expr<N>>,
}

#[derive(Debug, Drop)]
pub enum Statement<N> {
    Let {
        name: N,
        kind: Kind,
        value: Expr<N>,
    },
    Assign {
        name: N,
        value: Expr<N>,
    },
    Call {
        bind: Option<N>,
        call: Call<N>,
    },
    If {
        cond: Expr<N>,
        yes: List<Statement<N>>,
        no: List<Statement<N>>,
    },
    While {
        cond: Expr<N>,
        turn: List<Statement<N>>,
    },
}

/// An expression and the line of its first token.
#[cycle(expr)]
#[derive(Debug, Drop)]
pub struct Expr<N> {
    pub line: u32,
    pub node: Node<N>,
}

#[cycle(expr)]
#[derive(Debug, Drop)]
pub enum Node<N> {
    Int(i64),
    Bool(bool),
    /// The empty sequence.
    Empty,
    Name(N),
    Neg(Box<Expr<N>>),
    Not(Box<Expr<N>>),
    Two(Op, Box<Expr<N>>, Box<Expr<N>>),
    One(Fun, Box<Expr<N>>),
}

/// An operator or a function of two parts.
#[derive(Clone, Copy, Debug, PartialEq, Eq)]
pub enum Op {
    Or,
    And,
    Eq,
    Ne,
    Lt,
    Le,
    Gt,
    Ge,
    Plus,
    Minus,
    WrapPlus,
    WrapMinus,
    Times,
    Divide,
    Remainder,
    At,
    Add,
}

/// A function of one sequence.
#[derive(Clone, Copy, Debug, PartialEq, Eq)]
pub enum Fun {
    First,
    Last,
    Rest,
    Front,
    Len,
}

/// A certificate: the first method semicommutes over the second one.
#[derive(Debug, Drop)]
pub struct Semi<N> {
    pub line: u32,
    pub first: N,
    pub second: N,
    pub hints: List<Hint<N>>,
}

/// How many elements of a sequence, at its front or its back, a certificate looks at.
#[derive(Debug, Drop)]
pub struct Hint<N> {
    pub front: bool,
    pub name: N,
    pub depth: u64,
    pub line: u32,
}

/// A box, its cat and the boxes that it is given.
#[derive(Debug, Drop)]
pub struct BoxDecl {
    pub name: Name,
    pub cat: Name,
    pub given: List<Name>,
}

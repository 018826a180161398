//! The built-in cats, as a text would declare them, put in front of the cats of a text.
ghost use Rattle.std.specs.Prelude.{◌≡◌, ◌∷◌, [], ◌≤◌, length, drop, IfOk};
ghost use Rattle.box_types.specs.BuiltInTexts.{word, expression, queue, use_of, of_queue, two, assignment};
ghost use Rattle.box_types.specs.BuiltInTexts.{read};
ghost use Rattle.box_types.specs.BuiltInTexts.{write, input, output, with_built_ins as with_cats};

use seuss_base::{Box, Ints, List, Memory, Text};
use seuss_program::{
    Alternative, Cat, Expr, Form, Fun, Kind, Name, Node, Op, Param, Proc, Statement, Tree, Value,
    Var,
};
use std::alloc::Global;

/// The text with the built-in cats in front of its own.
pub(crate) fn with_built_ins(alloc: Global, tree: Tree) -> Result<Tree, Memory>
    ensures { IfOk result (λ whole. whole ≡ with_cats tree) }
{
    let Tree { cats, boxes } = tree;
    let mut own = cats.into_vec();
    let mut all = Vec::new(alloc);
    all.push(make_input(alloc)?)?;
    all.push(make_output(alloc)?)?;
    all.append(&mut own)?;
    Ok(Tree {
        cats: List::from_vec(all),
        boxes,
    })
}

/// The text without the two cats in front.
pub(crate) fn without_built_ins(whole: Tree) -> Tree
    requires { 2 ≤ length whole.cats }
    ensures { result ≡ record { cats = drop 2 whole.cats; boxes = whole.boxes } }
{
    let Tree { cats, boxes } = whole;
    let mut own = cats.into_vec();
    own.remove(0);
    own.remove(0);
    Tree {
        cats: List::from_vec(own),
        boxes,
    }
}

fn make_input(alloc: Global) -> Result<Cat<Name>, Memory>
    ensures { IfOk result (λ cat. cat ≡ input) }
{
    Ok(Cat {
        name: make_word(alloc, b"Input")?,
        given: List::new(alloc),
        vars: make_queue(alloc)?,
        procs: one(alloc, make_read(alloc)?)?,
        semis: List::new(alloc),
    })
}

fn make_output(alloc: Global) -> Result<Cat<Name>, Memory>
    ensures { IfOk result (λ cat. cat ≡ output) }
{
    Ok(Cat {
        name: make_word(alloc, b"Output")?,
        given: List::new(alloc),
        vars: make_queue(alloc)?,
        procs: one(alloc, make_write(alloc)?)?,
        semis: List::new(alloc),
    })
}

fn make_read(alloc: Global) -> Result<Proc<Name>, Memory>
    ensures { IfOk result (λ procedure. procedure ≡ read) }
{
    let length = make_of_queue(alloc, Fun::Len)?;
    let zero = make_expression(Node::Int(0));
    let cond = make_two(alloc, Op::Gt, length, zero)?;
    let first = make_of_queue(alloc, Fun::First)?;
    let rest = make_of_queue(alloc, Fun::Rest)?;
    let mut body = one(alloc, make_assignment(alloc, b"result", first)?)?;
    body.push(make_assignment(alloc, b"q", rest)?)?;
    let alternative = Alternative {
        line: 0,
        cond,
        pre: None,
        positive: true,
        body,
    };
    Ok(Proc {
        name: make_word(alloc, b"read")?,
        params: List::new(alloc),
        gives: true,
        form: Form::Partial(one(alloc, alternative)?),
    })
}

fn make_write(alloc: Global) -> Result<Proc<Name>, Memory>
    ensures { IfOk result (λ procedure. procedure ≡ write) }
{
    let before = make_use(alloc, b"q")?;
    let number = make_use(alloc, b"x")?;
    let value = make_two(alloc, Op::Add, before, number)?;
    let param = Param {
        name: make_word(alloc, b"x")?,
        kind: Kind::Int,
    };
    let body = one(alloc, make_assignment(alloc, b"q", value)?)?;
    Ok(Proc {
        name: make_word(alloc, b"write")?,
        params: one(alloc, param)?,
        gives: false,
        form: Form::Total(body),
    })
}

fn make_queue(alloc: Global) -> Result<List<Var>, Memory>
    ensures { IfOk result (λ vars. vars ≡ queue) }
{
    let var = Var {
        name: make_word(alloc, b"q")?,
        kind: Kind::Seq,
        start: Value::Seq(Ints::new(alloc)),
    };
    one(alloc, var)
}

fn make_word(alloc: Global, text: &[u8]) -> Result<Name, Memory>
    ensures { IfOk result (λ name. name ≡ word text.now) }
{
    let text = Text::from_slice(alloc, text)?;
    Ok(Name { text, line: 0 })
}

fn make_expression(node: Node<Name>) -> Expr<Name>
    ensures { result ≡ expression node }
{
    Expr { line: 0, node }
}

fn make_use(alloc: Global, text: &[u8]) -> Result<Expr<Name>, Memory>
    ensures { IfOk result (λ e. e ≡ use_of text.now) }
{
    let name = make_word(alloc, text)?;
    Ok(make_expression(Node::Name(name)))
}

/// A function of the queue.
fn make_of_queue(alloc: Global, fun: Fun) -> Result<Expr<Name>, Memory>
    ensures { IfOk result (λ e. e ≡ of_queue fun) }
{
    let queue = make_use(alloc, b"q")?;
    let queue = Box::new(alloc, queue)?;
    Ok(make_expression(Node::One(fun, queue)))
}

fn make_two(
    alloc: Global,
    op: Op,
    left: Expr<Name>,
    right: Expr<Name>,
) -> Result<Expr<Name>, Memory>
    ensures { IfOk result (λ e. e ≡ two op left right) }
{
    let left = Box::new(alloc, left)?;
    let right = Box::new(alloc, right)?;
    Ok(make_expression(Node::Two(op, left, right)))
}

fn make_assignment(alloc: Global, text: &[u8], value: Expr<Name>) -> Result<Statement<Name>, Memory>
    ensures { IfOk result (λ s. s ≡ assignment text.now value) }
{
    let name = make_word(alloc, text)?;
    Ok(Statement::Assign { name, value })
}

/// A list of one item.
fn one<T: Drop>(alloc: Global, item: T) -> Result<List<T>, Memory>
    ensures { IfOk result (λ list. list ≡ item ∷ []) }
{
    let mut list = List::new(alloc);
    list.push(item)?;
    Ok(list)
}

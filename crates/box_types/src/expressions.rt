//! The checks of an expression: unknown names, names that are no values, and wrong types.
ghost use Rattle.std.specs.Prelude.{◌≡◌, ◌++◌};
ghost use Rattle.box_types.specs.Answers.{Stops, HasType};
ghost use Rattle.box_types.specs.Twice.{fails};
ghost use Rattle.box_types.specs.Unknown.{in_names, unknown_name, is_nothing};
ghost use Rattle.box_types.specs.WrongKind.{no_value, is_no_value};
ghost use Rattle.box_types.specs.WrongType.{Typed, differs, is_other, is_seq, gives, refuses, beside};
ghost use Rattle.box_types.specs.WrongType.{wrong, one};
ghost use Rattle.box_types.specs.WrongType.{two, given_by, part as part_of};
ghost use Rattle.box_types.specs.Walks.{kind_of};

use crate::checking::Stop;
use crate::faults::refuse;
use crate::lookups::meaning;
use crate::scopes::{Local, Meaning};
use seuss_program::{Cat, Expr, Fun, Kind, Name, Node, Op};

/// Whether nothing of this name is declared.
pub(crate) fn is_undeclared(meaning: Meaning) -> bool
    ensures { result ≡ is_nothing meaning }
{
    match meaning {
        Meaning::Nothing => true,
        Meaning::Slot { .. } => false,
        Meaning::Variable { .. } => false,
        Meaning::GivenBox(_) => false,
        Meaning::Procedure(_) => false,
    }
}

/// Whether a name stands for what has no value: a given box or a procedure.
fn has_no_value(meaning: Meaning) -> bool
    ensures { result ≡ is_no_value meaning }
{
    match meaning {
        Meaning::GivenBox(_) => true,
        Meaning::Procedure(_) => true,
        Meaning::Slot { .. } => false,
        Meaning::Variable { .. } => false,
        Meaning::Nothing => false,
    }
}

/// Stops at a name that isn't declared where it is visible.
pub(crate) fn find_unknown(own: &Cat<Name>, visible: &[Local], name: &Name) -> Result<(), Stop>
    ensures { Stops result (unknown_name own.now visible.now name.now) }
{
    refuse(is_undeclared(meaning(own, visible, name)), name.line)
}

fn find_no_value(own: &Cat<Name>, visible: &[Local], name: &Name) -> Result<(), Stop>
    ensures { Stops result (no_value own.now visible.now name.now) }
{
    refuse(has_no_value(meaning(own, visible, name)), name.line)
}

/// Stops at the first name of an expression that isn't declared where it is visible.
#[tactic(auto, unfolding(crate::specs::Unknown::in_names))]
pub(crate) fn find_unknown_in(
    own: &Cat<Name>,
    visible: &[Local],
    e: &Expr<Name>,
) -> Result<(), Stop>
    ensures { Stops result (in_names (unknown_name own.now visible.now) e.now) }
{
    match &e.node {
        Node::Int(_) => Ok(()),
        Node::Bool(_) => Ok(()),
        Node::Empty => Ok(()),
        Node::Name(name) => find_unknown(own, visible, name),
        Node::Neg(part) => find_unknown_in(own, visible, part),
        Node::Not(part) => find_unknown_in(own, visible, part),
        Node::Two(_, left, right) => {
            find_unknown_in(own, visible, left)?;
            find_unknown_in(own, visible, right)
        }
        Node::One(_, part) => find_unknown_in(own, visible, part),
    }
}

/// Stops at the first name of an expression that stands for a given box or a procedure.
#[tactic(auto, unfolding(crate::specs::Unknown::in_names))]
pub(crate) fn find_no_value_in(
    own: &Cat<Name>,
    visible: &[Local],
    e: &Expr<Name>,
) -> Result<(), Stop>
    ensures { Stops result (in_names (no_value own.now visible.now) e.now) }
{
    match &e.node {
        Node::Int(_) => Ok(()),
        Node::Bool(_) => Ok(()),
        Node::Empty => Ok(()),
        Node::Name(name) => find_no_value(own, visible, name),
        Node::Neg(part) => find_no_value_in(own, visible, part),
        Node::Not(part) => find_no_value_in(own, visible, part),
        Node::Two(_, left, right) => {
            find_no_value_in(own, visible, left)?;
            find_no_value_in(own, visible, right)
        }
        Node::One(_, part) => find_no_value_in(own, visible, part),
    }
}

/// The type of what a name stands for.
pub(crate) fn type_of_name(meaning: Meaning) -> Option<Kind>
    ensures { result ≡ kind_of meaning }
{
    match meaning {
        Meaning::Slot { kind, .. } => Some(kind),
        Meaning::Variable { kind, .. } => Some(kind),
        Meaning::GivenBox(_) => None,
        Meaning::Procedure(_) => None,
        Meaning::Nothing => None,
    }
}

/// Whether a known type isn't the one wanted.
fn is_different(wanted: Kind, kind: Kind) -> bool
    ensures { result ≡ is_other wanted kind }
{
    match (wanted, kind) {
        (Kind::Int, Kind::Int) => false,
        (Kind::Bool, Kind::Bool) => false,
        (Kind::Seq, Kind::Seq) => false,
        _ => true,
    }
}

fn is_wrong(wanted: Option<Kind>, kind: Option<Kind>) -> bool
    ensures { result ≡ differs wanted kind }
{
    match (wanted, kind) {
        (Some(wanted), Some(kind)) => is_different(wanted, kind),
        (Some(_), None) => false,
        (None, _) => false,
    }
}

fn is_sequence(kind: Option<Kind>) -> bool
    ensures { result ≡ is_seq kind }
{
    match kind {
        Some(Kind::Seq) => true,
        Some(Kind::Int) => false,
        Some(Kind::Bool) => false,
        None => false,
    }
}

/// What a function of a sequence gives.
fn type_given(fun: Fun) -> Kind
    ensures { result ≡ given_by fun }
{
    match fun {
        Fun::First => Kind::Int,
        Fun::Last => Kind::Int,
        Fun::Rest => Kind::Seq,
        Fun::Front => Kind::Seq,
        Fun::Len => Kind::Int,
    }
}

/// The type that an operator gives.
fn type_of_op(op: Op) -> Kind
    ensures { result ≡ gives op }
{
    match op {
        Op::Or | Op::And => Kind::Bool,
        Op::Eq | Op::Ne | Op::Lt | Op::Le | Op::Gt | Op::Ge => Kind::Bool,
        Op::Plus | Op::Minus | Op::WrapPlus | Op::WrapMinus => Kind::Int,
        Op::Times | Op::Divide | Op::Remainder | Op::At => Kind::Int,
        Op::Add => Kind::Seq,
    }
}

/// Whether an operator doesn't take this type on the left.
fn is_refused(op: Op, kind: Option<Kind>) -> bool
    ensures { result ≡ refuses op kind }
{
    match op {
        Op::Or | Op::And => is_wrong(Some(Kind::Bool), kind),
        Op::Eq | Op::Ne => is_sequence(kind),
        Op::Lt | Op::Le | Op::Gt | Op::Ge => is_wrong(Some(Kind::Int), kind),
        Op::Plus | Op::Minus | Op::WrapPlus | Op::WrapMinus => is_wrong(Some(Kind::Int), kind),
        Op::Times | Op::Divide | Op::Remainder => is_wrong(Some(Kind::Int), kind),
        Op::At | Op::Add => is_wrong(Some(Kind::Seq), kind),
    }
}

/// The type that an operator takes on the right, by that of its left part.
fn type_beside(op: Op, kind: Option<Kind>) -> Option<Kind>
    ensures { result ≡ beside op kind }
{
    match op {
        Op::Or | Op::And => Some(Kind::Bool),
        Op::Eq | Op::Ne => kind,
        Op::Lt | Op::Le | Op::Gt | Op::Ge => Some(Kind::Int),
        Op::Plus | Op::Minus | Op::WrapPlus | Op::WrapMinus => Some(Kind::Int),
        Op::Times | Op::Divide | Op::Remainder | Op::At | Op::Add => Some(Kind::Int),
    }
}

/// Stops at a part on this line, or inside it, where its type is known and isn't the one wanted.
fn expect(wanted: Option<Kind>, found: Result<Option<Kind>, Stop>, line: u32) -> Result<(), Stop>
    ensures { (typed : Typed) → HasType found typed → Stops result (wrong wanted
        (record { line = line; typed = typed })) }
{
    let kind = found?;
    refuse(is_wrong(wanted, kind), line)
}

/// Stops at the left part of an operator, or inside it.
fn expect_left(op: Op, found: Result<Option<Kind>, Stop>, line: u32) -> Result<Option<Kind>, Stop>
    ensures { (typed : Typed) → HasType found typed → HasType result
        (record { kind = typed.kind; lines = typed.lines ++ fails (refuses op typed.kind) line }) }
{
    let kind = found?;
    refuse(is_refused(op, kind), line)?;
    Ok(kind)
}

/// A function of one part, which takes and gives these types.
fn type_of_one(
    takes: Kind,
    given: Kind,
    found: Result<Option<Kind>, Stop>,
    line: u32,
) -> Result<Option<Kind>, Stop>
    ensures { (typed : Typed) → HasType found typed → HasType result (one takes given
        (record { line = line; typed = typed })) }
{
    expect(Some(takes), found, line)?;
    Ok(Some(given))
}

/// An operator over its two parts.
fn type_of_two(
    op: Op,
    left: Result<Option<Kind>, Stop>,
    left_line: u32,
    right: Result<Option<Kind>, Stop>,
    right_line: u32,
) -> Result<Option<Kind>, Stop>
    ensures { (l r : Typed) → HasType left l → HasType right r
        → HasType result (two op (record { line = left_line; typed = l })
        (record { line = right_line; typed = r })) }
{
    let kind = expect_left(op, left, left_line)?;
    expect(type_beside(op, kind), right, right_line)?;
    Ok(Some(type_of_op(op)))
}

/// The type of an expression none of whose parts is wrong, where its names tell it.
#[tactic(auto, unfolding(crate::specs::WrongType::part))]
fn type_of(own: &Cat<Name>, visible: &[Local], e: &Expr<Name>) -> Result<Option<Kind>, Stop>
    ensures { HasType result (part_of own.now visible.now e.now).typed }
{
    match &e.node {
        Node::Int(_) => Ok(Some(Kind::Int)),
        Node::Bool(_) => Ok(Some(Kind::Bool)),
        Node::Empty => Ok(Some(Kind::Seq)),
        Node::Name(name) => Ok(type_of_name(meaning(own, visible, name))),
        Node::Neg(part) => {
            let found = type_of(own, visible, part);
            type_of_one(Kind::Int, Kind::Int, found, part.line)
        }
        Node::Not(part) => {
            let found = type_of(own, visible, part);
            type_of_one(Kind::Bool, Kind::Bool, found, part.line)
        }
        Node::Two(op, left, right) => {
            let found = type_of(own, visible, left);
            let beside = type_of(own, visible, right);
            type_of_two(*op, found, left.line, beside, right.line)
        }
        Node::One(fun, part) => {
            let found = type_of(own, visible, part);
            type_of_one(Kind::Seq, type_given(*fun), found, part.line)
        }
    }
}

/// Stops at the first part of an expression whose type is known and isn't the one wanted there, or at
/// the whole.
#[tactic(auto, unfolding(crate::specs::WrongType::part))]
pub(crate) fn find_wrong(
    own: &Cat<Name>,
    visible: &[Local],
    wanted: Option<Kind>,
    e: &Expr<Name>,
) -> Result<(), Stop>
    ensures { Stops result (wrong wanted (part_of own.now visible.now e.now)) }
{
    expect(wanted, type_of(own, visible, e), e.line)
}

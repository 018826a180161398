//! The checks at the places of certificates and boxes.
ghost use Rattle.std.specs.Prelude.{◌≡◌, ◌≤◌, ◌+◌, ◌||◌, length, min, ◌<◌, ◌^◌, slice_get, Option};
ghost use Rattle.std.specs.Prelude.{option_map};
ghost use Rattle.std.specs.Option.{option_copied};
ghost use Rattle.std.specs.List.{list_any, count_by};
ghost use Rattle.box_types.specs.Answers.{Stops};
ghost use Rattle.box_types.specs.Faults.{test_of};
ghost use Rattle.box_types.specs.Scopes.{meaning_in, same};
ghost use Rattle.box_types.specs.Twice.{same_pair, same_hint};
ghost use Rattle.box_types.specs.Unknown.{unknown_in, unknown_box};
ghost use Rattle.box_types.specs.WrongKind.{has_no_hint, is_action};
ghost use Rattle.box_types.specs.WrongType.{wanted_cat, cat_of_box, is_other_cat};
ghost use Rattle.box_types.specs.ArgumentCounts.{is_another};
ghost use Rattle.box_types.specs.Limits.{passes, actions_in, actions_of};
ghost use Rattle.box_types.specs.Walks.{First, Second, HintName, BoxName, BoxCat, BoxGiven};

use crate::call_places::{is_action_form, is_not_method, is_not_total_method};
use crate::checking::{Check, Stop};
use crate::expressions::is_undeclared;
use crate::faults::refuse;
use crate::lookups::{cat_named, first_named, is_among, member};
use crate::places::find_unknown_cat;
use crate::scopes::Meaning;
use seuss_program::{BoxDecl, Cat, Hint, Kind, Name, Proc, Semi, Tree};

fn is_same_pair(a: &Semi<Name>, b: &Semi<Name>) -> bool
    ensures { result ≡ same_pair a.now b.now }
{
    a.first.is_same(&b.first) && a.second.is_same(&b.second)
}

/// Whether a certificate has the methods of one of these.
fn is_repeated(semis: &[Semi<Name>], semi: &Semi<Name>) -> bool
    ensures { result ≡ list_any (λ t. same_pair t semi.now) semis.now }
{
    semis.iter().any(|other| is_same_pair(other, semi))
}

/// Stops at a name that a cat doesn't declare.
fn find_unknown_member(own: &Cat<Name>, name: &Name) -> Result<(), Stop>
    ensures { Stops result (unknown_in own.now name.now) }
{
    refuse(is_undeclared(member(own, name)), name.line)
}

/// The first method of the certificate of this number.
pub(crate) fn at_first(
    check: Check,
    own: &Cat<Name>,
    number: usize,
    semi: &Semi<Name>,
) -> Result<(), Stop>
    requires { number ≤ length own.now.semis }
    ensures { Stops result (test_of check (First own.now number semi.now)) }
{
    let name = &semi.first;
    let semis = own.semis.as_slice();
    match check {
        Check::Twice => refuse(is_repeated(&semis[..number], semi), name.line),
        Check::Unknown => find_unknown_member(own, name),
        Check::WrongKind => refuse(is_not_method(own, member(own, name)), name.line),
        Check::Count => refuse(number == 64, name.line),
        Check::WrongType | Check::Arguments => Ok(()),
    }
}

/// The second method of a certificate.
pub(crate) fn at_second(check: Check, own: &Cat<Name>, name: &Name) -> Result<(), Stop>
    ensures { Stops result (test_of check (Second own.now name.now)) }
{
    match check {
        Check::Unknown => find_unknown_member(own, name),
        Check::WrongKind => refuse(is_not_total_method(own, member(own, name)), name.line),
        Check::Twice | Check::WrongType | Check::Arguments | Check::Count => Ok(()),
    }
}

fn is_same_hint(a: &Hint<Name>, b: &Hint<Name>) -> bool
    ensures { result ≡ same_hint a.now b.now }
{
    a.front == b.front && a.name.is_same(&b.name)
}

/// Whether a hint has the side and the variable of one of these.
fn is_hinted(hints: &[Hint<Name>], hint: &Hint<Name>) -> bool
    ensures { result ≡ list_any (λ g. same_hint g hint.now) hints.now }
{
    hints.iter().any(|other| is_same_hint(other, hint))
}

/// Whether what a cat declares is no seq variable.
fn takes_no_hint(meaning: Meaning) -> bool
    ensures { result ≡ has_no_hint meaning }
{
    match meaning {
        Meaning::Variable { kind, .. } => match kind {
            Kind::Int => true,
            Kind::Bool => true,
            Kind::Seq => false,
        },
        Meaning::GivenBox(_) => true,
        Meaning::Procedure(_) => true,
        Meaning::Slot { .. } => true,
        Meaning::Nothing => false,
    }
}

/// The hint of this number of a certificate.
pub(crate) fn at_hint(
    check: Check,
    own: &Cat<Name>,
    semi: &Semi<Name>,
    number: usize,
    hint: &Hint<Name>,
) -> Result<(), Stop>
    requires { number ≤ length semi.now.hints }
    ensures { Stops result (test_of check (HintName own.now semi.now number hint.now)) }
{
    let name = &hint.name;
    let hints = semi.hints.as_slice();
    match check {
        Check::Twice => refuse(is_hinted(&hints[..number], hint), name.line),
        Check::Unknown => find_unknown_member(own, name),
        Check::WrongKind => refuse(takes_no_hint(member(own, name)), name.line),
        Check::Count => refuse(4 < hint.depth, hint.line),
        Check::WrongType | Check::Arguments => Ok(()),
    }
}

/// How many of these procedures are actions.
#[tactic(auto, using(crate::proofs::Numbers::counting))]
fn actions_among(procs: &[Proc<Name>]) -> u64
    ensures count { result ≡ count_by (λ q. is_action q.form) procs.now }
    ensures within { result < 2 ^ 63 }
{
    let mut count = 0u64;
    for proc in procs {
        if is_action_form(&proc.form) {
            count += 1;
        }
    }
    count
}

/// How many actions a box of a cat has.
fn actions_of_cat(cat: Option<&Cat<Name>>) -> u64
    ensures count { result ≡ actions_in (option_copied cat.entry) }
    ensures within { result < 2 ^ 63 }
{
    match cat {
        Some(cat) => actions_among(cat.procs.as_slice()),
        None => 0,
    }
}

/// How many actions boxes have together, or 257 where there are more.
fn actions_of_boxes(cats: &[Cat<Name>], boxes: &[BoxDecl]) -> u64
    ensures { result ≡ min 257 (actions_of cats.now boxes.now) }
{
    let mut count = 0;
    for declared in boxes {
        count = (count + actions_of_cat(cat_named(cats, &declared.cat))).min(257);
    }
    count
}

/// Whether the actions pass their limit at this box.
fn passes_actions(cats: &[Cat<Name>], before: &[BoxDecl], declared: &BoxDecl) -> bool
    ensures { result ≡ passes cats.now before.now declared.now }
{
    let count = actions_of_boxes(cats, before);
    count < 257 && 256 < count + actions_of_cat(cat_named(cats, &declared.cat))
}

/// The name of the box of this number.
pub(crate) fn at_box_name(
    check: Check,
    cats: &[Cat<Name>],
    boxes: &[BoxDecl],
    number: usize,
    declared: &BoxDecl,
) -> Result<(), Stop>
    requires { number ≤ length boxes.now }
    ensures { Stops result (test_of check (BoxName cats.now boxes.now number declared.now)) }
{
    let name = &declared.name;
    match check {
        Check::Twice => refuse(is_among(&boxes[..number], name), name.line),
        Check::Count => {
            let passed = number == 128 || passes_actions(cats, &boxes[..number], declared);
            refuse(passed, name.line)
        }
        Check::Unknown | Check::WrongKind | Check::WrongType | Check::Arguments => Ok(()),
    }
}

/// Whether a known cat is given another number of boxes.
fn is_given_another_number(cat: Option<&Cat<Name>>, count: u64) -> bool
    ensures { result ≡ is_another (option_map (λ c. length c.given) (option_copied cat.entry)) count }
{
    match cat {
        Some(cat) => cat.given.len() != count,
        None => false,
    }
}

/// The cat of a box.
pub(crate) fn at_box_cat(check: Check, cats: &[Cat<Name>], declared: &BoxDecl) -> Result<(), Stop>
    ensures { Stops result (test_of check (BoxCat cats.now declared.now)) }
{
    let name = &declared.cat;
    match check {
        Check::Unknown => find_unknown_cat(cats, name),
        Check::Arguments => {
            let cat = cat_named(cats, name);
            refuse(
                is_given_another_number(cat, declared.given.len()),
                name.line,
            )
        }
        Check::Twice | Check::WrongKind | Check::WrongType | Check::Count => Ok(()),
    }
}

/// The cat that a box of this cat wants as its given box of this number.
fn cat_wanted<'a>(cats: &'a [Cat<Name>], cat: &Name, number: usize) -> Option<&'a Name>
    ensures { option_copied result ≡ wanted_cat cats.now cat.now number }
{
    let cat = cat_named(cats, cat)?;
    let given = cat.given.as_slice().get(number)?;
    Some(&given.cat)
}

/// The cat of the box of this name.
fn cat_of_named<'a>(boxes: &'a [BoxDecl], name: &Name) -> Option<&'a Name>
    ensures { option_copied result ≡ cat_of_box boxes.now name.now }
{
    let declared = first_named(boxes, name)?;
    Some(&declared.cat)
}

/// Whether a known cat isn't the one wanted.
fn is_different_cat(wanted: Option<&Name>, cat: Option<&Name>) -> bool
    ensures { result ≡ is_other_cat (option_copied wanted.entry) (option_copied cat.entry) }
{
    match wanted {
        Some(wanted) => match cat {
            Some(cat) => !wanted.is_same(cat),
            None => false,
        },
        None => false,
    }
}

/// Stops at the name of a box that isn't declared.
fn find_unknown_box(boxes: &[BoxDecl], name: &Name) -> Result<(), Stop>
    ensures { Stops result (unknown_box boxes.now name.now) }
{
    refuse(!is_among(boxes, name), name.line)
}

/// The box of this number among those that a box is given.
pub(crate) fn at_box_given(
    check: Check,
    tree: &Tree,
    declared: &BoxDecl,
    number: usize,
    name: &Name,
) -> Result<(), Stop>
    ensures { Stops result (test_of check (BoxGiven tree.now.cats tree.now.boxes declared.now number
        name.now)) }
{
    let boxes = tree.boxes.as_slice();
    match check {
        Check::Unknown => find_unknown_box(boxes, name),
        Check::WrongType => {
            let wanted = cat_wanted(tree.cats.as_slice(), &declared.cat, number);
            refuse(
                is_different_cat(wanted, cat_of_named(boxes, name)),
                name.line,
            )
        }
        Check::Twice | Check::WrongKind | Check::Arguments | Check::Count => Ok(()),
    }
}

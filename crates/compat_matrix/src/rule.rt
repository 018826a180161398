//! The rule: the level of two procedures of one box, by their effects.

ghost use Rattle.std.specs.Prelude.{◌≡◌};
ghost use Rattle.compat_matrix.specs.Rules.{shares, tests_written, may_be_late, keeps_apart, ruled};

use crate::Part;
use crate::member::Member;
use seuss_base::Level;

/// The level of two procedures of one box, where `certified` is the level of the certificate that names
/// both, and never where there is none.
pub(crate) fn rule(first: &Member, second: &Member, certified: Level) -> Level
    ensures { result ≡ ruled first.now second.now certified }
{
    if tests_written(first, second) {
        Level::Never
    } else if !may_be_late(second) || keeps_apart(first, second) {
        Level::Firm
    } else {
        certified
    }
}

/// Whether the first one tests, in the line, what the second one writes.
fn tests_written(first: &Member, second: &Member) -> bool
    ensures { result ≡ tests_written first.now second.now }
{
    first.part == Part::Line
        && first.effects.has_early
        && shares(first.effects.tests, second.effects.writes)
}

/// Whether a procedure may be late: in the tail, or behind calls.
fn may_be_late(member: &Member) -> bool
    ensures { result ≡ may_be_late member.now }
{
    member.part == Part::Tail || member.effects.has_late
}

/// Whether neither writes what the other one reads or writes.
fn keeps_apart(first: &Member, second: &Member) -> bool
    ensures { result ≡ keeps_apart first.now second.now }
{
    !shares(first.effects.writes, second.effects.reads)
        && !shares(first.effects.writes, second.effects.writes)
        && !shares(second.effects.writes, first.effects.reads)
}

/// Whether two sets of variables have one in common.
fn shares(left: u32, right: u32) -> bool
    ensures { result ≡ shares left right }
{
    left & right != 0
}

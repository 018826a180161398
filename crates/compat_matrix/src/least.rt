//! The least level of the procedures of two actions.

ghost use Rattle.std.specs.Prelude.{◌≡◌, [], ◌∷◌, slice_get};
ghost use Rattle.seuss_base.specs.declared.level.Level.TheVariants.{Firm};
ghost use Rattle.method_code.specs.Codes.{cat_number as number_of_cat};
ghost use Rattle.compat_matrix.specs.Certificates.{names as names_both, levels_of};
ghost use Rattle.compat_matrix.specs.Leasts.{IsLeast, IsLower, between};

use crate::certificate::Certificate;
use crate::member::Member;
use crate::rule::rule;
use seuss_base::Level;
use seuss_program::Program;

/// The least level of the members of two actions that stand on one box, and firm where there are none.
pub(crate) fn least(
    program: &Program,
    certificates: &[Certificate],
    xs: &[Member],
    ys: &[Member],
) -> Level
    ensures { IsLeast program.now (levels_of certificates.now) xs.now ys.now result }
{
    let mut level = Level::Firm;
    for x in xs {
        level = lower(level, least_of(program, certificates, x, ys));
    }
    level
}

/// The least level of one member beside those of another action.
fn least_of(program: &Program, certificates: &[Certificate], x: &Member, ys: &[Member]) -> Level
    ensures { IsLeast program.now (levels_of certificates.now) (x.now ∷ []) ys.now result }
{
    let mut level = Level::Firm;
    for y in ys {
        level = lower(level, beside(program, certificates, x, y));
    }
    level
}

/// The level of two members, which is firm where they stand on different boxes.
fn beside(program: &Program, certificates: &[Certificate], x: &Member, y: &Member) -> Level
    ensures { IsLeast program.now (levels_of certificates.now) (x.now ∷ []) (y.now ∷ []) result }
{
    if x.box_number == y.box_number {
        rule(x, y, certified(program, certificates, x, y))
    } else {
        Level::Firm
    }
}

/// The level of the certificate that names the procedures of two members, and never where there is none.
fn certified(program: &Program, certificates: &[Certificate], x: &Member, y: &Member) -> Level
    ensures { result ≡ between program.now (levels_of certificates.now) x.now y.now }
{
    level_of(
        certificates,
        cat_number(program, x.box_number),
        x.procedure,
        y.procedure,
    )
}

/// The number of the cat of a box.
fn cat_number(program: &Program, box_number: u32) -> u32
    ensures { result ≡ number_of_cat (slice_get program.now.boxes box_number) }
{
    match program.boxes.get(box_number as u64) {
        Some(info) => info.cat,
        None => 0,
    }
}

/// The level of the first certificate that names both.
fn level_of(certificates: &[Certificate], cat: u32, first: u32, second: u32) -> Level
    ensures { result ≡ levels_of certificates.now cat first second }
{
    for certificate in certificates {
        if names(certificate, cat, first, second) {
            return certificate.level;
        }
    }
    Level::Never
}

/// Whether a certificate of a cat names both.
fn names(certificate: &Certificate, cat: u32, first: u32, second: u32) -> bool
    ensures { result ≡ names_both certificate.now cat first second }
{
    certificate.cat == cat && certificate.first == first && certificate.second == second
}

fn lower(one: Level, other: Level) -> Level
    ensures { IsLower one other result }
{
    if one.is_at_least(other) { other } else { one }
}

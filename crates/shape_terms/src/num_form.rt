//! Number forms: sums modulo 2^64 of a number, atoms and lengths of unknown rests.

ghost use Rattle.std.specs.Prelude.{◌≡◌, ◌≢◌, ℕ, ℤ, ◌↔◌, IfOk, Ok, IsTrue, MatchOption};
ghost use Rattle.std.specs.Int.{w64};
ghost use Rattle.std.specs.Int.RustNames.{FitsSigned};
ghost use Rattle.seuss_program.specs.Values.{apply, measure};
ghost use Rattle.seuss_program.specs.declared.tree.Op.TheVariants.{WrapPlus, WrapMinus};
ghost use Rattle.seuss_program.specs.declared.tree.Fun.TheVariants.{Len};
ghost use Rattle.seuss_program.specs.declared.state.Value.TheVariants.{Int};
ghost use Rattle.shape_terms.specs.declared.apart.Apart.TheVariants.{Rest as AtRest};
ghost use Rattle.shape_terms.specs.Points.{point_of, Point, HasNumbers, TellsApart};
ghost use Rattle.shape_terms.specs.Numbers.{number, number as number_of, atom, rest_len, literal, plus};
ghost use Rattle.shape_terms.specs.Numbers.{minus};
ghost use Rattle.shape_terms.specs.Numbers.{forms_with, literal_of};
ghost use Rattle.shape_terms.specs.Rows.{Differs, SaysLiteral, part_at};

use crate::apart::Apart;
use crate::rows;
use seuss_base::{List, Memory};
use std::alloc::Global;

/// A number of a case: a sum of a number, of atoms and of lengths of unknown rests, each some times,
/// modulo 2^64.
#[derive(Debug, Drop)]
pub struct NumForm {
    constant: i64,
    atoms: List<i64>,
    lengths: List<i64>,
}

impl NumForm {
    /// An atom, which stands for any number.
    pub fn atom(alloc: Global, number: u32) -> Result<NumForm, Memory>
        ensures form { IfOk result (λ form. form ≡ atom number) }
        ensures value { IfOk result
            (λ form. (p : Point) → HasNumbers p → number_of form p ≡ p.atoms number) }
    {
        Ok(NumForm {
            constant: 0,
            atoms: rows::unit(alloc, number)?,
            lengths: List::new(alloc),
        })
    }

    /// The length of an unknown rest.
    pub fn rest_len(alloc: Global, rest: u32) -> Result<NumForm, Memory>
        ensures form { IfOk result (λ form. form ≡ rest_len rest) }
        ensures value { IfOk result
            (λ form. (p : Point) → measure Len (p.rests rest) ≡ Ok (Int (number_of form p))) }
    {
        Ok(NumForm {
            constant: 0,
            atoms: List::new(alloc),
            lengths: rows::unit(alloc, rest)?,
        })
    }

    /// A number and the length of an unknown rest.
    pub(crate) fn longer(alloc: Global, rest: u32, shown: i64) -> Result<NumForm, Memory>
        ensures { IfOk result (λ form. form ≡ record (rest_len rest) { constant = shown }) }
    {
        Ok(NumForm {
            constant: shown,
            atoms: List::new(alloc),
            lengths: rows::unit(alloc, rest)?,
        })
    }

    /// A number.
    pub fn literal(alloc: Global, value: i64) -> Result<NumForm, Memory>
        ensures form { IfOk result (λ form. form ≡ literal value) }
        ensures value { IfOk result (λ form. (p : Point) → number_of form p ≡ value) }
    {
        Ok(NumForm {
            constant: value,
            atoms: List::new(alloc),
            lengths: List::new(alloc),
        })
    }

    /// The form of `&+`.
    pub fn plus(&self, alloc: Global, other: &NumForm) -> Result<NumForm, Memory>
        ensures form { IfOk result (λ sum. sum ≡ plus self.now other.now) }
        ensures value { IfOk result (λ sum. (p : Point) →
            apply WrapPlus (Int (number self.now p)) (Int (number other.now p)) ≡ Ok (Int (number sum p))) }
    {
        self.with_times(alloc, 1, other)
    }

    /// The form of `&-`.
    pub fn minus(&self, alloc: Global, other: &NumForm) -> Result<NumForm, Memory>
        ensures form { IfOk result (λ difference. difference ≡ minus self.now other.now) }
        ensures value { IfOk result (λ difference. (p : Point) →
            apply WrapMinus (Int (number self.now p)) (Int (number other.now p))
            ≡ Ok (Int (number difference p))) }
    {
        self.with_times(alloc, -1, other)
    }

    fn with_times(&self, alloc: Global, k: i64, other: &NumForm) -> Result<NumForm, Memory>
        ensures { IfOk result (λ form. form ≡ forms_with k self.now other.now) }
    {
        let atoms = rows::rows_with(alloc, k, &self.atoms, &other.atoms)?;
        let lengths = rows::rows_with(alloc, k, &self.lengths, &other.lengths)?;
        Ok(NumForm {
            constant: rows::with_times(k, self.constant, other.constant),
            atoms,
            lengths,
        })
    }

    /// An equal form of its own.
    pub fn copy(&self, alloc: Global) -> Result<NumForm, Memory>
        ensures { IfOk result (λ form. form ≡ self.now) }
    {
        let atoms = rows::copy(alloc, &self.atoms)?;
        let lengths = rows::copy(alloc, &self.lengths)?;
        Ok(NumForm {
            constant: self.constant,
            atoms,
            lengths,
        })
    }

    /// The number that the form is, where it has neither atoms nor lengths.
    pub fn as_literal(&self) -> Option<i64>
        ensures form { result ≡ literal_of self.now }
        ensures value { SaysLiteral self.now result }
    {
        let atoms = rows::is_zero(&self.atoms);
        let lengths = rows::is_zero(&self.lengths);
        rows::literal_if(atoms, lengths, self.constant())
    }

    fn constant(&self) -> i64
        ensures value { result ≡ self.now.constant }
        ensures fits { FitsSigned w64 self.now.constant }
    {
        self.constant
    }

    fn constants_differ(&self, other: &NumForm) -> bool
        ensures { Differs result self.now.constant other.now.constant }
    {
        self.constant != other.constant
    }

    /// Where the forms differ, if they do anywhere.
    pub fn tell_apart(&self, other: &NumForm) -> Option<Apart>
        ensures { TellsApart (number self.now) (number other.now) result }
    {
        let constants = self.constants_differ(other);
        let atoms = rows::rows_apart(&self.atoms, &other.atoms);
        let lengths = rows::rows_apart(&self.lengths, &other.lengths);
        rows::first_apart(constants, atoms, lengths)
    }

    /// Whether the forms are equal at every point.
    pub fn same(&self, other: &NumForm) -> bool
        ensures equal { IsTrue result → (p : Point) → number self.now p ≡ number other.now p }
        ensures only { ((p : Point) → HasNumbers p → number self.now p ≡ number other.now p) →
            IsTrue result }
    {
        self.tell_apart(other).is_none()
    }

    /// What the form stands for where forms are told apart.
    pub fn value_at(&self, at: &Apart) -> i64
        ensures { result ≡ number_of self.now (point_of at.now) }
    {
        rows::sum(self.constant(), self.part_at(at))
    }

    fn part_at(&self, at: &Apart) -> i64
        ensures { result ≡ part_at self.now at.now }
    {
        match at {
            Apart::Zero => 0,
            Apart::Atom(at) => rows::coefficient(&self.atoms, *at),
            Apart::Rest(at, _) => rows::coefficient(&self.lengths, *at),
            Apart::Truth(_) => 0,
        }
    }

    /// A number that the form isn't where a rest has one number and all else is 0.
    pub(crate) fn other_than(&self, rest: u32) -> i64
        ensures { (x : ℤ) → number_of self.now (point_of (AtRest rest x)) ≢ result }
    {
        let there = self.value_at(&Apart::Rest(rest as u64, 0));
        rows::other(there)
    }
}

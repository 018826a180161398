//! Why something is refused, and the line that says so.

ghost use Rattle.std.specs.Prelude.{◌≡◌, ◌++◌, IfOk, OnOk};
ghost use Rattle.report_text.specs.Refusals.{kind_of, line_of, place_text, refusal as refusal_line};

use crate::numbers::push_number;
use seuss_base::{Memory, Text};
use std::alloc::Global;

/// Why a program, its input, its properties or a command's words are refused. A number is the line of the
/// place that is refused, from 1.
#[derive(Clone, Copy, Debug, PartialEq, Eq)]
pub enum Refused {
    /// More bytes than are read: of a program, of its input, or of both together.
    Long,
    /// A byte that begins no token.
    Byte(u32),
    /// A number above the greatest one, or a name longer than 32 bytes.
    Range(u32),
    /// A token with which no program goes on, or a text that ends too early.
    Syntax(u32),
    /// Too many operators and brackets in an expression, or too many open blocks.
    Nesting(u32),
    /// A name that is declared twice, or a certificate or a hint that stands twice.
    Twice(u32),
    /// A name that is not declared where it is used.
    Unknown(u32),
    /// A name that is declared as something else.
    WrongKind(u32),
    /// An expression, a result or a given box of another type than is wanted.
    WrongType(u32),
    /// A call or a box with another number of arguments than is declared.
    Arguments(u32),
    /// An item that passes a limit.
    Count(u32),
    /// A call of a partial method in a body.
    PartialCall(u32),
    /// A call of a total method before a body.
    TotalCall(u32),
    /// A box that leads back to itself over the boxes that it is given.
    Cycle(u32),
    /// A word of the input that is no number of 64 bits.
    Input(u32),
    /// A text that is no list of properties of the program.
    Property(u32),
    /// A certificate that does not hold: from some state the two orders of its methods differ.
    CertificateNo(u32),
    /// A certificate of which the cases of its methods do not tell whether it holds.
    CertificateUnclear(u32),
    /// More attempts than a run may have.
    Attempts,
    /// An action that the program does not have.
    Action,
}

impl Refused {
    /// The word of this refusal.
    fn kind(self) -> &'static [u8]
        ensures { result.now ≡ kind_of self }
    {
        match self {
            Refused::Long => b"long",
            Refused::Byte(_) => b"byte",
            Refused::Range(_) => b"range",
            Refused::Syntax(_) => b"syntax",
            Refused::Nesting(_) => b"nesting",
            Refused::Twice(_) => b"twice",
            Refused::Unknown(_) => b"unknown",
            Refused::WrongKind(_) => b"kind",
            Refused::WrongType(_) => b"type",
            Refused::Arguments(_) => b"arguments",
            Refused::Count(_) => b"count",
            Refused::PartialCall(_) => b"partial_call",
            Refused::TotalCall(_) => b"total_call",
            Refused::Cycle(_) => b"cycle",
            Refused::Input(_) => b"input",
            Refused::Property(_) => b"property",
            Refused::CertificateNo(_) => b"certificate_no",
            Refused::CertificateUnclear(_) => b"certificate_unclear",
            Refused::Attempts => b"attempts",
            Refused::Action => b"action",
        }
    }

    /// The line that this refusal stands at, where it has one.
    fn line(self) -> Option<u32>
        ensures { result ≡ line_of self }
    {
        match self {
            Refused::Byte(n)
            | Refused::Range(n)
            | Refused::Syntax(n)
            | Refused::Nesting(n)
            | Refused::Twice(n)
            | Refused::Unknown(n)
            | Refused::WrongKind(n)
            | Refused::WrongType(n)
            | Refused::Arguments(n)
            | Refused::Count(n)
            | Refused::PartialCall(n)
            | Refused::TotalCall(n)
            | Refused::Cycle(n)
            | Refused::Input(n)
            | Refused::Property(n)
            | Refused::CertificateNo(n)
            | Refused::CertificateUnclear(n) => Some(n),
            Refused::Long | Refused::Attempts | Refused::Action => None,
        }
    }
}

/// Puts the place of a refusal at the end, where it has one.
fn push_place(text: &mut Text, line: Option<u32>) -> Result<(), Memory>
    ensures { OnOk result (text.new ≡ text.old ++ place_text line) }
{
    if let Some(line) = line {
        text.push_all(b" line ")?;
        push_number(text, line as u64)?;
    }
    Ok(())
}

/// The line of a refusal: `refused KIND`, or `refused KIND line N` where it has a line. Want
/// of memory is the only error.
pub fn refusal_text(alloc: Global, refusal: &Refused) -> Result<Text, Memory>
    ensures { IfOk result (λ text. text ≡ refusal_line refusal.now) }
{
    let mut text = Text::new(alloc);
    text.push_all(b"refused ")?;
    text.push_all(refusal.kind())?;
    push_place(&mut text, refusal.line())?;
    text.push(b'\n')?;
    Ok(text)
}

//! Keywords and signs.

/// A keyword or a sign.
#[derive(Clone, Copy, Debug, PartialEq, Eq)]
pub enum Symbol {
    Seuss,
    Cat,
    Box,
    Var,
    Total,
    Partial,
    Action,
    Is,
    When,
    Let,
    If,
    Then,
    Else,
    While,
    Do,
    End,
    Semi,
    Int,
    Bool,
    Seq,
    True,
    False,
    And,
    Or,
    Not,
    First,
    Last,
    Rest,
    Front,
    Back,
    Len,
    At,
    Add,
    /// `:=`
    Assign,
    /// `->`
    Arrow,
    /// `~>`
    NegativeArrow,
    /// `<>`
    NotEqual,
    /// `<=`
    LessOrEqual,
    /// `>=`
    GreaterOrEqual,
    /// `&+`
    WrapPlus,
    /// `&-`
    WrapMinus,
    Colon,
    Semicolon,
    Comma,
    Dot,
    Open,
    Close,
    OpenSquare,
    CloseSquare,
    Equal,
    Less,
    Greater,
    Plus,
    Minus,
    Times,
    Divide,
    Remainder,
    /// None of these: no token has such a text.
    Other,
}

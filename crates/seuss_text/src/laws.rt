//! Laws of tokens: a text has one list of them, or one fault.

ghost use Rattle.std.specs.Prelude.{◌≡◌, ℕ, List, All, length, Some};
ghost use Rattle.seuss_text.specs.Words.{kind_of};
ghost use Rattle.seuss_text.specs.Rows.{AreTokens, RiseFrom, token_text};
ghost use Rattle.seuss_text.specs.Limits.{AreInLimits};
ghost use Rattle.seuss_text.specs.Refusals.{BadByteAt, RangeAt};
ghost use Rattle.seuss_text.specs.declared.token.Token.{Token as Word};

/// A text has one list of tokens at most.
pub fn one_reading()
    ensures { (text : List ℕ) (xs ys : List Word) → AreTokens text xs → AreTokens text ys → xs ≡ ys }
{}

/// The tokens of a text rise, and lie within it.
pub fn tokens_rise()
    ensures { (text : List ℕ) (tokens : List Word) → AreTokens text tokens →
        RiseFrom 0 tokens (length text) }
{}

/// A token's text is of the token's kind.
pub fn tokens_have_kinds()
    ensures { (text : List ℕ) (tokens : List Word) → AreTokens text tokens →
        All (λ token. kind_of (token_text text token) ≡ Some token.kind) tokens }
{}

/// A text has one fault at most, and none where it has tokens within their limits.
pub fn one_fault()
    ensures bad_byte { (text : List ℕ) (m n : ℕ) → BadByteAt text m → BadByteAt text n → m ≡ n }
    ensures range { (text : List ℕ) (m n : ℕ) → RangeAt text m → RangeAt text n → m ≡ n }
    ensures one_kind { (text : List ℕ) (m n : ℕ) → BadByteAt text m → RangeAt text n → ⊥ }
    ensures no_bad_byte { (text : List ℕ) (tokens : List Word) (n : ℕ) → AreTokens text tokens →
        BadByteAt text n → ⊥ }
    ensures no_range { (text : List ℕ) (tokens : List Word) (n : ℕ) → AreTokens text tokens →
        AreInLimits text tokens → RangeAt text n → ⊥ }
{}

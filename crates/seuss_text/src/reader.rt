//! The tokens of a text, read one after the other.

ghost use Rattle.std.specs.Prelude.{◌≡◌, ◌+◌, ◌≤◌, ℕ, List, length, IfOk, IsErrOf, ◌↔◌};
ghost use Rattle.seuss_text.specs.Rows.{line_after, AreTokens, RiseFrom};
ghost use Rattle.seuss_text.specs.Limits.{AreInLimits, IsTooLong, max_text};
ghost use Rattle.seuss_text.specs.Reading.{Steps, Reads};
ghost use Rattle.seuss_text.specs.Refusals.{BadByteAt, RangeAt, Finds, Refuses};
ghost use Rattle.seuss_text.specs.declared.token.Token.{Token as Word};

use crate::gaps::{gap_len, line_feeds};
use crate::limits::{MAX_TEXT, is_in_limit};
use crate::words::front_word;
use crate::{TextRefusal, Token, Tokens};
use seuss_base::List as Items;
use std::alloc::Global;

/// The tokens of a text, or why it has none. The first fault of the text is answered, and before it
/// that the text is too long.
pub fn tokens(alloc: Global, text: &[u8]) -> Result<Tokens, TextRefusal>
    ensures read { IfOk result (λ found. AreTokens text.now found.list) }
    ensures within { IfOk result (λ found. AreInLimits text.now found.list) }
    ensures rising { IfOk result (λ found. RiseFrom 0 found.list (length text.now)) }
    ensures only { (xs : List Word) → length text.now ≤ max_text → AreTokens text.now xs →
        AreInLimits text.now xs → Finds result xs }

    // Of bad bytes and words past their limits the first one in the text is refused.
    ensures bad_byte { (line : ℕ) → result ≡ Err (TextRefusal.BadByte line) → BadByteAt text.now line }
    ensures bad_byte_only { (line : ℕ) → length text.now ≤ max_text → BadByteAt text.now line →
        Refuses result (TextRefusal.BadByte line) }
    ensures range { (line : ℕ) → result ≡ Err (TextRefusal.Range line) → RangeAt text.now line }
    ensures range_only { (line : ℕ) → length text.now ≤ max_text → RangeAt text.now line →
        Refuses result (TextRefusal.Range line) }
    ensures too_long { IsErrOf result TextRefusal.TooLong ↔ IsTooLong text.now }
{
    if text.len() > MAX_TEXT {
        return Err(TextRefusal::TooLong);
    }
    read(alloc, text)
}

/// The tokens of a text that isn't too long.
fn read(alloc: Global, text: &[u8]) -> Result<Tokens, TextRefusal>
    requires { length text.now ≤ max_text }
    ensures { Reads text.now result }
{
    let mut list = Items::new(alloc);
    let mut place = 0;
    let mut line = 1;
    while let Some(token) = next_token(&text[place as usize..], place, line)? {
        list.push(token)?;
        place = token.stop;
        line = token.line;
    }
    Ok(Tokens { list })
}

/// The next token of a text, of which `rest` is left from this place on, and on this line. None comes
/// where only a gap is left.
fn next_token(rest: &[u8], place: u64, line: u32) -> Result<Option<Token>, TextRefusal>
    requires short { place + length rest.now ≤ max_text }
    requires line { line ≤ 1 + place }
    ensures { (before : List ℕ) → place ≡ length before → line ≡ line_after before →
        Steps before rest.now result }
{
    let (gap, rest) = rest.split_at(gap_len(rest));
    let start = place + gap.len() as u64;
    let line = line + line_feeds(gap) as u32;
    if rest.is_empty() {
        return Ok(None);
    }
    let Some((kind, len)) = front_word(rest) else {
        return Err(TextRefusal::BadByte(line));
    };
    if !is_in_limit(kind, &rest[..len]) {
        return Err(TextRefusal::Range(line));
    }
    Ok(Some(Token {
        kind,
        start,
        stop: start + len as u64,
        line,
    }))
}

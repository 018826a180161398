//! White space and comments, and the lines in them.

ghost use Rattle.std.specs.Prelude.{◌≡◌, ◌≤◌, ◌==◌, false, length, drop, count_by};
ghost use Rattle.seuss_text.specs.Bytes.{line_feed};
ghost use Rattle.seuss_text.specs.Reading.{after_gap};

use crate::is_white;

/// How many bytes at the front are white space and comments.
pub(crate) fn gap_len(text: &[u8]) -> usize
    ensures within { result ≤ length text.now }
    ensures rest { drop result text.now ≡ after_gap text.now false }
{
    let mut in_comment = false;
    for (at, byte) in text.iter().enumerate() {
        if in_comment {
            in_comment = *byte != b'\n';
        } else if *byte == b'#' {
            in_comment = true;
        } else if !is_white(*byte) {
            return at;
        }
    }
    text.len()
}

/// How many line feeds there are.
pub(crate) fn line_feeds(text: &[u8]) -> usize
    ensures { result ≡ count_by (λ b. b == line_feed) text.now }
{
    text.iter().filter(|byte| **byte == b'\n').count()
}

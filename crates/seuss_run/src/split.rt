//! The program and the input among the bytes that were read.

ghost use Rattle.std.specs.Prelude.{◌≡◌, ℕ, ◌+◌, ◌-◌, ◌<◌, ◌≤◌, ◌≢◌, ◌⊎◌, ◌↔◌, List, [], ◌∷◌, ◌++◌, length};
ghost use Rattle.std.specs.Prelude.{slice_index, codes, IsTrue};
ghost use Rattle.seuss_run.specs.Splits.{IsSplit};

/// How many bytes the first line has, with its line feed where it has one.
fn line_len(bytes: &[u8]) -> usize
    requires { 0 < length bytes.now }
    ensures some { 0 < result }
    ensures within { result ≤ length bytes.now }
    ensures inside { (k : ℕ) → k + 1 < result → slice_index bytes.now k ≢ 10 }
    ensures ended { (slice_index bytes.now (result - 1) ≡ 10) ⊎ (result ≡ length bytes.now) }
{
    for (at, byte) in bytes.iter().enumerate() {
        if *byte == b'\n' {
            return at + 1;
        }
    }
    bytes.len()
}

/// Whether a line is `%%`, with or without its end.
fn is_marker(line: &[u8]) -> bool
    ensures { IsTrue result ↔ ((line.now ≡ codes "%%" ++ 10 ∷ [])
        ⊎ ((line.now ≡ codes "%%" ++ 13 ∷ 10 ∷ []) ⊎ (line.now ≡ codes "%%"))) }
{
    matches!(line, b"%%\n" | b"%%\r\n" | b"%%")
}

/// The bytes of the program and those of its input: the first line that is `%%` separates them.
/// Without such a line all is the program.
pub fn split(bytes: &[u8]) -> (&[u8], &[u8])
    ensures { IsSplit bytes.now result.0.now result.1.now }
{
    let mut start = 0;
    while start < bytes.len() {
        let (program, rest) = bytes.split_at(start);
        let (line, input) = rest.split_at(line_len(rest));
        if is_marker(line) {
            return (program, input);
        }
        start += line.len();
    }
    (bytes, &[])
}

/// Bytes are split in one way.
pub fn one_split()
    ensures { (bytes program other input behind : List ℕ) → IsSplit bytes program input →
        IsSplit bytes other behind → (program ≡ other) × (input ≡ behind) }
{}

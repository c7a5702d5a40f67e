//! The lines of a text, and the words of a line.

ghost use Rattle.std.specs.Prelude.{◌≡◌, [], ◌∷◌, ◌<◌, false, length, ◌≤◌, ◌==◌, position, MatchOption, IfSome, IfNone, OnSome};
ghost use Rattle.std.specs.List.{position_or_len, before_first, after_first};
ghost use Rattle.std.specs.Str.Lines.{lines, strip_carriage_return};
ghost use Rattle.scen_text.specs.Words.{begins_with_space, words};

/// The line without the carriage return before its line feed.
fn without_return(line: &[u8]) -> &[u8]
    ensures { result.now ≡ strip_carriage_return line.now }
{
    match line {
        [before @ .., b'\r'] => before,
        _ => line,
    }
}

/// The first place of a byte.
fn place_of(byte: u8, bytes: &[u8]) -> Option<usize>
    ensures { result ≡ position (λ b. b == byte) bytes.now }
{
    bytes.iter().position(|b| *b == byte)
}

/// What stands before the first place of a byte, and what stands behind it.
#[tactic(auto, using(crate::proofs::Cuts::place_none, crate::proofs::Cuts::place_some))]
pub fn cut_at(byte: u8, bytes: &[u8]) -> Option<(&[u8], &[u8])>
    ensures none { IfNone result (length bytes.now ≤ position_or_len (λ b. b == byte) bytes.now) }
    ensures within { OnSome result (position_or_len (λ b. b == byte) bytes.now < length bytes.now) }
    ensures before { IfSome result (λ found. found.0.now ≡ before_first (λ b. b == byte) bytes.now) }
    ensures behind { IfSome result (λ found. found.1.now ≡ after_first (λ b. b == byte) bytes.now) }
{
    match place_of(byte, bytes) {
        Some(end) => Some((&bytes[..end], &bytes[end + 1..])),
        None => None,
    }
}

/// The first line of a text, and the text after its line feed.
#[tactic(auto, using(crate::proofs::Cuts::lines_first, crate::proofs::Cuts::lines_last))]
pub fn first_line(text: &[u8]) -> Option<(&[u8], &[u8])>
    ensures lines { MatchOption result (lines text.now ≡ []) (λ found. lines text.now ≡ found.0.now ∷ lines found.1.now) }
    ensures shorter { IfSome result (λ found. length found.1.now < length text.now) }
{
    match cut_at(b'\n', text) {
        Some((line, rest)) => Some((without_return(line), rest)),
        None if text.is_empty() => None,
        None => Some((text, &[])),
    }
}

/// The line without the spaces that it begins with.
fn without_spaces(line: &[u8]) -> &[u8]
    ensures words { words result.now ≡ words line.now }
    ensures begins { begins_with_space result.now ≡ false }
{
    let mut rest = line;
    while let [b' ', after @ ..] = rest {
        rest = after;
    }
    rest
}

/// The first word of a line, and the line after it.
#[tactic(auto, using(crate::proofs::Cuts::words_first, crate::proofs::Cuts::words_last))]
pub fn first_word(line: &[u8]) -> Option<(&[u8], &[u8])>
    ensures { MatchOption result (words line.now ≡ []) (λ found. words line.now ≡ found.0.now ∷ words found.1.now) }
{
    let line = without_spaces(line);
    match cut_at(b' ', line) {
        Some((word, rest)) => Some((word, rest)),
        None if line.is_empty() => None,
        None => Some((line, &[])),
    }
}

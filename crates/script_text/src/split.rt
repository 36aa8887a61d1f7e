//! A text's first line, and a line's first word.
ghost use Rattle.std.specs.Prelude.{◌≡◌, ◌<◌, [], ◌∷◌, length, IfSome, IfNone};
ghost use Rattle.script_text.specs.Grammar.{lines_of, Lacks, IsParted};

/// What stands before the first such byte, and what stands after it. `None` where there is no such byte.
pub fn split_at_first(bytes: &[u8], byte: u8) -> Option<(&[u8], &[u8])>
    ensures none { IfNone result (Lacks bytes.now byte) }
    ensures some { IfSome result (λ parts. IsParted bytes.now byte parts.0.now parts.1.now) }
{
    let end = bytes.iter().position(|other| *other == byte)?;
    Some((&bytes[..end], &bytes[end + 1..]))
}

/// The first line of the text, without its byte 10, and the text after it. `None` where there is no line.
pub fn next_line(text: &[u8]) -> Option<(&[u8], &[u8])>
    ensures none { IfNone result (text.now ≡ []) }
    ensures cut { IfSome result (λ next. lines_of text.now ≡ next.0.now ∷ lines_of next.1.now) }
    ensures shorter { IfSome result (λ next. length next.1.now < length text.now) }
{
    if text.is_empty() {
        return None;
    }
    match split_at_first(text, b'\n') {
        Some((line, rest)) => Some((line, rest)),
        None => Some((text, &text[text.len()..])),
    }
}

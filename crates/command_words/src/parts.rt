//! The two parts of what `check` reads.
ghost use Rattle.command_words.specs.Commands.{HasParts};

use script_text::split_at_first;

/// The scripts, which stand before the first line that is exactly `account`, and the bytes after that line. Without such
/// a line all bytes are scripts.
pub fn parts_of(input: &[u8]) -> (&[u8], &[u8])
    ensures { HasParts input.now result.0.now result.1.now }
{
    let mut at = 0;
    while let Some((line, after)) = split_at_first(&input[at..], b'\n') {
        if line == b"account".as_slice() {
            return (&input[..at], after);
        }
        at += line.len() + 1;
    }
    if &input[at..] == b"account".as_slice() {
        return (&input[..at], &input[input.len()..]);
    }
    (input, &input[input.len()..])
}

//! A text in `"` of a query, rewritten in `'`.
use std::alloc::{AllocError, Global};

// A longer text is not repeated in a message.
const LONGEST: usize = 200;

// Printable ASCII, so that a message stays on its line.
fn is_shown(byte: u8) -> bool {
    (b' '..=b'~').contains(&byte)
}

// What stands between the quotes of a text in `"`. None of a text that is open, or not to be shown.
fn shown_inside(token: &[u8]) -> Option<&[u8]> {
    match token {
        [b'"', inside @ .., b'"'] => {
            let is_short = inside.len() <= LONGEST && inside.iter().all(|byte| is_shown(*byte));
            is_short.then_some(inside)
        }
        _ => None,
    }
}

/// The text in `'` with the same meaning as a text in `"`, both read with backslash escapes. An
/// example is `'say "it''s"'` for `"say \"it's\""`. None if the text is open, longer than 200 bytes
/// or not printable ASCII.
pub fn in_single_quotes(alloc: Global, token: &[u8]) -> Result<Option<String>, AllocError> {
    let Some(inside) = shown_inside(token) else {
        return Ok(None);
    };
    let mut text = String::from_str(alloc, "'")?;
    let mut is_escaped = false;
    for byte in inside {
        match *byte {
            b'\\' if !is_escaped => (),
            b'\'' if !is_escaped => text.push_str("''")?,
            letter => {
                if is_escaped && letter != b'"' {
                    text.push('\\')?;
                }
                text.push(char::from(letter))?;
            }
        }
        is_escaped = !is_escaped && *byte == b'\\';
    }
    text.push('\'')?;
    Ok(Some(text))
}

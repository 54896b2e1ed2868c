//! The forms of texts in messages: on one line, as JSON, and in GitHub annotations.
use mysql_values::show::Shown;
use std::alloc::{AllocError, Global};
use std::fmt;

// Whether a terminal shows no sign for the character, or its neighbours in another order: Unicode's
// control characters, separators of lines and paragraphs, and signs of direction (Cc, Zl, Zp and
// Bidi_Control).
fn is_hidden(letter: char) -> bool {
    matches!(
        letter,
        '\u{0}'..='\u{1f}'
            | '\u{7f}'..='\u{9f}'
            | '\u{61c}'
            | '\u{200e}'..='\u{200f}'
            | '\u{2028}'..='\u{202e}'
            | '\u{2066}'..='\u{2069}'
    )
}

// Whether a byte is a sign of ASCII or a space.
fn is_shown(byte: u8) -> bool {
    byte >= b' ' && byte <= b'~'
}

/// A text that stays on its line. Each control character, separator and sign of direction is shown
/// by its hexadecimal number, such as `\u{a}`.
#[derive(Clone, Copy)]
pub struct OnOneLine<'a>(pub &'a str);

impl fmt::Display for OnOneLine<'_> {
    fn fmt<W: fmt::Write>(&self, f: &mut fmt::Formatter<W>) -> fmt::Result {
        // Most texts have nothing to hide: then they are written at once.
        if self.0.as_bytes().iter().all(|byte| is_shown(*byte)) {
            return write!(f, "{}", self.0);
        }
        for letter in self.0.chars() {
            if is_hidden(letter) {
                write!(f, "\\u{{{:x}}}", letter as u32)?;
            } else {
                write!(f, "{letter}")?;
            }
        }
        Ok(())
    }
}

/// A name from a source: unchanged if it is UTF-8, else by its bytes.
#[derive(Clone, Copy)]
pub struct SourceName<'a>(pub &'a [u8]);

impl fmt::Display for SourceName<'_> {
    fn fmt<W: fmt::Write>(&self, f: &mut fmt::Formatter<W>) -> fmt::Result {
        match std::str::from_utf8(self.0) {
            Ok(text) => write!(f, "{text}"),
            Err(_) => write!(f, "{}", Shown(self.0)),
        }
    }
}

/// A text as a JSON string (RFC 8259, section 7).
pub fn json_text(alloc: Global, text: &str) -> Result<String, AllocError> {
    let mut told = String::from_str(alloc, "\"")?;
    for letter in text.chars() {
        match letter {
            '"' => told.push_str("\\\"")?,
            '\\' => told.push_str("\\\\")?,
            '\n' => told.push_str("\\n")?,
            _ if is_hidden(letter) => {
                let escape = format!(in alloc; "\\u{:04x}", letter as u32)?;
                told.push_str(escape.as_str())?
            }
            _ => told.push(letter)?,
        }
    }
    told.push_str("\"")?;
    Ok(told)
}

/// A text as the message of a GitHub annotation, which is on one line.
pub fn github_text(alloc: Global, text: &str) -> Result<String, AllocError> {
    let line = format!(in alloc; "{}", OnOneLine(text))?;
    let mut told = String::new(alloc);
    for letter in line.chars() {
        match letter {
            '%' => told.push_str("%25")?,
            _ => told.push(letter)?,
        }
    }
    Ok(told)
}

/// A text as a property of a GitHub annotation. A comma or a colon would end the property, so both
/// are escaped. A newline and a carriage return are escaped so that GitHub reads them back, since
/// the path has to name the file.
pub fn github_property(alloc: Global, text: &str) -> Result<String, AllocError> {
    let mut told = String::new(alloc);
    for letter in text.chars() {
        match letter {
            '%' => told.push_str("%25")?,
            '\n' => told.push_str("%0A")?,
            '\r' => told.push_str("%0D")?,
            ':' => told.push_str("%3A")?,
            ',' => told.push_str("%2C")?,
            _ if is_hidden(letter) => {
                let escape = format!(in alloc; "\\u{{{:x}}}", letter as u32)?;
                told.push_str(escape.as_str())?
            }
            _ => told.push(letter)?,
        }
    }
    Ok(told)
}

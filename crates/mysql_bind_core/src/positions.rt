//! The place of a byte in a text, as editors count.
ghost use Rattle.std.specs.Prelude.{◌≡◌, ◌+◌, ◌≤◌, length, take};
ghost use Rattle.mysql_bind_core.specs.Places.{line_after, column_after};

/// The line and the column of a byte of a text, both from 1. Columns count bytes.
pub fn line_and_column(text: &[u8], at: usize) -> (usize, usize)
    requires { at ≤ length text.now }
    ensures line { result.0 ≡ line_after (take at text.now) }
    ensures column { result.1 ≡ column_after (take at text.now) }
{
    let before = &text[..at];
    let mut line = 1;
    let mut column = 1;
    for byte in before {
        if *byte == b'\n' {
            line += 1;
            column = 1;
        } else {
            column += 1;
        }
    }
    (line, column)
}

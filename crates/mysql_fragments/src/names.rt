//! Names as identifiers in backquotes, written into a slice that has room for them.
ghost use Rattle.std.specs.Prelude.{◌≡◌, ◌+◌, ◌++◌, ◌≤◌, [], ◌∷◌, codes, length, map, take};
ghost use Rattle.mysql_fragments.specs.FilledText.{separator_before};
ghost use Rattle.mysql_fragments.specs.FragmentText.{columns_text, doubled, identifier_text, joined};

use mysql_binding::append_piece;

/// Writes columns with commas between them into the text from index `at` on, and returns the index
/// after them. The bytes before `at` are kept.
pub(crate) fn append_columns(text: &mut [u8], at: usize, columns: &[Vec<Vec<u8>>]) -> usize
    requires room { at + length (columns_text columns.now) ≤ length text.old }
    ensures next { result ≡ at + length (columns_text columns.now) }
    ensures front { take result text.new ≡ take at text.old ++ columns_text columns.now }
{
    let mut end = at;
    for (i, names) in columns.iter().enumerate() {
        end = append_separator(text, end, i, b", ");
        end = append_names(text, end, names.as_slice());
    }
    end
}

/// Writes names as identifiers with points between them into the text from index `at` on, and
/// returns the index after them. The bytes before `at` are kept.
pub(crate) fn append_names(text: &mut [u8], at: usize, names: &[Vec<u8>]) -> usize
    requires room { at + length (joined (codes ".")
        (map (λ name. identifier_text name.items) names.now)) ≤ length text.old }
    ensures next { result ≡ at + length (joined (codes ".")
        (map (λ name. identifier_text name.items) names.now)) }
    ensures front { take result text.new ≡ take at text.old
        ++ joined (codes ".") (map (λ name. identifier_text name.items) names.now) }
{
    let mut end = at;
    for (i, name) in names.iter().enumerate() {
        end = append_separator(text, end, i, b".");
        end = append_identifier(text, end, name.as_slice());
    }
    end
}

/// Writes a name as an identifier in backquotes, and returns the index after it.
pub(crate) fn append_identifier(text: &mut [u8], at: usize, name: &[u8]) -> usize
    requires room { at + length (identifier_text name.now) ≤ length text.old }
    ensures next { result ≡ at + length (identifier_text name.now) }
    ensures front { take result text.new ≡ take at text.old ++ identifier_text name.now }
{
    let start = append_piece(text, at, b"`");
    let end = append_doubled(text, start, name);
    append_piece(text, end, b"`")
}

// Writes a name with each backquote twice, and returns the index after it.
fn append_doubled(text: &mut [u8], at: usize, name: &[u8]) -> usize
    requires room { at + length (doubled name.now) ≤ length text.old }
    ensures next { result ≡ at + length (doubled name.now) }
    ensures front { take result text.new ≡ take at text.old ++ doubled name.now }
{
    let mut end = at;
    for b in name {
        end = append_byte(text, end, *b);
    }
    end
}

// Writes a byte of a name, a backquote twice, and returns the index after it.
fn append_byte(text: &mut [u8], at: usize, b: u8) -> usize
    requires room { at + length (doubled (b ∷ [])) ≤ length text.old }
    ensures next { result ≡ at + length (doubled (b ∷ [])) }
    ensures front { take result text.new ≡ take at text.old ++ doubled (b ∷ []) }
{
    if b == b'`' {
        append_piece(text, at, b"``")
    } else {
        append_piece(text, at, &[b])
    }
}

/// Writes the separator before the text of number `i`, except before the first, and returns the
/// index after it.
pub(crate) fn append_separator(text: &mut [u8], at: usize, i: usize, separator: &[u8]) -> usize
    requires room { at + length (separator_before separator.now i) ≤ length text.old }
    ensures next { result ≡ at + length (separator_before separator.now i) }
    ensures front { take result text.new ≡ take at text.old ++ separator_before separator.now i }
{
    if i == 0 {
        at
    } else {
        append_piece(text, at, separator)
    }
}

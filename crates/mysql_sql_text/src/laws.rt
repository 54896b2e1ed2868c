//! Laws about the definitions that the contracts cite. They do nothing: each is called for its
//! `ensures`.
ghost use Rattle.std.specs.Prelude.{◌≡◌, ℕ, ◌↔◌, ◌≤◌, ◌+◌, ◌*◌, ◌<◌, Bool, List, [], ◌∷◌, None, Some, codes, false, neg_ℤ, pos};
ghost use Rattle.mysql_sql_text.specs.StringUnits.{with_backslashes, without_backslashes};
ghost use Rattle.mysql_sql_text.specs.ReadLiteral.{byte_string, null, number, read_literal};
ghost use Rattle.mysql_sql_text.specs.TimeText.{IsTimeText, total_microseconds};
ghost use Rattle.mysql_sql_text.specs.LiteralText.{bytes_literal, time_text};
ghost use Rattle.mysql_sql_text.specs.ReadTimeText.{time_of_text};

/// Exactly the time texts are read, and each gives the values of its parts.
pub fn time_texts_are_read()
    ensures read { (text : List ℕ) (negative : Bool) (microseconds : ℕ) →
        (time_of_text text ≡ Some (negative, microseconds))
        ↔ IsTimeText text negative microseconds }
{}

/// A time that isn't negative, has up to 899 hours and its other fields in their usual ranges is
/// read back from its text as its microseconds.
pub fn times_read_back()
    ensures reads_back { (days hours minutes seconds microseconds : ℕ) →
        days * 24 + hours ≤ 899 → minutes ≤ 59 → seconds ≤ 59 → microseconds < 1000000 →
        time_of_text (time_text false days hours minutes seconds microseconds)
        ≡ Some (false, total_microseconds days hours minutes seconds microseconds) }
{}

/// The literal of each single byte is read as this byte, in both modes.
pub fn single_bytes_read_back()
    ensures reads_back { (mode : Bool) (b : ℕ) → b < 256 →
        read_literal mode (bytes_literal mode (b ∷ [])) ≡ Some (byte_string (b ∷ []), []) }
{}

/// The reading of the bytes after a backslash in a string.
pub fn escapes_read()
    ensures control { read_literal with_backslashes (codes "'\\0\\b\\t\\n\\r\\Z'")
        ≡ Some (byte_string (0 ∷ 8 ∷ 9 ∷ 10 ∷ 13 ∷ 26 ∷ []), []) }
    ensures quotes { read_literal with_backslashes (codes "'\\\\\\'\\\"' x")
        ≡ Some (byte_string (codes "\\'\""), codes " x") }
    // The backslash stays before `%` and `_`.
    ensures wildcards { read_literal with_backslashes (codes "'\\%\\_'")
        ≡ Some (byte_string (codes "\\%\\_"), []) }
    // It is ignored before a byte that makes no escape with it.
    ensures unknown { read_literal with_backslashes (codes "'\\q\\N\\z'")
        ≡ Some (byte_string (codes "qNz"), []) }
    ensures doubled { read_literal with_backslashes (codes "'a''b'")
        ≡ Some (byte_string (codes "a'b"), []) }
    ensures open { read_literal with_backslashes (codes "'a\\'") ≡ None }
    ensures ordinary { read_literal without_backslashes (codes "'\\b\\'''x")
        ≡ Some (byte_string (codes "\\b\\'"), codes "x") }
{}

/// The reading of numbers, hexadecimal digits and `NULL`.
pub fn numbers_read()
    ensures hexadecimal { (mode : Bool) → read_literal mode (codes "0xc3A9,")
        ≡ Some (byte_string (0xC3 ∷ 0xA9 ∷ []), codes ",") }
    ensures odd_digits { (mode : Bool) → read_literal mode (codes "0x0aF")
        ≡ Some (byte_string (10 ∷ []), codes "F") }
    ensures no_pair { (mode : Bool) → read_literal mode (codes "0x9")
        ≡ Some (number (pos 0), codes "x9") }
    ensures negative { (mode : Bool) → read_literal mode (codes "-0120a")
        ≡ Some (number (neg_ℤ (pos 120)), codes "a") }
    ensures no_number { (mode : Bool) → read_literal mode (codes "-x") ≡ None }
    ensures null { (mode : Bool) → read_literal mode (codes "NULLx") ≡ Some (null, codes "x") }
    ensures no_null { (mode : Bool) → read_literal mode (codes "null") ≡ None }
{}

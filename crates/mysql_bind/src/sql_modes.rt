//! The modes of `--sql-mode`.
use crate::complaint::{Complaint, Place, bad_word, unusable};
use mysql_bind_core::Literals;
use std::alloc::Global;

// The modes that `SELECT @@sql_mode` answers on MySQL 5.7 to 9 and MariaDB 10 to 12.
static MODES: [&str; 36] = [
    "ALLOW_INVALID_DATES",
    "ANSI",
    "ANSI_QUOTES",
    "DB2",
    "EMPTY_STRING_IS_NULL",
    "ERROR_FOR_DIVISION_BY_ZERO",
    "HIGH_NOT_PRECEDENCE",
    "IGNORE_BAD_TABLE_OPTIONS",
    "IGNORE_SPACE",
    "MAXDB",
    "MSSQL",
    "MYSQL323",
    "MYSQL40",
    "NO_AUTO_CREATE_USER",
    "NO_AUTO_VALUE_ON_ZERO",
    "NO_BACKSLASH_ESCAPES",
    "NO_DIR_IN_CREATE",
    "NO_ENGINE_SUBSTITUTION",
    "NO_FIELD_OPTIONS",
    "NO_KEY_OPTIONS",
    "NO_TABLE_OPTIONS",
    "NO_UNSIGNED_SUBTRACTION",
    "NO_ZERO_DATE",
    "NO_ZERO_IN_DATE",
    "ONLY_FULL_GROUP_BY",
    "ORACLE",
    "PAD_CHAR_TO_FULL_LENGTH",
    "PIPES_AS_CONCAT",
    "POSTGRESQL",
    "REAL_AS_FLOAT",
    "SIMULTANEOUS_ASSIGNMENT",
    "STRICT_ALL_TABLES",
    "STRICT_TRANS_TABLES",
    "TIME_ROUND_FRACTIONAL",
    "TIME_TRUNCATE_FRACTIONAL",
    "TRADITIONAL",
];

/// The literals for the mode of what a server answered.
pub fn literals_of_answer(alloc: Global, text: &str) -> Result<Literals, Complaint> {
    if text.is_empty() {
        return Err(bad_word(
            alloc,
            "--sql-mode is empty, as is the answer of a client that failed: give --mode",
        ));
    }
    if !text.split(',').all(|word| is_mode_word(word)) {
        return Err(bad_word(
            alloc,
            "--sql-mode is no list of modes as SELECT @@sql_mode answers it, such as \
             ANSI_QUOTES,STRICT_TRANS_TABLES: ask by `mysql -N`",
        ));
    }
    check_known(alloc, text)?;
    if has_mode(text, "ORACLE") {
        return Err(bad_word(
            alloc,
            "no text is written for the mode ORACLE, in which `||` and an empty text mean other \
             things: give --mode to write it all the same",
        ));
    }
    Ok(Literals::Plain {
        no_backslash_escape: has_mode(text, "NO_BACKSLASH_ESCAPES"),
    })
}

// Whether the word is one of a list that a server writes.
fn is_mode_word(word: &str) -> bool {
    !word.is_empty()
        && word.bytes().all(|byte| byte.is_ascii_uppercase()
            || byte.is_ascii_digit()
            || byte == b'_')
}

// Refuses the first word that is no mode.
fn check_known(alloc: Global, text: &str) -> Result<(), Complaint> {
    for word in text.split(',') {
        if !MODES.iter().any(|mode| *mode == word) {
            let what = format!(in alloc;
                "--sql-mode: `{word}` is no mode that a server answers: give what SELECT \
                 @@sql_mode answered, such as ANSI_QUOTES,STRICT_TRANS_TABLES, or --mode"
            )?;
            return Err(unusable(alloc, Place::Words, what));
        }
    }
    Ok(())
}

// Whether a mode is among those of `@@sql_mode`.
fn has_mode(text: &str, mode: &str) -> bool {
    text.split(',').any(|word| word == mode)
}

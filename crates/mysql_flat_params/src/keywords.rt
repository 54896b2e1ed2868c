//! The keywords that a form may have.
ghost use Rattle.std.specs.Prelude.{◌≡◌};
ghost use Rattle.mysql_params_core.specs.Referents.{referents};
ghost use Rattle.mysql_flat_params.specs.Keywords.{listed_keyword, word_of};

// These words.
const KEYWORDS: [&[u8]; 33] = [
    b"ASC",
    b"DESC",
    b"ALL",
    b"DISTINCT",
    b"AND",
    b"OR",
    b"XOR",
    b"NOT",
    b"NULL",
    b"IS NULL",
    b"IS NOT NULL",
    b"DEFAULT",
    b"TRUE",
    b"FALSE",
    b"LIKE",
    b"NOT LIKE",
    b"MICROSECOND",
    b"SECOND",
    b"MINUTE",
    b"HOUR",
    b"DAY",
    b"WEEK",
    b"MONTH",
    b"QUARTER",
    b"YEAR",
    b"LEFT",
    b"RIGHT",
    b"INNER",
    b"CROSS",
    b"UNION",
    b"UNION ALL",
    b"FOR UPDATE",
    b"LOCK IN SHARE MODE",
];

/// The text as one of the keywords that a form may have; empty if it isn't one of them.
pub(crate) fn listed_keyword(text: &[u8]) -> &'static [u8]
    ensures { result.now ≡ listed_keyword text.now }
{
    word_of(&KEYWORDS, text)
}

// The first of these words that is the text; empty if none is.
fn word_of(words: &[&'static [u8]], text: &[u8]) -> &'static [u8]
    ensures { result.now ≡ word_of (referents words.now) text.now }
{
    for word in words {
        if *word == text {
            return *word;
        }
    }
    b""
}

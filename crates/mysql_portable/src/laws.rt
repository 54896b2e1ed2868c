//! Laws about servers, portable queries, clients and steady texts, and about equality. A function
//! without a result does nothing: it is called for its `ensures`.
ghost use Rattle.std.specs.Prelude.{◌≡◌, ℕ, ◌<◌, ◌↔◌, Bool, List, [], ◌∷◌, codes, length, IsTrue};
ghost use Rattle.mysql_named_params.specs.Bytes.{dollar};
ghost use Rattle.mysql_named_params.specs.Tokens.{Token, IsTokens, BlockComment, QuotedString};
ghost use Rattle.mysql_named_params.specs.Places.{names, marks};
ghost use Rattle.mysql_named_params.specs.Positions.{positions};
ghost use Rattle.mysql_portable.specs.Portable.{AreReadAlike, IsReadAs};
ghost use Rattle.mysql_portable.specs.Server.{Server, IsReadOn, grammar};
ghost use Rattle.mysql_portable.specs.Quiet.{IsHonest, DecidesWithin};
ghost use Rattle.mysql_portable.specs.KnownServers.{mysql, mariadb, Reads, all_plain};
ghost use Rattle.mysql_portable.specs.Steady.{HoldNoEscapes, IsSteady};
ghost use Rattle.mysql_portable.specs.CharacterSet.{CharacterSet, seen};
ghost use Rattle.mysql_portable.specs.Client.{Client, IsReadBy, HoldNoOpener};
ghost use Rattle.mysql_portable.specs.Statements.{statements};

use crate::portable::Unportable;

/// If no string among the tokens has a backslash, they are the text's tokens in both modes, in the
/// grammar and on every server.
pub fn modes_agree()
    ensures tokens { (mode other : Bool) (text : List ℕ) (ts : List Token) → HoldNoEscapes ts →
        IsTokens mode text ts → IsTokens other text ts }
    ensures servers { (server : Server) (mode other : Bool) (text : List ℕ) (ts : List Token) →
        HoldNoEscapes ts → IsReadOn server mode text ts → IsReadOn server other text ts }
{}

/// A steady text has the same tokens in both modes, in the grammar and on every server. Every
/// character set shows it as it is. Steady means ASCII without a backslash.
pub fn steady_texts()
    ensures tokens { (mode other : Bool) (text : List ℕ) (ts : List Token) → IsSteady text →
        IsTokens mode text ts → IsTokens other text ts }
    ensures servers { (server : Server) (mode other : Bool) (text : List ℕ) (ts : List Token) →
        IsSteady text → IsReadOn server mode text ts → IsReadOn server other text ts }
    ensures seen { (set : CharacterSet) (text : List ℕ) → IsSteady text → seen set text ≡ text }
{}

/// Each query has exactly one token list on a server in a mode.
pub fn one_list_on_a_server()
    ensures unique { (server : Server) (mode : Bool) (query : List ℕ) (ts us : List Token) →
        IsReadOn server mode query ts → IsReadOn server mode query us → ts ≡ us }
    ensures some { (server : Server) (mode : Bool) (query : List ℕ) →
        (ts : List Token) × IsReadOn server mode query ts }
{}

/// The grammar is one of the servers.
pub fn grammar_is_a_server()
    ensures reads { (mode : Bool) (query : List ℕ) (ts : List Token) →
        IsTokens mode query ts → IsReadOn grammar mode query ts }
    ensures is_read { (mode : Bool) (query : List ℕ) (ts : List Token) →
        IsReadOn grammar mode query ts → IsTokens mode query ts }
{}

/// MySQL and MariaDB, as their manuals describe them, are honest in each version, and decide about
/// a quiet comment only by the comment. Three texts distinguish them from the grammar and from each
/// other:
/// - Only MariaDB reads `/*M!a*/`.
/// - The grammar reads `/*!99999a*/`. It is a comment to MariaDB, and to MySQL before that version.
/// - Only to MySQL is `$$a$$` one text in quotes.
pub fn known_servers()
    ensures mysql_is_honest { (version : ℕ) → IsHonest (mysql version) }
    ensures mariadb_is_honest { (version : ℕ) → IsHonest (mariadb version) }
    ensures mysql_decides_within { (version : ℕ) → DecidesWithin (mysql version) }
    ensures mariadb_decides_within { (version : ℕ) → DecidesWithin (mariadb version) }
    ensures grammar_skips { Reads grammar (codes "/*M!a*/") (BlockComment (codes "M!a*/") ∷ []) }
    ensures mysql_skips { (version : ℕ) →
        Reads (mysql version) (codes "/*M!a*/") (BlockComment (codes "M!a*/") ∷ []) }
    ensures mariadb_reads { (version : ℕ) →
        Reads (mariadb version) (codes "/*M!a*/") (all_plain (codes "/*M!a*/")) }
    ensures grammar_reads { Reads grammar (codes "/*!99999a*/") (all_plain (codes "/*!99999a*/")) }
    ensures mysql_skips_later { (version : ℕ) → version < 99999 →
        Reads (mysql version) (codes "/*!99999a*/") (BlockComment (codes "!99999a*/") ∷ []) }
    ensures mariadb_skips_later { (version : ℕ) →
        Reads (mariadb version) (codes "/*!99999a*/") (BlockComment (codes "!99999a*/") ∷ []) }
    ensures grammar_passes_dollars { Reads grammar (codes "$$a$$") (all_plain (codes "$$a$$")) }
    ensures mysql_quotes { (version : ℕ) →
        Reads (mysql version) (codes "$$a$$") (QuotedString dollar (codes "$a$$") ∷ []) }
    ensures mariadb_passes_dollars { (version : ℕ) →
        Reads (mariadb version) (codes "$$a$$") (all_plain (codes "$$a$$")) }
{}

/// If each token of a query passes its test, as those of a portable query do, every honest server
/// reads the grammar's tokens. It may differ in two points: it may read `--` before a newline as a
/// comment, and it has its own tokens in quiet comments. An honest server reads each quiet comment
/// or skips it whole.
pub fn portable_reading()
    ensures alike { (server : Server) (mode : Bool) (query : List ℕ) (ts us : List Token) →
        IsHonest server → IsTokens mode query ts → AreReadAlike ts → IsReadOn server mode query us →
        IsReadAs ts us }
{}

/// No weaker condition is enough: if every honest server reads a query like this, each of its
/// tokens passes its test. (A portable query also has no place directly after an exponent's sign,
/// which this doesn't need.)
pub fn portable_is_sharp()
    ensures sharp { (mode : Bool) (query : List ℕ) (ts : List Token) → IsTokens mode query ts →
        ((server : Server) (us : List Token) → IsHonest server → IsReadOn server mode query us →
        IsReadAs ts us) → AreReadAlike ts }
{}

/// A query whose tokens pass their tests, such as a portable one, has the same names and marks at
/// the same positions on every honest server.
pub fn same_places()
    ensures names { (server : Server) (mode : Bool) (query : List ℕ) (ts us : List Token) →
        IsHonest server → IsTokens mode query ts → AreReadAlike ts → IsReadOn server mode query us →
        names us ≡ names ts }
    ensures marks { (server : Server) (mode : Bool) (query : List ℕ) (ts us : List Token) →
        IsHonest server → IsTokens mode query ts → AreReadAlike ts → IsReadOn server mode query us →
        marks us ≡ marks ts }
    ensures positions { (server : Server) (mode : Bool) (query : List ℕ) (ts us : List Token) →
        IsHonest server → IsTokens mode query ts → AreReadAlike ts → IsReadOn server mode query us →
        positions us ≡ positions ts }
{}

/// A query whose tokens pass their tests has the same number of statements on every honest server.
pub fn same_statements()
    ensures count { (server : Server) (mode : Bool) (query : List ℕ) (ts us : List Token) →
        IsHonest server → IsTokens mode query ts → AreReadAlike ts → IsReadOn server mode query us →
        length (statements us) ≡ length (statements ts) }
{}

/// A client that keeps comments is one more server for each query whose tokens pass their tests, if
/// no block comment has `/*!`, `/*+` or `/*/`. It reads exactly the tokens that its server reads.
/// So the laws about servers hold for it.
pub fn client_is_a_server()
    ensures reads { (client : Client) (mode : Bool) (query : List ℕ) (ts us : List Token) →
        IsHonest client.reader → IsTokens mode query ts → AreReadAlike ts → HoldNoOpener ts →
        IsReadOn client.reader mode query us → IsReadBy client mode query us }
    ensures is_read { (client : Client) (mode : Bool) (query : List ℕ) (ts us : List Token) →
        IsHonest client.reader → IsTokens mode query ts → AreReadAlike ts → HoldNoOpener ts →
        IsReadBy client mode query us → IsReadOn client.reader mode query us }
{}

/// Values of [`Unportable`] are equal if and only if construct and position are.
pub fn unportable_equality(a: &Unportable, b: &Unportable) -> bool
    ensures same { IsTrue result ↔ (a.now ≡ b.now) }
    ensures member { result ≡ ⟦<Unportable as PartialEq>⟧.eq a.now b.now }
{
    a == b
}

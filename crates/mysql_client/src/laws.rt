//! Laws about what a client sends. A function without a result does nothing: it is called for its
//! `ensures`.
ghost use Rattle.std.specs.Prelude.{◌≡◌, ℕ, Bool, List, [], ◌∷◌, ◌++◌, codes, map, None, false, IsFalse};
ghost use Rattle.mysql_sql_text.specs.StringUnits.{with_backslashes};
ghost use Rattle.mysql_named_params.specs.Tokens.{Token, IsTokens};
ghost use Rattle.mysql_named_params.specs.TokensOf.{tokens_of};
ghost use Rattle.mysql_portable.specs.FirstUnportableInClient.{first_unportable_in_client};
ghost use Rattle.mysql_portable.specs.Statements.{statements};
ghost use Rattle.mysql_client.specs.ClientState.{Program, mariadb};
ghost use Rattle.mysql_client.specs.Sends.{begins_mark, sends};
ghost use Rattle.mysql_client.specs.PlainStatements.{past_space, bare_texts, HoldNoHint, HoldNoComment, has_return};
ghost use Rattle.mysql_client.specs.SentOtherwise.{IsSentOtherwiseBy, Sends};
ghost use Rattle.mysql_portable.specs.declared.portable.Construct.TheVariants as construct;
ghost use Rattle.mysql_client.specs.SentStatements.{sent_statements};

/// What a client sends of a text in which `first_unportable_in_client` finds nothing: the text's
/// statements, each as it is, without a command of the client.
pub fn portable_texts_are_sent()
    ensures sent { (p : Program) (mode : Bool) (text : List ℕ) (ts : List Token) →
        IsTokens mode text ts → first_unportable_in_client ts ≡ None →
        sends p mode text
        ≡ record { statements = sent_statements p ts; comes_to_command = false } }
{}

/// For each construct of a client a text in which it is found first, and which a client sends
/// otherwise. `ClientWord` and `DashInFront` are of MariaDB's client, to which `?` is the word
/// `help`. By `JoiningComment` the space that the client owes comes within a word: `/**/éa` is sent
/// as `/**/é a`. `DashesBeforeComment` changes nothing as long as a client keeps comments.
pub fn constructs_are_sharp()
    ensures zero_byte { (p : Program) →
        IsSentOtherwiseBy p (97 ∷ 0 ∷ []) construct.ZeroByte 1 }
    ensures opener_in_comment { (p : Program) →
        IsSentOtherwiseBy p (codes "/*/*!*/;5") construct.OpenerInComment 0 }
    ensures escaped_newline { (p : Program) →
        IsSentOtherwiseBy p (codes "'\\\n'") construct.EscapedNewline 0 }
    ensures backslash_at_end { (p : Program) →
        IsSentOtherwiseBy p (codes "'a\\") construct.EscapedNewline 0 }
    ensures delimiter { (p : Program) →
        IsSentOtherwiseBy p (codes "5\ndelimiter\n5") construct.Delimiter 2 }
    ensures client_command { (p : Program) →
        IsSentOtherwiseBy p (codes "5\\g") construct.ClientCommand 1 }
    ensures client_word { IsSentOtherwiseBy mariadb (codes "use a") construct.ClientWord 0 }
    ensures mark_in_front { IsSentOtherwiseBy mariadb (codes "?") construct.ClientWord 0 }
    ensures dash_in_front { IsSentOtherwiseBy mariadb (codes "--a\n5") construct.DashInFront 0 }
    ensures joining_comment { (p : Program) →
        Sends p (codes "/**/" ++ 195 ∷ 169 ∷ 97 ∷ [])
        ((codes "/**/" ++ 195 ∷ 169 ∷ 32 ∷ 97 ∷ []) ∷ []) }
{}

/// In these texts nothing is found, and a client sends one more space. So the spaces of
/// `sent_statements` are needed:
/// - MariaDB's client sends a space after a hint, and directly after a comment one within its sign.
///   MySQL's does so with a comment of `/*M!`.
/// - The space that is owed after a comment may come within the first word after a `;` on its line:
///   `/**/;éa` is sent as `/**/` and `é a`.
pub fn spaces_are_needed()
    ensures nothing_at_hint { first_unportable_in_client
        (tokens_of with_backslashes (codes "/**//*+b*/,c")) ≡ None }
    ensures hint { Sends mariadb (codes "/**//*+b*/,c") (codes "/**//* +b*/ ,c" ∷ []) }
    ensures nothing_after_end { first_unportable_in_client
        (tokens_of with_backslashes (codes "/**/;" ++ 195 ∷ 169 ∷ 97 ∷ [])) ≡ None }
    ensures joining_after_end { (p : Program) →
        Sends p (codes "/**/;" ++ 195 ∷ 169 ∷ 97 ∷ [])
        (codes "/**/" ∷ (195 ∷ 169 ∷ 32 ∷ 97 ∷ []) ∷ []) }
{}

/// If the text has no comment, no carriage return and no UTF-8 mark either, what a client sends is
/// the texts of `statements`, the tokens between one `;` and the next, except empty ones. White
/// space at both ends of a statement, and control bytes and the byte 255 at its end, count for
/// nothing here. To MariaDB's client a hint is a comment too.
pub fn texts_without_comments_are_sent()
    ensures sent { (p : Program) (mode : Bool) (text : List ℕ) (ts : List Token) →
        IsTokens mode text ts → first_unportable_in_client ts ≡ None →
        HoldNoComment ts → HoldNoHint p ts →
        IsFalse (has_return text) → IsFalse (begins_mark text) →
        map past_space (sends p mode text).statements ≡ bare_texts (statements ts) }
{}

//! Laws of scripts. They do nothing: each is called for its `ensures` clauses.
ghost use Rattle.std.specs.Prelude.{◌≡◌, ◌+◌, ◌++◌, ◌∷◌, ℕ, Bool, List, [], if◌then◌else◌, length};
ghost use Rattle.mysql_named_params.specs.Tokens.{Token, IsTokens, OnTokens};
ghost use Rattle.mysql_portable.specs.Portable.{AreReadAlike};
ghost use Rattle.mysql_portable.specs.Statements.{statements};
ghost use Rattle.mysql_binding.specs.Replaced.{AreTokensOf};
ghost use Rattle.mysql_bind_core.specs.Cells.{AreAssigned, TableQuery};
ghost use Rattle.mysql_bind_core.specs.Groups.{AreGroupsAppended, records_of};
ghost use Rattle.mysql_bind_core.specs.Requests.{IsReadIn};
ghost use Rattle.mysql_bind_core.specs.RowTexts.{IsRowText};
ghost use Rattle.mysql_bind_core.specs.declared.cell.Cell as cell;
ghost use Rattle.mysql_bind_core.specs.declared.request.Portability.TheVariants as portability;
ghost use Rattle.mysql_bind_core.specs.declared.request.Request as declared;
ghost use Rattle.mysql_bind_core.specs.Scripts.{AreStatements, IsScript, closing, opening, statement};
ghost use Rattle.mysql_bind_core.specs.ScriptTokens.{IsSentByClient, count_of_statements, script_tokens, tokens_of_statements};
ghost use Rattle.mysql_bind_core.specs.Tables.{AreAppended, AreRowsOf, BeginsWithRecords, Fields};
ghost use Rattle.mysql_bind_core.specs.TakenQuery.{RequestedQuery};
ghost use Rattle.mysql_bind_core.specs.declared.group_form.GroupForm as group;
ghost use Rattle.mysql_bind_core.specs.declared.row.Row as row;
ghost use Rattle.mysql_bind_core.specs.declared.table_form.TableForm as form;
ghost use Rattle.mysql_records.specs.Records.{IsTable};

/// The tokens of a script are those of its texts, in their order. After each text come a newline,
/// `;` and a newline. With a transaction, its two statements are around them (`script`). So no
/// token of one statement reaches into another. A comment to the end of the line at the end of a
/// query takes the newline, and so never the `;`.
///
/// With steady literals this holds in either mode, and with literals of a mode in that mode.
///
/// Clients cut a script at each `;` that is a token. The parts are the statements of the texts,
/// those of a transaction, and a single newline after the last `;` (`count`).
///
/// Unless all queries are taken, each token of a script passes the tests of a portable query, so
/// every server reads the script alike (`alike`, `statements_alike`).
pub fn tokens_of_scripts()
    ensures script { (request : declared.Request) (query : List ℕ) (rows : List row.Row)
        (transaction mode : Bool) (bytes : List ℕ) → IsReadIn request.literals mode →
        (s : IsScript request query rows transaction bytes) → (lists : List (List Token))
        × AreTokensOf mode s.texts lists × IsTokens mode bytes (script_tokens transaction lists) }
    ensures statements { (request : declared.Request) (query : List ℕ) (rows : List row.Row)
        (mode : Bool) (bytes : List ℕ) → IsReadIn request.literals mode →
        (s : AreStatements request query rows [] bytes) → (lists : List (List Token))
        × AreTokensOf mode s.texts lists × IsTokens mode bytes (tokens_of_statements lists) }
    ensures count { (transaction : Bool) (lists : List (List Token)) →
        length (statements (script_tokens transaction lists)) ≡
        (if transaction then 2 else 0) + (count_of_statements lists + 1) }
    ensures alike { (request : declared.Request) (query : List ℕ) (rows : List row.Row)
        (transaction mode : Bool) (bytes : List ℕ) → request.portability ≡ portability.Portable →
        IsReadIn request.literals mode → IsScript request query rows transaction bytes →
        OnTokens mode bytes AreReadAlike }
    ensures statements_alike { (request : declared.Request) (query : List ℕ)
        (rows : List row.Row) (mode : Bool) (bytes : List ℕ) →
        request.portability ≡ portability.Portable → IsReadIn request.literals mode →
        AreStatements request query rows [] bytes → OnTokens mode bytes AreReadAlike }
{}

/// Unless all queries are taken, a script has none of the client's own constructs. Every server
/// reads it alike, so a client that keeps comments reads it as its server does (`alike` of
/// [`tokens_of_scripts`]).
///
/// With steady literals this holds in either mode, and with literals of a mode in that mode.
pub fn scripts_in_clients()
    ensures script { (request : declared.Request) (query : List ℕ) (rows : List row.Row)
        (transaction mode : Bool) (bytes : List ℕ) → request.portability ≡ portability.Portable →
        IsReadIn request.literals mode → IsScript request query rows transaction bytes →
        OnTokens mode bytes IsSentByClient }
    ensures statements { (request : declared.Request) (query : List ℕ) (rows : List row.Row)
        (mode : Bool) (bytes : List ℕ) → request.portability ≡ portability.Portable →
        IsReadIn request.literals mode → AreStatements request query rows [] bytes →
        OnTokens mode bytes IsSentByClient }
{}

/// Record by record, [`append_record`](crate::append_record) appends the statements of rows that
/// say the same as the cells of the records. Before the first record there are no statements
/// (`none`). Each record adds the statement of one row (`more`).
pub fn records_make_scripts()
    ensures none { (request : declared.Request) (query before : List ℕ) →
        AreStatements request query [] before before }
    ensures more { (query : TableQuery) (cells : List cell.Cell) (rows : List row.Row)
        (row : row.Row) (before script after text : List ℕ) →
        AreStatements query.request query.query rows before script →
        AreAssigned query.columns cells row.assignments.items → IsRowText query cells text →
        after ≡ script ++ statement text →
        AreStatements query.request query.query (rows ++ row ∷ []) before after }
{}

/// For the records of a table, [`append_table`](crate::append_table) appends the statements of rows
/// that say the same as the cells of these records (`statements`). If it leaves no text, these
/// records are the table (`table`). A text has at most one table
/// ([`tables_are_unambiguous`](mysql_records::laws::tables_are_unambiguous)).
pub fn tables_make_scripts()
    ensures statements { (query : TableQuery) (form : form.TableForm) (text : List ℕ)
        (records : List Fields) (rest before after : List ℕ) (rows : List row.Row) →
        AreAppended query form text records rest before after →
        AreRowsOf query form records rows →
        AreStatements query.request query.query rows before after }
    ensures table { (query : TableQuery) (form : form.TableForm) (text : List ℕ)
        (records : List Fields) (before after : List ℕ) →
        AreAppended query form text records [] before after →
        IsTable form.format records text }
{}

/// The statements that [`append_groups`](crate::append_groups) appends for the records of a table.
/// The text begins with the records of the groups, in their order (`records`). If no text is left,
/// they are the table (`table`).
///
/// With the opening and the closing of a script around them, the statements make a script. Its
/// tokens are those of their texts, like those of rows in [`tokens_of_scripts`] (`script`). Unless
/// all queries are taken, every server reads the script alike (`alike`), and it has none of the
/// client's own constructs (`sent`).
pub fn groups_make_scripts()
    ensures records { (query : RequestedQuery) (form : group.GroupForm) (text : List ℕ)
        (groups : List (List Fields)) (rest before after : List ℕ) →
        AreGroupsAppended query form text groups rest before after →
        BeginsWithRecords form.table.format text (records_of groups) rest }
    ensures table { (query : RequestedQuery) (form : group.GroupForm) (text : List ℕ)
        (groups : List (List Fields)) (before after : List ℕ) →
        AreGroupsAppended query form text groups [] before after →
        IsTable form.table.format (records_of groups) text }
    ensures script { (query : RequestedQuery) (form : group.GroupForm) (text : List ℕ)
        (groups : List (List Fields)) (rest : List ℕ) (transaction mode : Bool)
        (after bytes : List ℕ) → IsReadIn query.request.literals mode →
        (s : AreGroupsAppended query form text groups rest (opening transaction) after) →
        bytes ≡ after ++ closing transaction → (lists : List (List Token))
        × AreTokensOf mode s.texts lists × IsTokens mode bytes (script_tokens transaction lists) }
    ensures alike { (query : RequestedQuery) (form : group.GroupForm) (text : List ℕ)
        (groups : List (List Fields)) (rest : List ℕ) (transaction mode : Bool)
        (after bytes : List ℕ) → query.request.portability ≡ portability.Portable →
        IsReadIn query.request.literals mode →
        AreGroupsAppended query form text groups rest (opening transaction) after →
        bytes ≡ after ++ closing transaction → OnTokens mode bytes AreReadAlike }
    ensures sent { (query : RequestedQuery) (form : group.GroupForm) (text : List ℕ)
        (groups : List (List Fields)) (rest : List ℕ) (transaction mode : Bool)
        (after bytes : List ℕ) → query.request.portability ≡ portability.Portable →
        IsReadIn query.request.literals mode →
        AreGroupsAppended query form text groups rest (opening transaction) after →
        bytes ≡ after ++ closing transaction → OnTokens mode bytes IsSentByClient }
{}

//! The texts of `--help` and `--version`.

/// The page of `--help`.
pub static HELP: &str = "\
Usage: mysql_bind COMMAND [OPTION]... [QUERY]
Bind values into a MySQL query as SQL literals. Nothing is sent; after a refusal
nothing was written.

Commands:
  bind    write QUERY with a value in the place of each name (:id)
  rows    write QUERY once for each row of a table, as a script
  names   write the names of QUERY, each once, in order
  check   say what is wrong with each QUERY.., with line and column

QUERY is a file. Without QUERY, or if it is -, it is standard input.

Values (bind, rows). NAME[:TYPE] is a name of the query without its colon, of A
to Z, a to z, 0 to 9 and _; TYPE is text unless given:
      --set NAME[:TYPE]=VALUE    VALUE itself. Others see it in `ps`
      --file NAME[:TYPE]=PATH    the whole of a file
      --env NAME[:TYPE][=VAR]    the variable VAR (without =VAR, one named NAME)
      --null NAME                NULL
      --json PATH                the members of a JSON object; arrays are lists
      --pairs PATH               NAME[:TYPE]=VALUE, each ended by a byte 0
A PATH of - is standard input, one of /dev/fd/N a pipe (a file is read whole).
Types:
  text   UTF-8, as it is                     int    -2^63 to 2^63-1
  line   UTF-8, one line; its newline is     uint   0 to 2^64-1
         dropped (a secret in a file)        bool   true or false: 1 or 0
  bytes  any bytes                           hex    bytes, in hexadecimal
  decimal     an exact number, as -1.50      base64 bytes, in base64
  double      the double nearest to a decimal number, as 1.5 or -1.5e-7
  identifier  the name of a table or column, written in backquotes
  list        a JSON array, as [1, 2], for IN (:ids): texts, whole and exact
              numbers, doubles (with an exponent), true, false and null

Rows (rows). The first line of CSV and TSV has the names. Each statement ends
with `;` on a line of its own. The values above are the same in each row:
      --csv PATH | --tsv PATH | --ndjson PATH
      --mysql-csv PATH      what a server writes by INTO OUTFILE .. FIELDS
                            TERMINATED BY ',' ENCLOSED BY '\"'
      --mysql-tsv PATH      what it writes without FIELDS, and mysql -B
      --column NAME[:TYPE][=HEADER]  the type of a column, text unless given,
                            and the header of the one that is bound to NAME
      --null-text TEXT      a field that is TEXT is NULL, quoted or not; without
                            it an empty field is an empty text
      --null-of NAME=TEXT   the same in one column, in place of --null-text
                            (these three not for NDJSON)
      --rows-per-statement N  write up to N rows in each statement, in place of
                            the name :row, as in INSERT INTO t (a, b) VALUES :row
      --max-bytes M         the same with as many rows as M bytes take (with the
                            line of the `;`); with both, whichever is reached
                            first. A row has all columns in the order of the
                            first line, whatever order the query lists; the
                            other names have values by options (not for NDJSON)
      --transaction         START TRANSACTION before the first row, COMMIT after
                            the last: a script that is cut off changes nothing
      --stream              write statements before all rows are bound: a row
                            that is refused leaves those of the rows before it
      --progress | --no-progress  tell how far the rows are, on standard error,
                            or don't; without these it is told on a terminal

Literals:
      --literals=steady      no sql_mode and no character set moves their ends
                             (the default); the query is ASCII without a backslash
      --literals=plain       for one sql_mode, which is never guessed:
      --mode=backslash       it hasn't NO_BACKSLASH_ESCAPES
      --mode=no-backslash    it has
      --sql-mode=TEXT        what SELECT @@sql_mode answered

What is refused, unless you say otherwise:
      --allow-unportable     a query that servers or clients read in different ways,
                             and a bound text that a client would change
      --allow-unused         a value for a name that the query has not
      --decimals=exact|double|text
                             a JSON number that is no whole one of 64 bits: bind it
                             as an exact number, as the nearest double, or as its
                             own text

Output:
  -o, --output=PATH    write PATH, whole or not at all, in place of standard
                       output (a file beside it is renamed)
  -z, --zero           end each name (names) with a byte 0
      --errors=FORM    text, json (an object a line) or github (annotations)
  -h, --help           this page
  -V, --version        the version

Exit status: 0 all was written; 1 the query or a value is refused; 2 a word is
wrong or a source can't be read; 3 a write failed, and a beginning may have been
written; 4 out of memory. With 1, 2 and 4 nothing was written (rows --stream:
the statements of the rows before).

Examples:
  mysql_bind bind --set id:int=42 --env token=API_TOKEN -o bound.sql q.sql &&
      mysql --comments --skip-force --skip-binary-mode --skip-named-commands \\
          --default-character-set=utf8mb4 shop < bound.sql
  mysql_bind rows --csv t.csv --column id:int --transaction -o bound.sql q.sql
  mysql_bind check --errors=github sql/*.sql
";

/// The line of `--version`.
pub static VERSION: &str = "mysql_bind 0.1.0\n";

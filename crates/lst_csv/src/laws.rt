//! Laws of records. Each function is a law: its contract holds at all values, and its body does nothing.
ghost use Rattle.std.specs.Prelude.{ℕ, List};
ghost use Rattle.lst_layout.specs.declared.limits.Limits.{Limits};
ghost use Rattle.lst_model.specs.Tables.{Rows};
ghost use Rattle.lst_csv.specs.Laws.{AnyScriptIsRead, RecordsAreReadAgain, ScriptIsRead, TableIsReadAgain, TextIsTheSame};

/// Records of some fields that the writer writes are read again as they are, where the text begins with no byte order mark.
pub fn written_records_are_read_again()
    ensures { (records : List (List (List ℕ))) → RecordsAreReadAgain records }
{}

/// The text of a table of at most 16,384 rows is read as its names and rows. The script that stands for it has the inserts of these rows as one
/// transaction, and their writes make the table of the empty one.
pub fn written_table_is_read_again()
    ensures { (columns : ℕ) (names : List (List ℕ)) (table : Rows) → TableIsReadAgain columns names table }
{}

/// The text of a table of at most 16,384 rows, read and written again, is the same text, byte for byte.
pub fn text_of_table_is_the_same()
    ensures { (columns : ℕ) (names : List (List ℕ)) (table : Rows) → TextIsTheSame columns names table }
{}

/// The script that stands for the text of a table of at most 16,384 rows is read, under any limits with as many columns, as one transaction of session 0
/// that inserts its rows, under its names.
pub fn script_of_table_is_read()
    ensures { (limits : Limits) (names : List (List ℕ)) (table : Rows) → ScriptIsRead limits names table }
{}

/// The script that stands for any records that are a table is read, under any limits with as many columns, as one transaction of session 0 that inserts
/// their rows in order, under their names.
pub fn script_of_any_table_is_read()
    ensures { (limits : Limits) (records : List (List (List ℕ))) → AnyScriptIsRead limits records }
{}

//! Laws: theorems about the definitions, for the crates above. Each is a function whose body is empty
//! and whose clauses hold for all texts, requests and rows.

ghost use Rattle.pl_table.specs.Laws.{LowerLsnsAreAllowed, RowsAreAboutSetting, SomebodyIsAllowed, TextsReadAsTables};

/// A table has no fault 12 exactly if some listed principal is allowed to set the table: the first
/// row that matches its set_table as operator allows it.
pub fn setting_is_a_first_match()
    // A row is about a principal's set_table exactly if it matches that request.
    ensures row { RowsAreAboutSetting }
    // Somebody may set the table exactly if a listed principal's set_table as operator is
    // allowed by the first row that matches it.
    ensures table { SomebodyIsAllowed }
{}

/// What a text reads as keeps every rule of a table.
pub fn texts_read_as_tables()
    // What a text reads as keeps each rule of a table (`IsTable`).
    ensures law { TextsReadAsTables }
{}

/// If the rows allow a request at an LSN, they allow it at each lower one.
pub fn lower_lsns_are_allowed()
    // Rows that allow a request at an LSN allow it at each lower one.
    ensures law { LowerLsnsAreAllowed }
{}

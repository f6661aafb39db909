//! What holds of all tables.

ghost use Rattle.aqe_tables.specs.Laws.{FilesMakeOneTable};

/// Files make one table at most.
pub fn files_make_one_table()
    ensures { FilesMakeOneTable }
{}

//! Laws of the definitions, each the contract of a function that does nothing.

ghost use Rattle.aqe_journal.specs.Laws.{LegalRowsAreAnAnswer, LegalVersionsStand, OneRecordIsLegal, StagesOfRunsRun};

/// Of the records with one number at most one is legal for a query as it is asked: each step of a run determines the next state, and
/// no step follows an end.
pub fn one_record_is_legal()
    ensures { OneRecordIsLegal }
{}

/// Each version of a legal record stands for the query: the rows of its plan, all parts end to end, are an answer.
pub fn legal_versions_stand()
    ensures { LegalVersionsStand }
{}

/// The rows of a legal record that is done are an answer of the query by its plain meaning.
pub fn legal_rows_are_an_answer()
    ensures { LegalRowsAreAnAnswer }
{}

/// Each stage that a run has made can be carried out over the stages of the run: its body can be run, and its kind can keep what the
/// body gives.
pub fn stages_of_runs_run()
    ensures { StagesOfRunsRun }
{}

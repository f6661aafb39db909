//! Laws of the definitions, each the contract of a function that does nothing.

ghost use Rattle.aqe_logical.specs.Laws.{AnswersHaveTheWidth, AnswersAgree, ClosedPlansReadNoStage};

/// A well-formed plan answers with rows of the width of its columns.
pub fn answers_have_the_width()
    ensures { AnswersHaveTheWidth }
{}

/// Two answers of a closed plan without Limit have the same rows.
pub fn answers_agree()
    ensures { AnswersAgree }
{}

/// A closed plan has the same answers whatever stages hold.
pub fn closed_plans_read_no_stage()
    ensures { ClosedPlansReadNoStage }
{}

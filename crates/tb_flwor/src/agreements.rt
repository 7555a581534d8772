//! The laws.

ghost use Rattle.tb_flwor.specs.Events.{VariablesAgree};
ghost use Rattle.tb_flwor.specs.Returned.{ResultsAgree};

/// Does nothing. Its clauses are what holds of the tokens and the tree of each query of clauses.
pub fn laws_of_read_queries()
    ensures results { ResultsAgree }
    ensures variables { VariablesAgree }
{}

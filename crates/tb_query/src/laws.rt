//! The law of the names that a query has.

ghost use Rattle.tb_query.specs.NameLaw.{DependsOnNames};

/// Does nothing. Its clause is that a query's answer depends on the documents alone that it names.
pub fn laws_of_answers()
    ensures names { DependsOnNames }
{}

//! The laws of the grammar of queries.

ghost use Rattle.tb_token.specs.grammar.QueryLaws.{AreOneQuery, IsReadable, IsWrittenPath};

/// Does nothing. Its clauses are what holds of the grammar of queries.
pub fn laws_of_queries()
    ensures readable { IsReadable }
    ensures tree { AreOneQuery }
    ensures path { IsWrittenPath }
{}

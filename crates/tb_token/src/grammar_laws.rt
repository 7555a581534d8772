//! The laws of grammars.

ghost use Rattle.tb_token.specs.grammar.Laws.{HaveOneTree, ReadingIsRight, ReadersAreRight, IsWrongOnce};

/// Does nothing. Its clauses are what holds of each grammar that one token of look-ahead decides.
pub fn laws()
    ensures tree { HaveOneTree }
    ensures reading { ReadingIsRight }
    ensures readers { ReadersAreRight }
    ensures once { IsWrongOnce }
{}

//! Whole queries.

use crate::{Back, Clause, Comparison, GroupBy, Key};
use tb_pattern::Pattern;
use tb_tree::Items;

/// A query as it is written, without its words and signs.
#[derive(Debug, Drop)]
pub enum Query {
    Match(Pattern),
    Flwor(Flwor),
}

/// A query of clauses: `FOR` and `LET`, `WHERE`, `GROUP BY`, `ORDER BY`, `RETURN`.
#[derive(Debug, Drop)]
pub struct Flwor {
    pub clauses: Items<Clause>,
    pub conds: Items<Comparison>,
    pub group: Option<GroupBy>,
    pub keys: Items<Key>,
    pub back: Back,
}

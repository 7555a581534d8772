//! Clauses that bind variables, groups, and keys of an order.

use crate::{Operand, Path};

/// A binding of `FOR` or `LET`.
#[derive(Debug, Drop)]
pub enum Clause {
    /// `empty` says that `ALLOWING EMPTY` is written.
    For { var: u32, empty: bool, path: Path },
    Let { var: u32, path: Path },
}

/// `GROUP BY` with the variable that it binds.
#[derive(Debug, Drop)]
pub struct GroupBy {
    pub var: u32,
    pub path: Path,
}

/// A key of `ORDER BY`.
#[derive(Debug, Drop)]
pub struct Key {
    pub operand: Operand,
    pub descending: bool,
}

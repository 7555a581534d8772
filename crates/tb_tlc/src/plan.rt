//! Plans, operator by operator.

use crate::{Name, Steps};
use tb_number::{AggKind, CmpOp, SortKey};
use tb_pattern::{Mark, Pattern};
use tb_tree::{Against, Items, Shape};

/// Operators in order over one table, which starts with one row and no column. Columns are numbered from 0
/// in the order in which they were added.
#[derive(Debug, Drop)]
pub struct Plan {
    pub ops: Items<Op>,
}

/// What is done to the rows of the table.
#[derive(Debug, Drop)]
pub enum Op {
    /// Alone in its plan: the trees of the witnesses.
    Match {
        pattern: Pattern,
    },
    /// Adds a column with the nodes that the steps lead to: with `One` a row for each node; with `Optional`
    /// the same, or one row where there is no node; with `Some` one list, and no row where there is no node;
    /// with `Any` one list.
    Select {
        start: ColumnStart,
        steps: Steps,
        mark: Mark,
    },
    /// Keeps the rows in which some value of the column stands so.
    Filter {
        left: u32,
        op: CmpOp,
        right: Against,
    },
    /// Keeps the rows in which two columns have an equal value.
    ValueJoin {
        left: u32,
        right: u32,
    },
    /// One row for each group of rows with one first value of the column, and a column more with the first
    /// node of that column in the group's first row.
    Group {
        key: u32,
    },
    /// Adds a column with an aggregate of a column's values.
    Aggregate {
        from: u32,
        kind: AggKind,
    },
    /// Sorts stably by the first values of columns.
    Order {
        keys: Items<SortKey>,
    },
    /// Keeps these columns, in this order.
    Project {
        columns: Items<u32>,
    },
    /// Keeps the first of equal rows.
    Distinct,
    /// Ends the plan: the trees of each row.
    Construct {
        shape: Shape,
    },
}

/// Where the steps of a new column start.
#[derive(Debug, Drop)]
pub enum ColumnStart {
    /// At the document node of this name.
    Document(Name),
    /// At each node of the column of this number, from 0.
    Column(u32),
}

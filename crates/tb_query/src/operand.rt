//! Operands, and comparisons of them.

use crate::Path;
use tb_number::{AggKind, CmpOp};
use tb_pattern::Literal;

/// What gives values: the nodes of a path, or an aggregate of them.
#[derive(Debug, Drop)]
pub enum Operand {
    Nodes(Path),
    Agg { kind: AggKind, path: Path },
}

/// What stands behind the sign of a comparison.
#[derive(Debug, Drop)]
pub enum Right {
    Operand(Operand),
    Literal(Literal),
}

/// A condition behind `WHERE`.
#[derive(Debug, Drop)]
pub struct Comparison {
    pub left: Operand,
    pub op: CmpOp,
    pub right: Right,
}

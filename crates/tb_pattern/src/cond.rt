//! Conditions on the value of a node.

ghost use Rattle.std.specs.Prelude.{◌≡◌, IfOk};

use std::alloc::{AllocError, Global};
use tb_number::CmpOp;
use tb_tree::Bytes;

/// What a value is compared with: as a number, or by bytes, which are those between the quotes.
#[derive(Debug, Drop)]
pub enum Literal {
    Number(i128),
    Text(Bytes),
}

impl Literal {
    pub fn copy(&self, alloc: Global) -> Result<Literal, AllocError>
        ensures { IfOk result (λ literal. literal ≡ self.now) }
    {
        match self {
            Literal::Number(number) => Ok(Literal::Number(*number)),
            Literal::Text(text) => Ok(Literal::Text(text.copy(alloc)?)),
        }
    }
}

/// The value of a node stands so to the literal.
#[derive(Debug, Drop)]
pub struct Cond {
    pub op: CmpOp,
    pub with: Literal,
}

impl Cond {
    pub fn copy(&self, alloc: Global) -> Result<Cond, AllocError>
        ensures { IfOk result (λ cond. cond ≡ self.now) }
    {
        let with = self.with.copy(alloc)?;
        Ok(Cond { op: self.op, with })
    }
}

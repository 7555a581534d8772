//! What a node is tested for.

ghost use Rattle.std.specs.Prelude.{◌≡◌, IfOk};

use crate::Bytes;
use std::alloc::{AllocError, Global};

/// A test of a node's kind and name: `name`, `*`, `@name`, `@*`, `text()`.
#[derive(Debug, Drop)]
pub enum Test {
    Name(Bytes),
    AnyElement,
    AttrName(Bytes),
    AnyAttr,
    AnyText,
}

impl Test {
    pub fn copy(&self, alloc: Global) -> Result<Test, AllocError>
        ensures { IfOk result (λ test. test ≡ self.now) }
    {
        match self {
            Test::Name(name) => Ok(Test::Name(name.copy(alloc)?)),
            Test::AnyElement => Ok(Test::AnyElement),
            Test::AttrName(name) => Ok(Test::AttrName(name.copy(alloc)?)),
            Test::AnyAttr => Ok(Test::AnyAttr),
            Test::AnyText => Ok(Test::AnyText),
        }
    }
}

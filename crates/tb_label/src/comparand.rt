//! What values of nodes are compared with.

ghost use Rattle.std.specs.Prelude.{◌≡◌, IfOk};
ghost use Rattle.std.specs.Option.{option_map};
ghost use Rattle.std.specs.Str.{bytes_eq};
ghost use Rattle.tb_tree.specs.Printed.{escaped};
ghost use Rattle.tb_number.specs.Reading.{integer_of};

use crate::keys::printed;
use std::alloc::{AllocError, Global};
use std::marker::Model;
use tb_number::IntText;

/// A number, to which only integer texts stand; bytes; or another value, to which integer texts stand by
/// number and all others by bytes.
#[derive(Debug, Drop)]
pub enum Comparand<'a> {
    Number(i128),
    Bytes(Prepared<'a>),
    Value(Prepared<'a>),
}

/// Bytes that many values are compared with, read and printed once. Contracts see the bytes.
#[derive(Debug, Drop)]
pub struct Prepared<'a> {
    bytes: &'a [u8],
    number: Option<IntText<'a>>,
    printed: Vec<u8>,
}

impl<'a> Model for Prepared<'a> {
    ghost use Rattle.std.specs.Prelude.{List, ℕ};
    ghost use Rattle.tb_label.specs.Prepared.{IsPrepared};

    ghost Value = { List ℕ };

    ghost view = { λ p. p.bytes.now };

    ghost invariant = { λ p. IsPrepared p.bytes.now p.number p.printed.items };
}

impl<'a> Prepared<'a> {
    pub fn new(alloc: Global, bytes: &[u8]) -> Result<Prepared<'_>, AllocError>
        ensures { IfOk result (λ prepared. prepared ≡ bytes.now) }
    {
        let number = IntText::read(bytes);
        let printed = printed(alloc, bytes)?;
        Ok(Prepared {
            bytes,
            number,
            printed,
        })
    }

    pub fn bytes(&self) -> &[u8]
        ensures { result.now ≡ self.now }
    {
        self.bytes
    }

    /// The number that the bytes stand for, where they are an integer text.
    pub fn number(&self) -> Option<&IntText<'a>>
        ensures { option_map (λ number. number.now) result ≡ integer_of self.now }
    {
        self.number.as_ref()
    }

    /// Whether the bytes print so.
    pub fn prints_as(&self, printed: &[u8]) -> bool
        ensures { result ≡ bytes_eq printed.now (escaped self.now) }
    {
        printed == self.printed.as_slice()
    }
}

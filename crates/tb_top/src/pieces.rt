//! A text in pieces, each of which is written at once.

ghost use Rattle.std.specs.Prelude.{◌≡◌, ◌++◌, [], IfOk, OnOk};
ghost use Rattle.tb_top.specs.Pieces.{joined, text_in};

use std::alloc::{AllocError, Global};
use std::mem::replace;

/// A shorter piece takes the next one behind it.
const LEAST: usize = 65_536;

/// Pieces of 64 KiB or more, and the last one, which may be shorter.
#[derive(Drop)]
pub struct Pieces {
    pub whole: Vec<Vec<u8>>,
    pub last: Vec<u8>,
}

impl Pieces {
    pub fn new(alloc: Global) -> Pieces
        ensures { text_in result ≡ [] }
    {
        Pieces {
            whole: Vec::new(alloc),
            last: Vec::new(alloc),
        }
    }

    /// Adds a text at the end. It is copied only behind a piece that is too short.
    pub fn add(&mut self, text: Vec<u8>) -> Result<(), AllocError>
        ensures { OnOk result (text_in self.new ≡ text_in self.old ++ text.items) }
    {
        if self.last.is_empty() {
            self.last = text;
            return Ok(());
        }
        if self.last.len() < LEAST {
            return self.last.extend_from_slice(&text);
        }
        let piece = replace(&mut self.last, text);
        self.whole.push(piece)?;
        Ok(())
    }

    /// All pieces, in order.
    pub fn all(self) -> Result<Vec<Vec<u8>>, AllocError>
        ensures { IfOk result (λ pieces. joined pieces.items ≡ text_in self) }
    {
        let Pieces { mut whole, last } = self;
        whole.push(last)?;
        Ok(whole)
    }
}

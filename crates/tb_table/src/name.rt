//! Names by which documents are looked up.

ghost use Rattle.std.specs.Str.{bytes_eq};
ghost use Rattle.std.specs.Cmp.Rules.{comparing, hashing};
ghost use Rattle.std.specs.Cmp.Lexicographic.{bytes_decides, nat_list_eq_equiv};
ghost use Rattle.std.specs.Hash as fed;
ghost use Rattle.std.proofs.Common.{rules, ap};

use indexmap::Equivalent;
use std::hash::{Hash, Hasher};
use tb_tree::Bytes;

/// A borrowed name, hashed as one that is kept.
#[derive(Clone, Copy)]
pub struct Name<'a> {
    pub bytes: &'a [u8],
}

impl PartialEq for Name<'_> {
    ghost eq = { λ a b. bytes_eq a.bytes.now b.bytes.now };

    ghost laws = { Prim.search (comparing, rules) };

    fn eq(&self, other: &Name<'_>) -> bool {
        self.bytes == other.bytes
    }
}

impl Eq for Name<'_> {
    ghost laws = { Prim.search (comparing, rules) };
}

impl Hash for Name<'_> {
    ghost hash_input = { λ name. fed.slice fed.u8 name.bytes.now };

    ghost respects_eq = { Prim.search (hashing, rules) };

    fn hash<H: Hasher>(&self, state: &mut H) {
        self.bytes.hash(state);
    }
}

impl Equivalent<Bytes> for Name<'_> {
    ghost equivalent = { λ name kept. bytes_eq name.bytes.now kept };

    ghost respects_hash = { λ name kept e. ap (fed.slice fed.u8) ((bytes_decides name.bytes.now kept).0 e) };

    ghost respects_eq = { λ name x y. nat_list_eq_equiv.congr name.bytes.now x y };

    fn equivalent(&self, kept: &Bytes) -> bool {
        self.bytes == kept.as_slice()
    }
}

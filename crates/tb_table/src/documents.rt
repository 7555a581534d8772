//! Documents by name and by number.

ghost use Rattle.std.specs.Prelude.{◌≡◌, ◌+◌, ◌<◌, ◌^◌, ◌++◌, [], ◌∷◌, None, Some, position, slice_get, length, OnOk, OnErr};
ghost use Rattle.std.specs.Str.{bytes_eq};
ghost use Rattle.tb_table.specs.Documents.{names_of, roots_of};

use crate::Secret;
use crate::name::Name;
use indexmap::IndexMap;
use std::alloc::{AllocError, Global};
use std::marker::Model;
use std::sync::Arc;
use tb_label::Store;
use tb_tree::Bytes;

/// Documents with their names, no name twice, numbered from 0 in the order in which they were added; and the
/// secret for hashing what documents choose.
#[derive(Drop)]
pub struct Documents {
    stores: IndexMap<Bytes, Arc<Store>, Secret>,
    secret: Secret,
}

impl Model for Documents {
    ghost use Rattle.std.specs.Prelude.{List, ℕ, ◌<◌, ◌^◌};
    ghost use Rattle.std.specs.Coded.{codes};
    ghost use Rattle.indexmap.specs.IndexMap.{index_map_len};
    ghost use Rattle.tb_tree.specs.declared.node.Node.{Node};
    ghost use Rattle.tb_tree.specs.contracts.node.Node as node_rows;
    ghost use Rattle.tb_table.specs.Documents.{named_roots};

    ghost Value = { List (List ℕ × Node) };

    ghost coded = { Prim.hlevel (codes, node_rows.the_row.coded) };

    ghost view = { λ documents. named_roots documents.stores };

    ghost invariant = { λ documents. index_map_len documents.stores < 2 ^ 32 };
}

impl Documents {
    /// No document, and a secret that everyone knows.
    pub fn empty(alloc: Global) -> Documents
        ensures { result ≡ [] }
    {
        Documents::with_secret(alloc, Secret::new(0, 0))
    }

    /// No document.
    pub fn with_secret(alloc: Global, secret: Secret) -> Documents
        ensures { result ≡ [] }
    {
        Documents {
            stores: IndexMap::with_hasher(alloc, secret),
            secret,
        }
    }

    /// The secret for hashing what documents choose.
    pub fn secret(&self) -> Secret {
        self.secret
    }

    /// How many documents there are.
    pub fn len(&self) -> usize
        ensures count { result ≡ length self.now }
        ensures few { result < 2 ^ 32 }
    {
        self.stores.len()
    }

    /// Adds a document behind the others. After a refusal nothing has changed.
    pub fn add(&mut self, name: Bytes, store: Arc<Store>) -> Result<(), AllocError>
        requires new { position (bytes_eq name) (names_of self.old) ≡ None }
        requires few { length self.old + 1 < 2 ^ 32 }
        ensures added { OnOk result (self.new ≡ self.old ++ (name, store.value) ∷ []) }
        ensures kept { OnErr result (self.new ≡ self.old) }
    {
        self.stores.insert(name, store)?;
        Ok(())
    }

    /// The number of the document of a name, `None` exactly where no document has it.
    pub fn find(&self, name: &[u8]) -> Option<u32>
        ensures { result ≡ position (bytes_eq name.now) (names_of self.now) }
    {
        match self.stores.get_index_of(Name { bytes: name }) {
            Some(at) => Some(at as u32),
            None => None,
        }
    }

    /// The document of a number.
    pub fn store(&self, document: u32) -> &Store
        requires { document < length self.now }
        ensures { slice_get (roots_of self.now) document ≡ Some result.now }
    {
        &self.stores[document as usize]
    }
}

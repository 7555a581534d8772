//! The history of accepted loads, and the documents that it leaves.

ghost use Rattle.std.specs.Prelude.{◌≡◌, ◌+◌, ◌<◌, ◌∷◌, ◌++◌, [], IfOk, OnOk, OnErr, length, option_map};
ghost use Rattle.tb_tree.specs.View.{plain_of};
ghost use Rattle.std.specs.Arc.{arc_value};
ghost use Rattle.tb_tree.specs.Documents.{found};
ghost use Rattle.tb_top.specs.History.{count_of, documents_in};
ghost use Rattle.tb_top.specs.Kept.{changes_in};

use std::alloc::{AllocError, Global};
use std::collections::BTreeMap;
use std::marker::Model;
use std::sync::Arc;
use tb_label::Store;
use tb_tree::Bytes;

/// An accepted load: its session, from 0, which of the session's accepted loads it is, from 1, and
/// the document, labelled.
#[derive(Drop)]
pub struct Change {
    pub session: u32,
    pub count: u32,
    pub name: Bytes,
    pub store: Arc<Store>,
}

/// The changes, the oldest first, the last one of each name, and how many each session made.
#[derive(Drop)]
pub struct History {
    changes: Vec<Change>,
    latest: BTreeMap<Bytes, Arc<Store>>,
    counts: Vec<u32>,
}

impl Model for History {
    ghost use Rattle.std.specs.Prelude.{length, map};
    ghost use Rattle.std.specs.Coded.{codes};
    ghost use Rattle.tb_top.specs.contracts.history.Change as change_rows;
    ghost use Rattle.tb_top.specs.Kept.{Kept, IsKept, change_in};

    ghost Value = { Kept };

    ghost coded = { Prim.hlevel (codes, change_rows.the_row.coded) };

    ghost view = { λ h. record { changes = h.changes.items; sessions = length h.counts.items } };

    ghost invariant = { λ h. IsKept (map change_in h.changes.items) h.latest h.counts.items };
}

impl History {
    /// A history without changes, of so many sessions.
    pub fn new(alloc: Global, sessions: usize) -> Result<History, AllocError>
        ensures { IfOk result (λ h. h ≡ record { changes = []; sessions = sessions }) }
    {
        Ok(History {
            changes: Vec::new(alloc),
            latest: BTreeMap::new(alloc),
            counts: vec![in alloc; 0; sessions]?,
        })
    }

    /// The changes, the oldest first.
    pub fn changes(&self) -> &[Change]
        ensures { result.now ≡ self.now.changes }
    {
        self.changes.as_slice()
    }

    /// The document of a name, where one is loaded.
    pub fn find(&self, name: &Bytes) -> Option<&Arc<Store>>
        ensures { option_map (λ store. plain_of (arc_value store.now)) result
            ≡ found name.now (documents_in (changes_in self.now)) }
    {
        self.latest.get(name)
    }

    /// Adds a change of the session. Memory is taken first, so that nothing is changed without it.
    pub fn add(
        &mut self,
        alloc: Global,
        session: u32,
        name: &Bytes,
        store: Store,
    ) -> Result<(), AllocError>
        requires session { session < self.old.sessions }
        requires few { length (changes_in self.old) < 65536 }
        ensures changes { OnOk result (changes_in self.new ≡ changes_in self.old ++ record {
          session = session;
          count = count_of session (changes_in self.old) + 1;
          name = name.now;
          tree = plain_of store;
        } ∷ []) }
        ensures sessions { self.new.sessions ≡ self.old.sessions }
        ensures unchanged { OnErr result (self.new ≡ self.old) }
    {
        let count = self.counts[session as usize] + 1;
        let store = Arc::new(alloc, store)?;
        let latest = Arc::try_clone(&store)?;
        let key = name.copy(alloc)?;
        let name = name.copy(alloc)?;
        self.changes.try_reserve(1)?;
        self.latest.insert(key, latest)?;
        let change = Change {
            session,
            count,
            name,
            store,
        };
        let Ok(()) = self.changes.push(change) else {
            unreachable!();
        };
        self.counts[session as usize] = count;
        Ok(())
    }
}

//! The names of documents in a query, each once.

ghost use Rattle.std.specs.Prelude.{◌≡◌, IfOk, OnOk};
ghost use Rattle.std.specs.Str.{bytes_eq};
ghost use Rattle.tb_query.specs.Lists.{with_once};
ghost use Rattle.tb_query.specs.Lent.{lent, IsNoted};
ghost use Rattle.tb_query.specs.Names.{written_names, names_once};
ghost use Rattle.tb_query.specs.NameLaw.{AreEnough};

use crate::Query;
use crate::written::names_in;
use std::alloc::{AllocError, Global};
use std::collections::BTreeSet;
use tb_tree::Bytes;

/// Each name of a document that is written in the query, once, in the order of their first places.
/// The query's answer depends on the documents of these names alone.
pub fn documents(alloc: Global, query: &Query) -> Result<Vec<Bytes>, AllocError>
    ensures names { IfOk result (λ names. names.items ≡ names_once (written_names query.now)) }
    ensures enough { IfOk result (λ names. AreEnough names.items query.now) }
{
    let names = names_in(alloc, query)?;
    let once = each_once(alloc, names.as_slice())?;
    Ok(once)
}

/// A query may have many names, so those before one are kept in a set.
fn each_once(alloc: Global, names: &[&[u8]]) -> Result<Vec<Bytes>, AllocError>
    ensures { IfOk result (λ once. once.items ≡ names_once (lent names.now)) }
{
    let mut seen = BTreeSet::new(alloc);
    let mut once = Vec::new(alloc);
    'names: for name in names {
        add(alloc, &mut seen, &mut once, name)?;
    }
    Ok(once)
}

/// Adds the name unless it was seen.
fn add<'a>(
    alloc: Global,
    seen: &mut BTreeSet<&'a [u8]>,
    once: &mut Vec<Bytes>,
    name: &'a [u8],
) -> Result<(), AllocError>
    requires noted { IsNoted seen.old.keys once.old.items }
    ensures once { OnOk result (once.new.items ≡ with_once bytes_eq once.old.items name.now) }
    ensures noted { OnOk result (IsNoted seen.new.keys once.new.items) }
{
    if seen.insert(name)? {
        once.push(Bytes::from_vec(name.to_vec(alloc)?))?;
    }
    Ok(())
}

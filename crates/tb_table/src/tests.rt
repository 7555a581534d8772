//! What no clause says: that documents are added with ample memory.

mod tables;

use crate::{Documents, Secret};
use std::alloc::Global;
use std::sync::Arc;
use std::test::Fail;
use tb_esis::read_tree;
use tb_label::Store;
use tb_tree::Bytes;

fn store(alloc: Global, lines: &[u8]) -> Result<Arc<Store>, Fail> {
    if lines.len() > 1000 {
        return Err("too many lines".into());
    }
    match read_tree(alloc, lines) {
        Ok(tree) => Ok(Arc::new(alloc, Store::build(alloc, tree)?)?),
        Err(_) => Err("no document".into()),
    }
}

fn added(alloc: Global, mut documents: Documents, names: &[&[u8]]) -> Result<Documents, Fail> {
    for name in names {
        if documents.find(name).is_some() {
            return Err("the name is there".into());
        }
        if documents.len() > 1000 {
            return Err("too many documents".into());
        }
        let kept = Bytes::from_vec(name.to_vec(alloc)?);
        documents.add(kept, store(alloc, b"(a\n)a\n")?)?;
    }
    Ok(documents)
}

#[test]
fn documents_have_numbers_in_the_order_of_their_names(rt: HostRuntime) -> Result<(), Fail> {
    let names: &[&[u8]] = &[b"second", b"", b"first"];
    for secret in [Secret::new(0, 0), Secret::new(7, 11)] {
        let documents = added(
            rt.alloc(),
            Documents::with_secret(rt.alloc(), secret),
            names,
        )?;
        assert_eq!(rt; documents.len(), 3);
        assert_eq!(rt; documents.find(b"second"), Some(0));
        assert_eq!(rt; documents.find(b""), Some(1));
        assert_eq!(rt; documents.find(b"first"), Some(2));
        assert_eq!(rt; documents.find(b"third"), None);
        assert_eq!(rt; documents.store(2).tree().text(), b"(a\n)a\n".as_slice());
    }
    Ok(())
}

#[test]
fn no_document_is_found_among_none(rt: HostRuntime) -> Result<(), Fail> {
    let documents = Documents::empty(rt.alloc());
    assert_eq!(rt; documents.len(), 0);
    assert_eq!(rt; documents.find(b"a"), None);
    Ok(())
}

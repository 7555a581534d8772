//! The deepest document.

use crate::text::push_times;
use std::alloc::Global;
use std::io::{self, ErrorKind};
use std::sync::Arc;
use tb_esis::read_tree;
use tb_label::Store;
use tb_table::Documents;
use tb_tree::Bytes;

/// The document `d`, of 512 levels: 478 elements `a` inside each other, and in them 34 elements `b`.
pub fn documents(alloc: Global) -> io::Result<Documents> {
    let mut lines = Vec::new(alloc);
    push_times(&mut lines, "(a\n", 478)?;
    push_times(&mut lines, "(b\n", 34)?;
    push_times(&mut lines, ")b\n", 34)?;
    push_times(&mut lines, ")a\n", 478)?;
    let store = store(alloc, &lines)?;
    let mut docs = Documents::empty(alloc);
    let name = Bytes::from_vec(b"d".to_vec(alloc)?);
    docs.add(name, Arc::new(alloc, store)?)?;
    Ok(docs)
}

fn store(alloc: Global, lines: &[u8]) -> io::Result<Store> {
    if lines.len() > 4000 {
        return Err(ErrorKind::InvalidData.into());
    }
    let tree = read_tree(alloc, lines).map_err(|_fault| ErrorKind::InvalidData)?;
    Ok(Store::build(alloc, tree)?)
}

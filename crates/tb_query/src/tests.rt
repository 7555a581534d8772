//! What no clause says: that the words of the definitions mean what they should, and that names are
//! given with ample memory.

use crate::{
    AttrPart, Back, Clause, Comparison, Cons, Content, Flwor, GroupBy, Key, Operand, Part, Path,
    Query, Right, Start, documents,
};
use std::alloc::{AllocError, Global};
use std::test::Fail;
use tb_number::{AggKind, CmpOp};
use tb_pattern::Pattern;
use tb_tree::{Bytes, Items};

fn bytes(alloc: Global, text: &[u8]) -> Result<Bytes, AllocError> {
    Ok(Bytes::from_vec(text.to_vec(alloc)?))
}

fn none<T>(alloc: Global) -> Items<T> {
    Items::from_vec(Vec::new(alloc))
}

fn in_document(alloc: Global, name: &[u8]) -> Result<Path, AllocError> {
    let start = Start::Document(bytes(alloc, name)?);
    Ok(Path {
        start,
        steps: none(alloc),
    })
}

fn at_var(alloc: Global, var: u32) -> Path {
    Path {
        start: Start::Var(var),
        steps: none(alloc),
    }
}

fn nodes(alloc: Global, name: &[u8]) -> Result<Operand, AllocError> {
    Ok(Operand::Nodes(in_document(alloc, name)?))
}

fn binding(alloc: Global, var: u32, name: &[u8]) -> Result<Clause, AllocError> {
    let path = in_document(alloc, name)?;
    Ok(Clause::For {
        var,
        empty: false,
        path,
    })
}

// `FOR $x IN document("p"), $y IN document("q") WHERE $x != $y RETURN $x`
fn join(alloc: Global) -> Result<Query, AllocError> {
    let mut clauses = Vec::new(alloc);
    clauses.push(binding(alloc, 0, b"p")?)?;
    clauses.push(binding(alloc, 1, b"q")?)?;
    let mut conds = Vec::new(alloc);
    conds.push(Comparison {
        left: Operand::Nodes(at_var(alloc, 0)),
        op: CmpOp::Ne,
        right: Right::Operand(Operand::Nodes(at_var(alloc, 1))),
    })?;
    Ok(Query::Flwor(Flwor {
        clauses: Items::from_vec(clauses),
        conds: Items::from_vec(conds),
        group: None,
        keys: none(alloc),
        back: Back::Nodes(at_var(alloc, 0)),
    }))
}

// `<t a={document("g")}>"x"<s>{document("h")}</s>{document("b")}</t>`
fn constructor(alloc: Global) -> Result<Cons, AllocError> {
    let mut inner = Vec::new(alloc);
    inner.push(Part::Content(Content::Operand(nodes(alloc, b"h")?)))?;
    let mut parts = Vec::new(alloc);
    parts.push(Part::Content(Content::Text(bytes(alloc, b"x")?)))?;
    parts.push(Part::Cons(Cons {
        name: bytes(alloc, b"s")?,
        attrs: none(alloc),
        parts: Items::from_vec(inner),
    }))?;
    parts.push(Part::Content(Content::Operand(nodes(alloc, b"b")?)))?;
    let mut attrs = Vec::new(alloc);
    attrs.push(AttrPart {
        name: bytes(alloc, b"a")?,
        from: Content::Operand(nodes(alloc, b"g")?),
    })?;
    Ok(Cons {
        name: bytes(alloc, b"t")?,
        attrs: Items::from_vec(attrs),
        parts: Items::from_vec(parts),
    })
}

// `LET $x := document("b") FOR $y IN document("a") WHERE document("c") = sum(document("d"))
// GROUP BY $k := document("e") ORDER BY document("f")`, and then the constructor
fn everywhere(alloc: Global) -> Result<Query, AllocError> {
    let mut clauses = Vec::new(alloc);
    clauses.push(Clause::Let {
        var: 0,
        path: in_document(alloc, b"b")?,
    })?;
    clauses.push(binding(alloc, 1, b"a")?)?;
    let mut conds = Vec::new(alloc);
    conds.push(Comparison {
        left: nodes(alloc, b"c")?,
        op: CmpOp::Eq,
        right: Right::Operand(Operand::Agg {
            kind: AggKind::Sum,
            path: in_document(alloc, b"d")?,
        }),
    })?;
    let mut keys = Vec::new(alloc);
    keys.push(Key {
        operand: nodes(alloc, b"f")?,
        descending: true,
    })?;
    Ok(Query::Flwor(Flwor {
        clauses: Items::from_vec(clauses),
        conds: Items::from_vec(conds),
        group: Some(GroupBy {
            var: 2,
            path: in_document(alloc, b"e")?,
        }),
        keys: Items::from_vec(keys),
        back: Back::Cons(constructor(alloc)?),
    }))
}

// `MATCH document("m")`
fn alone(alloc: Global) -> Result<Query, AllocError> {
    Ok(Query::Match(Pattern {
        document: bytes(alloc, b"m")?,
        edges: none(alloc),
    }))
}

// A line of the names, with a byte `;` behind each.
fn push_names(alloc: Global, query: &Query, text: &mut Vec<u8>) -> Result<(), AllocError> {
    for name in documents(alloc, query)?.as_slice() {
        text.extend_from_slice(name.as_slice())?;
        text.push(b';')?;
    }
    text.push(b'\n')?;
    Ok(())
}

fn names_of_all(alloc: Global) -> Result<Vec<u8>, AllocError> {
    let mut text = Vec::new(alloc);
    push_names(alloc, &join(alloc)?, &mut text)?;
    push_names(alloc, &everywhere(alloc)?, &mut text)?;
    push_names(alloc, &alone(alloc)?, &mut text)?;
    Ok(text)
}

#[test]
fn each_name_is_given_once_at_its_first_place(rt: HostRuntime) -> Result<(), Fail> {
    let names = names_of_all(rt.alloc())?;
    assert_eq!(rt;
        names.as_slice(),
        b"p;q;\nb;a;c;d;e;f;g;h;\nm;\n".as_slice()
    );
    Ok(())
}

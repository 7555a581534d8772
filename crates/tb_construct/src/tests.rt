//! What no clause says: that trees are made with ample memory, and small ones that were worked by hand.

use crate::witness_trees;
use std::alloc::{AllocError, Global};
use std::test::Fail;
use tb_esis::read_tree;
use tb_label::Store;
use tb_pattern::{Pattern, Witness, read_pattern};
use tb_span::NodeId;
use tb_token::tokens;
use tb_tree::{Items, Writer};

fn store(alloc: Global, lines: &[u8]) -> Result<Store, Fail> {
    if lines.len() > 1000 {
        return Err("too many lines".into());
    }
    match read_tree(alloc, lines) {
        Ok(tree) => Ok(Store::build(alloc, tree)?),
        Err(_) => Err("no document".into()),
    }
}

fn pattern(alloc: Global, text: &[u8]) -> Result<Pattern, Fail> {
    if text.len() > 65_536 {
        return Err("too long".into());
    }
    let Ok(found) = tokens(alloc, text) else {
        return Err("no tokens".into());
    };
    match read_pattern(alloc, text, found.as_slice()) {
        Ok(p) => Ok(p),
        Err(_) => Err("no pattern".into()),
    }
}

// A row of an edge below the other: the nodes on the way down from the document node, which are inside each
// other, and those that are offered together at the last of them, at which no edge leaves.
type Row = (&'static [u32], &'static [u32]);

fn at(alloc: Global, node: u32, offered: Vec<Witness>) -> Result<Witness, AllocError> {
    let mut offers = Vec::new(alloc);
    offers.push(Items::from_vec(offered))?;
    Ok(Witness {
        node: NodeId::new(node),
        offers: Items::from_vec(offers),
    })
}

fn row(alloc: Global, row: Row) -> Result<Witness, AllocError> {
    let mut offered = Vec::new(alloc);
    for node in row.1 {
        offered.push(Witness {
            node: NodeId::new(*node),
            offers: Items::from_vec(Vec::new(alloc)),
        })?;
    }
    for node in row.0.iter().rev() {
        let inner = at(alloc, *node, offered)?;
        offered = Vec::new(alloc);
        offered.push(inner)?;
    }
    at(alloc, 0, offered)
}

// The lines of the trees of these rows.
fn shown(alloc: Global, lines: &[u8], text: &[u8], list: &[Row]) -> Result<Vec<u8>, Fail> {
    let store = store(alloc, lines)?;
    let p = pattern(alloc, text)?;
    let mut rows = Vec::new(alloc);
    for one in list {
        rows.push(row(alloc, *one)?)?;
    }
    let forest = witness_trees(alloc, &p, &store, rows.as_slice())?;
    let mut page = Writer::new(alloc);
    page.nodes(forest.trees.as_slice())?;
    Ok(page.into_vec()?)
}

const NONE: &[u8] = b"(b\n)b\n";

const TWO: &[u8] = b"(b\n(c\n)c\n(c\n)c\n)b\n";

const THREE: &[u8] = b"(a\n(a\n(a\n)a\n)a\n)a\n";

const DEEP: &[u8] = b"(r\n(x\n(a\n)a\n)x\n)r\n";

// BIB 1, BOOK 2 with @YEAR 3, on 4, TITLE 5 and its text 6, ce 7; BOOK 8 with @ID 9, which has no byte.
const BIB: &[u8] =
    b"(BIB\nAYEAR CDATA 1994\n(BOOK\n-on\n(TITLE\n-TCP/IP\n)TITLE\n-ce\n)BOOK\nAID CDATA \n(BOOK\n)BOOK\n)BIB\n";

// Of each: the document, the query, its rows, and the lines of their trees.
const CASES: [(&[u8], &[u8], &[Row], &[u8]); 15] = [
    (
        THREE,
        b"MATCH document('d') (//- a (//- a))",
        &[(&[1], &[2]), (&[1], &[3]), (&[2], &[3])],
        b"(witness\n(a\n(a\n)a\n)a\n)witness\n(witness\n(a\n(a\n)a\n)a\n)witness\n(witness\n(a\n(a\n)a\n)a\n)witness\n",
    ),
    (NONE, b"MATCH document('d') (//- b (/- c))", &[], b""),
    (
        NONE,
        b"MATCH document('d') (//- b (/? c))",
        &[(&[1], &[])],
        b"(witness\n(b\n)b\n)witness\n",
    ),
    (
        NONE,
        b"MATCH document('d') (//- b (/* c))",
        &[(&[1], &[])],
        b"(witness\n(b\n)b\n)witness\n",
    ),
    (
        TWO,
        b"MATCH document('d') (//- b (/- c))",
        &[(&[1], &[2]), (&[1], &[3])],
        b"(witness\n(b\n(c\n)c\n)b\n)witness\n(witness\n(b\n(c\n)c\n)b\n)witness\n",
    ),
    (
        TWO,
        b"MATCH document('d') (//- b (/+ c))",
        &[(&[1], &[2, 3])],
        b"(witness\n(b\n(c\n)c\n(c\n)c\n)b\n)witness\n",
    ),
    (
        DEEP,
        b"MATCH document('d') (/- r (//- a))",
        &[(&[1], &[3])],
        b"(witness\n(r\n(a\n)a\n)r\n)witness\n",
    ),
    (
        BIB,
        b"MATCH document('d') (/- BIB (/- BOOK (/- @YEAR [< 1995] !)))",
        &[(&[1, 2], &[3])],
        b"(witness\n(BIB\n(BOOK\n(@YEAR\n-1994\n)@YEAR\n)BOOK\n)BIB\n)witness\n",
    ),
    (
        BIB,
        b"MATCH document('d') (/- BIB (/- BOOK (/- @YEAR)))",
        &[(&[1, 2], &[3])],
        b"(witness\n(BIB\n(BOOK\n(@YEAR\n)@YEAR\n)BOOK\n)BIB\n)witness\n",
    ),
    (
        BIB,
        b"MATCH document('d') (//- BOOK (/- @ID !))",
        &[(&[8], &[9])],
        b"(witness\n(BOOK\n(@ID\n)@ID\n)BOOK\n)witness\n",
    ),
    (
        BIB,
        b"MATCH document('d') (//- BOOK (/+ text()))",
        &[(&[2], &[4, 7])],
        b"(witness\n(BOOK\n-once\n)BOOK\n)witness\n",
    ),
    (
        BIB,
        b"MATCH document('d') (//- BOOK ! (/+ text()))",
        &[(&[2], &[4, 7])],
        b"(witness\nAYEAR CDATA 1994\n(BOOK\n-on\n(TITLE\n-TCP/IP\n)TITLE\n-ceonce\n)BOOK\n)witness\n",
    ),
    (
        BIB,
        b"MATCH document('d') (//- BOOK ! (/- TITLE))",
        &[(&[2], &[5])],
        b"(witness\nAYEAR CDATA 1994\n(BOOK\n-on\n(TITLE\n-TCP/IP\n)TITLE\n-ce\n(TITLE\n)TITLE\n)BOOK\n)witness\n",
    ),
    (
        BIB,
        b"MATCH document('d') (//* text())",
        &[(&[], &[4, 6, 7])],
        b"(witness\n-onTCP/IPce\n)witness\n",
    ),
    (
        BIB,
        b"MATCH document('d') (//- text() ! (/* *))",
        &[(&[4], &[])],
        b"(witness\n-on\n)witness\n",
    ),
];

#[test]
fn each_row_has_its_tree(rt: HostRuntime) -> Result<(), Fail> {
    for (lines, text, rows, wanted) in CASES {
        let found = shown(rt.alloc(), lines, text, rows)?;
        assert_eq!(rt; found.as_slice(), wanted);
    }
    Ok(())
}

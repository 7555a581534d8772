//! What no clause says: that lines are read and printed with ample memory.

ghost use Rattle.std.specs.Prelude.{◌≡◌, ◌<◌, ◌≤◌, ◌↔◌, IfOk, IfSome, IsErr, IsNone, IsTrue, length};
ghost use Rattle.tb_tree.specs.Plain.{one, is_element};
ghost use Rattle.tb_tree.specs.View.{plain_of};
ghost use Rattle.tb_tree.specs.Sound.{IsSound};
ghost use Rattle.tb_tree.specs.Levels.{levels};
ghost use Rattle.tb_tree.specs.Printed.{printed_node};
ghost use Rattle.tb_esis.specs.declared.fault.EsisFault.TheVariants.{NoMemory};

use crate::{EsisFault, read_tree};
use std::alloc::{AllocError, Global};
use std::test::Fail;
use tb_tree::{Node, Tree, Writer, value};

// Lines, and what the tree prints or the fault.
const ESCAPES: &[(&[u8], &[u8])] = &[
    (b"(a\n-\\\\\\|\\012\n)a", b"(a\n-\\\\\n)a\n"),
    (b"(a\n-x\\ny\\#10;z\n)a", b"(a\n-x\\ny\\nz\n)a\n"),
    (b"(a\n-\\0012\n)a", b"(a\n-\\0012\n)a\n"),
    (b"(a\n-\\#0;\\#000233;\n)a", b"(a\n-\\000\xc3\xa9\n)a\n"),
    (
        b"(a\n-\\351\\377\\#1114111;\n)a",
        b"(a\n-\xe9\xff\xf4\x8f\xbf\xbf\n)a\n",
    ),
    (b"(a\n-\\#1114112;\n)a", b"BadEscape(2)"),
    (b"(a\n-\\#55296;\n)a", b"BadEscape(2)"),
    (b"(a\n-\\#99999999999999999999;\n)a", b"BadEscape(2)"),
    (b"(a\n-\\#;\n)a", b"BadEscape(2)"),
    (b"(a\n-\\#5\n)a", b"BadEscape(2)"),
    (b"(a\n-\\400\n)a", b"BadEscape(2)"),
    (b"(a\n-\\18\n)a", b"BadEscape(2)"),
    (b"(a\n-x\\\n)a", b"BadEscape(2)"),
    (b"(a\n-\\%5;\n)a", b"BadEscape(2)"),
];

const LINES: &[(&[u8], &[u8])] = &[
    (b"(a\r\n-x\ry\r\n)a\r\n", b"(a\n-x\\015y\n)a\n"),
    (b"(a\n)a\r", b"WrongEnd(2)"),
    (b"(a\n-x\n\nLpage\nAy IMPLIED\n&e\n-y\n)a", b"(a\n-xy\n)a\n"),
    (b"(a\n-x\n(b\n)b\n-y\n)a", b"(a\n-x\n(b\n)b\n-y\n)a\n"),
    (b"-\n-\\|\n(a\n)a\n-\\012\nC\n-\nC\n", b"(a\n)a\n"),
    (
        b"(\xc3\xa9\n-\xff\n)\xc3\xa9",
        b"(\xc3\xa9\n-\xff\n)\xc3\xa9\n",
    ),
    (b"-x\n(a\n)a", b"TextOutside(1)"),
    (b"(a\n)a\n-x", b"TextOutside(3)"),
    (b"", b"NoElement(1)"),
    (b"\n\n", b"NoElement(3)"),
    (b"C\n(a\n)a", b"NoElement(1)"),
    (b"(a\nC\n)a", b"NotEnded(2)"),
    (b"(a", b"NotEnded(2)"),
    (b")a", b"WrongEnd(1)"),
    (b"(a\n)b", b"WrongEnd(2)"),
    (b"(a\n)ab\n)a", b"WrongEnd(2)"),
    (b"(ab\n)a\n)ab", b"WrongEnd(2)"),
    (b"(a\n)a\n(b", b"SecondRoot(3)"),
    (b"(a b", b"BadName(1)"),
    (b"(\n)", b"BadName(1)"),
];

const ATTRIBUTES: &[(&[u8], &[u8])] = &[
    (
        b"Ax CDATA  1 2 \nAy TOKEN\n(a\n)a",
        b"Ax CDATA  1 2 \nAy CDATA \n(a\n)a\n",
    ),
    (
        b"Ax IMPLIED\nAx CDATA \\n\n(a\n)a",
        b"Ax CDATA \\n\n(a\n)a\n",
    ),
    (
        b"(a\n-x\nAy CDATA 1\n(b\n)b\n)a",
        b"(a\n-x\nAy CDATA 1\n(b\n)b\n)a\n",
    ),
    (b"Ax IMPLIED \\\n(a\n)a", b"(a\n)a\n"),
    (b"Ax\n(a\n)a", b"BadAttribute(1)"),
    (b"Ax \n(a\n)a", b"BadAttribute(1)"),
    (b"Ax  CDATA 1\n(a\n)a", b"BadAttribute(1)"),
    (b"A IMPLIED\n(a\n)a", b"BadName(1)"),
    (b"A\x01 IMPLIED\n(a\n)a", b"BadName(1)"),
    (b"Ax CDATA \\\n(a\n)a", b"BadEscape(1)"),
    (b"Ax CDATA 1\nAx CDATA \\\n(a\n)a", b"BadAttribute(2)"),
    (
        b"Ax CDATA 1\nAy CDATA 2\nAx CDATA 3\n(a\n)a",
        b"BadAttribute(3)",
    ),
    (
        b"Ax CDATA 1\n(a\nAx CDATA 2\n(b\n)b\n)a",
        b"Ax CDATA 1\n(a\nAx CDATA 2\n(b\n)b\n)a\n",
    ),
    (b"(a\nAx CDATA 1\n)a", b"BadAttribute(3)"),
    (b"(a\nAx CDATA 1\n-y\n)a", b"BadAttribute(3)"),
    (b"(a\nAx CDATA 1\n-\\\n)a", b"BadEscape(3)"),
    (b"(a\n)a\nAx CDATA 1\nC", b"BadAttribute(4)"),
    (b"(a\n)a\nAx CDATA 1", b"BadAttribute(4)"),
];

fn printed(alloc: Global, tree: &Tree) -> Result<Vec<u8>, AllocError>
    ensures sound { IsSound (plain_of tree.now) }
    ensures element { IsTrue (is_element (plain_of tree.now)) }
    ensures lines { IfOk result (λ lines. lines.items ≡ printed_node (plain_of tree.now)) }
{
    tree.text().to_vec(alloc)
}

// The document that was printed and read, or none where what it prints is too long to be read. Its clauses
// say that nothing of it is lost on the way.
fn read_back(alloc: Global, tree: &Tree) -> Result<Option<Tree>, AllocError>
    requires { levels (one (plain_of tree.now)) ≤ 512 }
    ensures same { IfOk result (λ read. IfSome read (λ back. plain_of back ≡ plain_of tree.now)) }
    ensures long { IfOk result (λ read.
        IsNone read ↔ (67108864 < length (printed_node (plain_of tree.now)))) }
{
    let lines = printed(alloc, tree)?;
    if lines.len() > 67_108_864 {
        return Ok(None);
    }
    match read_tree(alloc, &lines) {
        Ok(back) => Ok(Some(back)),
        Err(fault) => pass_refusal(fault),
    }
}

fn pass_refusal(fault: EsisFault) -> Result<Option<Tree>, AllocError>
    requires { fault ≡ NoMemory }
    ensures { IsErr result }
{
    match fault {
        EsisFault::NoMemory => Err(AllocError),
        _ => unreachable!(),
    }
}

// What the tree prints, or the fault.
fn answered(alloc: Global, lines: &[u8]) -> Result<Vec<u8>, AllocError>
    requires { length lines.now ≤ 67108864 }
{
    match read_tree(alloc, lines) {
        Ok(tree) => {
            let Some(back) = read_back(alloc, &tree)? else {
                return Ok(Vec::new(alloc));
            };
            printed(alloc, &back)
        }
        Err(fault) => {
            let word = format!(in alloc; "{fault:?}")?;
            word.as_bytes().to_vec(alloc)
        }
    }
}

// The number of the first row that is answered otherwise, from 1, or 0.
fn wrong_row(alloc: Global, rows: &[(&[u8], &[u8])]) -> Result<usize, AllocError> {
    for (at, (lines, answer)) in rows.iter().enumerate() {
        if lines.len() > 1000 || answered(alloc, lines)?.as_slice() != *answer {
            return Ok(at + 1);
        }
    }
    Ok(0)
}

#[test]
fn escapes_give_their_bytes(rt: HostRuntime) -> Result<(), Fail> {
    let wrong = wrong_row(rt.alloc(), ESCAPES)?;
    assert_eq!(rt; wrong, 0);
    Ok(())
}

#[test]
fn lines_are_read_as_a_tree_or_have_a_fault(rt: HostRuntime) -> Result<(), Fail> {
    let wrong = wrong_row(rt.alloc(), LINES)?;
    assert_eq!(rt; wrong, 0);
    Ok(())
}

#[test]
fn attributes_wait_for_their_element(rt: HostRuntime) -> Result<(), Fail> {
    let wrong = wrong_row(rt.alloc(), ATTRIBUTES)?;
    assert_eq!(rt; wrong, 0);
    Ok(())
}

// What the document prints that is made of a copy of the root, or no byte where the lines have a fault.
fn made_again(alloc: Global, lines: &[u8]) -> Result<Vec<u8>, AllocError>
    requires { length lines.now ≤ 67108864 }
{
    let Ok(tree) = read_tree(alloc, lines) else {
        return Ok(Vec::new(alloc));
    };
    if tree.text().len() > 67_108_864 {
        return Ok(Vec::new(alloc));
    }
    let node = tree.root(alloc)?;
    match Tree::of_node(alloc, &node)? {
        Some(made) => printed(alloc, &made),
        None => Ok(Vec::new(alloc)),
    }
}

#[test]
fn a_node_is_the_root_of_its_document(rt: HostRuntime) -> Result<(), Fail> {
    let lines = b"Ax CDATA 1\nAy CDATA \n(a\n-t\nAx CDATA \\n\n(b\n-\\\\\n)b\n(a\n)a\n-u\n)a\n";
    let made = made_again(rt.alloc(), lines)?;
    assert_eq!(rt; made.as_slice(), lines.as_slice());
    Ok(())
}

// So many elements inside each other.
fn nested(alloc: Global, levels: usize) -> Result<Vec<u8>, AllocError> {
    let mut lines = Vec::new(alloc);
    for _level in 0..levels {
        lines.extend_from_slice(b"(a\n")?;
    }
    for _level in 0..levels {
        lines.extend_from_slice(b")a\n")?;
    }
    Ok(lines)
}

fn answered_nested(alloc: Global, levels: usize) -> Result<Vec<u8>, AllocError> {
    let lines = nested(alloc, levels)?;
    if lines.len() > 10_000 {
        return Ok(lines);
    }
    answered(alloc, &lines)
}

#[test]
fn elements_are_512_inside_each_other(rt: HostRuntime) -> Result<(), Fail> {
    let most = nested(rt.alloc(), 512)?;
    let same = answered_nested(rt.alloc(), 512)?;
    assert_eq!(rt; same, most);
    let past = answered_nested(rt.alloc(), 513)?;
    assert_eq!(rt; past.as_slice(), b"TooDeep(513)".as_slice());
    Ok(())
}

// The value of a copy of the root, or no byte where the lines have a fault.
fn value_of_copy(alloc: Global, lines: &[u8]) -> Result<Vec<u8>, AllocError>
    requires { length lines.now ≤ 67108864 }
{
    let Ok(tree) = read_tree(alloc, lines) else {
        return Ok(Vec::new(alloc));
    };
    let copy = tree.root(alloc)?.copy(alloc)?;
    let bytes = value(alloc, &copy)?;
    Ok(bytes.into_vec())
}

#[test]
fn an_element_has_the_value_of_its_texts(rt: HostRuntime) -> Result<(), Fail> {
    let given = value_of_copy(
        rt.alloc(),
        b"Ax CDATA 1\n(a\n-a\\\\b\\nc\\|d\\|\n(b\n-\\012e\\#233;\\351\n)b\n)a",
    )?;
    assert_eq!(rt; given.as_slice(), b"a\\b\ncde\xc3\xa9\xe9".as_slice());
    Ok(())
}

// The lines of a page on which each call of `Writer` put something of the document, or no byte where this has
// a fault or fewer than three nodes.
fn paged(alloc: Global, lines: &[u8]) -> Result<Vec<u8>, AllocError>
    requires { length lines.now ≤ 67108864 }
{
    let Ok(tree) = read_tree(alloc, lines) else {
        return Ok(Vec::new(alloc));
    };
    if tree.count() < 3 {
        return Ok(Vec::new(alloc));
    }
    let mut page = Writer::new(alloc);
    page.open_marked(b"k")?;
    page.text(b"v")?;
    page.close_marked(b"k")?;
    page.attribute(b"x", b"1")?;
    page.document_attributes(&tree, 1)?;
    page.open(b"r")?;
    page.text(b"t")?;
    page.document_content(&tree, 1)?;
    page.document_node(&tree, 3)?;
    page.end()?;
    let root = tree.node(alloc, 1)?;
    page.node(&root)?;
    if let Node::Elem { kids, .. } = &root {
        page.attributes(kids.as_slice())?;
        page.nodes(kids.as_slice())?;
    }
    page.close(b"r")?;
    page.into_vec()
}

#[test]
fn a_page_has_what_was_written(rt: HostRuntime) -> Result<(), Fail> {
    let page = paged(rt.alloc(), b"Ak CDATA 1\n(r\n-x\n(b\n-y\n)b\n)r\n")?;
    let lines =
        b"(@k\n-v\n)@k\nAx CDATA 1\nAk CDATA 1\n(r\n-tx\n(b\n-y\n)b\n-x\nAk CDATA 1\n(r\n-x\n(b\n-y\n)b\n)r\nAk CDATA 1\n-x\n(b\n-y\n)b\n)r\n";
    assert_eq!(rt; page.as_slice(), lines.as_slice());
    Ok(())
}

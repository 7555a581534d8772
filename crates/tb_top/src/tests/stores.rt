//! Labelled documents, as a load keeps them: labels and lists of two small documents.

ghost use Rattle.std.specs.Prelude.{◌≡◌, ◌^◌, ◌<◌, ◌≤◌, IfOk, IfSome};
ghost use Rattle.tb_tree.specs.Plain.{one};
ghost use Rattle.tb_tree.specs.View.{plain_of};
ghost use Rattle.tb_tree.specs.Numbers.{count};
ghost use Rattle.tb_tree.specs.Levels.{levels};

use std::alloc::{AllocError, Global};
use std::test::Fail;
use tb_esis::{EsisFault, read_tree};
use tb_label::{Comparand, Prepared, Store, key, printed, printed_key, printed_value, stands};
use tb_number::CmpOp;
use tb_span::Item;
use tb_tree::{Bytes, Test, Tree};

// The document node, the elements, no attribute, no text; the elements `a`, no attribute `a`.
const NESTED_ITEMS: &str = "Label { start: 1, end: 8, level: 0 } 0
.
Label { start: 2, end: 7, level: 1 } 1
Label { start: 3, end: 6, level: 2 } 2
Label { start: 4, end: 5, level: 3 } 3
.
.
.
Label { start: 2, end: 7, level: 1 } 1
Label { start: 3, end: 6, level: 2 } 2
Label { start: 4, end: 5, level: 3 } 3
.
.
";

// The document node, the elements, the attribute, the texts; the element `b`; the attribute `k`.
const MIXED_ITEMS: &str = "Label { start: 1, end: 12, level: 0 } 0
.
Label { start: 2, end: 11, level: 1 } 1
Label { start: 7, end: 10, level: 2 } 4
.
Label { start: 3, end: 4, level: 2 } 2
.
Label { start: 5, end: 6, level: 2 } 3
Label { start: 8, end: 9, level: 3 } 5
.
Label { start: 7, end: 10, level: 2 } 4
.
.
.
Label { start: 3, end: 4, level: 2 } 2
.
.
.
";

fn bytes(alloc: Global, of: &[u8]) -> Result<Bytes, AllocError>
    ensures { IfOk result (λ b. b ≡ of.now) }
{
    Ok(Bytes::from_vec(of.to_vec(alloc)?))
}

// Three elements `a` inside each other.
const NESTED: &[u8] = b"(a\n(a\n(a\n)a\n)a\n)a\n";

// An element `r` with an attribute, a text, and an element `b` that holds a text.
const MIXED: &[u8] = b"Ak CDATA 1\n(r\n-x\n(b\n-y\n)b\n)r\n";

// The document of the lines, where they are one.
pub fn document(alloc: Global, lines: &[u8]) -> Result<Option<Tree>, AllocError>
    ensures nodes { IfOk result (λ tree. IfSome tree (λ t. count (plain_of t) < 2 ^ 30)) }
    ensures levels { IfOk result (λ tree. IfSome tree (λ t. levels (one (plain_of t)) ≤ 512)) }
{
    if lines.len() > 1000 {
        return Ok(None);
    }
    match read_tree(alloc, lines) {
        Ok(tree) => Ok(Some(tree)),
        Err(EsisFault::NoMemory) => Err(AllocError),
        Err(_) => Ok(None),
    }
}

// Adds the label and the number of each item, a line each, and a line `.`.
fn show(alloc: Global, items: &[Item], text: &mut String) -> Result<(), AllocError> {
    for item in items {
        let line = format!(in alloc; "{:?} {}\n", item.label, item.node.index())?;
        text.push_str(&line)?;
    }
    text.push_str(".\n")
}

// Adds the elements of the name, and then the attributes of the name.
fn show_name(
    alloc: Global,
    store: &Store,
    name: &[u8],
    text: &mut String,
) -> Result<(), AllocError> {
    let element = Test::Name(bytes(alloc, name)?);
    let attribute = Test::AttrName(bytes(alloc, name)?);
    show(alloc, store.list(&element.copy(alloc)?), text)?;
    show(alloc, store.list(&attribute.copy(alloc)?), text)
}

// The document node, all elements, attributes and texts, and those of each name that is asked for.
fn shown(alloc: Global, lines: &[u8], names: &[&[u8]]) -> Result<String, AllocError> {
    let mut text = String::new(alloc);
    let Some(tree) = document(alloc, lines)? else {
        return Ok(text);
    };
    let store = Store::build(alloc, tree)?;
    show(alloc, store.document_item(), &mut text)?;
    show(alloc, store.list(&Test::AnyElement), &mut text)?;
    show(alloc, store.list(&Test::AnyAttr), &mut text)?;
    show(alloc, store.list(&Test::AnyText), &mut text)?;
    for name in names {
        show_name(alloc, &store, name, &mut text)?;
    }
    Ok(text)
}

#[test]
fn three_nested_elements_have_their_labels(rt: HostRuntime) -> Result<(), Fail> {
    let text = shown(rt.alloc(), NESTED, &[b"a"])?;
    assert_eq!(rt; text.as_str(), NESTED_ITEMS);
    Ok(())
}

#[test]
fn each_test_lists_its_nodes_in_document_order(rt: HostRuntime) -> Result<(), Fail> {
    let text = shown(rt.alloc(), MIXED, &[b"b", b"k", b"x"])?;
    assert_eq!(rt; text.as_str(), MIXED_ITEMS);
    Ok(())
}

// Whether the attribute, the text and the inner element of `MIXED` stand to numbers, bytes and values, and have
// the keys of such, and the root that of its two texts.
fn compared(alloc: Global) -> Result<String, AllocError> {
    let Some(tree) = document(alloc, MIXED)? else {
        return String::from_str(alloc, "no document");
    };
    if tree.count() < 4 {
        return String::from_str(alloc, "few nodes");
    }
    let one = Comparand::Number(1);
    let x = Comparand::Bytes(Prepared::new(alloc, b"x")?);
    let value = Comparand::Value(Prepared::new(alloc, b"01")?);
    let number = stands(alloc, &tree, 2, CmpOp::Eq, &one)?;
    let text = stands(alloc, &tree, 3, CmpOp::Eq, &x)?;
    let element = stands(alloc, &tree, 4, CmpOp::Le, &x)?;
    let same = stands(alloc, &tree, 2, CmpOp::Eq, &value)?;
    let attribute = is_key_of(alloc, &tree, 2, b"01")?;
    let root = is_key_of(alloc, &tree, 1, b"xy")?;
    format!(in alloc; "{number} {text} {element} {same} {attribute} {root}")
}

// Whether the node's key is that of the value.
fn is_key_of(alloc: Global, tree: &Tree, number: u32, value: &[u8]) -> Result<bool, AllocError>
    requires some { 1 ≤ number }
    requires within { number ≤ count (plain_of tree.now) }
{
    let outside = printed(alloc, value)?;
    let whole = printed_value(alloc, tree, number)?;
    match key(tree, number) {
        Some(key) => Ok(key == printed_key(&outside)),
        None => Ok(printed_key(&whole) == printed_key(&outside)),
    }
}

#[test]
fn values_are_compared_and_have_keys(rt: HostRuntime) -> Result<(), Fail> {
    let told = compared(rt.alloc())?;
    assert_eq!(rt; told.as_str(), "true true false true true true");
    Ok(())
}

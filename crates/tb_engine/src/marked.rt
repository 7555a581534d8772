//! The start and the end of a matched node's tree.

ghost use Rattle.std.specs.Prelude.{◌≡◌, ◌≤◌, OnOk};
ghost use Rattle.tb_tree.specs.View.{plain_of};
ghost use Rattle.tb_tree.specs.Numbers.{count};
ghost use Rattle.tb_tree.specs.Nodes.{node_at};
ghost use Rattle.tb_tree.specs.Extents.{kind_of, name_of};
ghost use Rattle.tb_tree.specs.Pages.{with_node, with_text};
ghost use Rattle.tb_tree.specs.Extents.{kind_of};
ghost use Rattle.tb_tree.specs.declared.extent.Kind.TheVariants.{Element, Attribute, Text};
ghost use Rattle.tb_tree.specs.Value.{value_of};
ghost use Rattle.tb_engine.specs.Shown.{looked};
ghost use Rattle.tb_engine.specs.Marked.{begun, finished};

use std::alloc::{AllocError, Global};
use tb_tree::{Kind, Tree, Writer};

/// Which kind the node is of: the document node, 0, is an element.
pub fn kind_at(tree: &Tree, node: u32) -> Kind
    ensures { result ≡ kind_of (looked (plain_of tree.now) node) }
{
    if node == 0 {
        return Kind::Element;
    }
    tree.kind(number_of(tree, node))
}

fn name_at(tree: &Tree, node: u32) -> &[u8]
    ensures { result.now ≡ name_of (looked (plain_of tree.now) node) }
{
    if node == 0 {
        return b"witness".as_slice();
    }
    tree.name(number_of(tree, node))
}

/// The number itself, or that of the root where no node has it.
fn number_of(tree: &Tree, node: u32) -> u32
    ensures some { 1 ≤ result }
    ensures within { result ≤ count (plain_of tree.now) }
    ensures same { node_at (plain_of tree.now) result ≡ node_at (plain_of tree.now) node }
{
    if 1 <= node && node as usize <= tree.count() {
        return node;
    }
    1
}

/// All that stands before the offered trees.
pub fn begin(
    alloc: Global,
    tree: &Tree,
    node: u32,
    whole: bool,
    page: &mut Writer,
) -> Result<(), AllocError>
    ensures { OnOk result (page.new ≡ begun whole (looked (plain_of tree.now) node) page.old) }
{
    match kind_at(tree, node) {
        Kind::Element => begin_element(tree, node, whole, page),
        Kind::Attribute => begin_attribute(alloc, tree, node, whole, page),
        Kind::Text => page.document_node(tree, number_of(tree, node)),
    }
}

fn begin_element(tree: &Tree, node: u32, whole: bool, page: &mut Writer) -> Result<(), AllocError>
    requires { kind_of (looked (plain_of tree.now) node) ≡ Element }
    ensures { OnOk result (page.new ≡ begun whole (looked (plain_of tree.now) node) page.old) }
{
    if node == 0 || !whole {
        return page.open(name_at(tree, node));
    }
    let number = number_of(tree, node);
    // So sound is each node of a document.
    let _ = tree.printed(number);
    page.document_attributes(tree, number)?;
    page.open(tree.name(number))?;
    page.document_content(tree, number)?;
    Ok(())
}

fn begin_attribute(
    alloc: Global,
    tree: &Tree,
    node: u32,
    whole: bool,
    page: &mut Writer,
) -> Result<(), AllocError>
    requires { kind_of (looked (plain_of tree.now) node) ≡ Attribute }
    ensures { OnOk result (page.new ≡ begun whole (looked (plain_of tree.now) node) page.old) }
{
    page.open_marked(name_at(tree, node))?;
    if whole {
        write_value(alloc, tree, number_of(tree, node), page)?;
    }
    Ok(())
}

/// The value of an attribute as a text.
fn write_value(alloc: Global, tree: &Tree, number: u32, page: &mut Writer) -> Result<(), AllocError>
    requires some { 1 ≤ number }
    requires within { number ≤ count (plain_of tree.now) }
    requires attribute { kind_of (node_at (plain_of tree.now) number) ≡ Attribute }
    ensures { OnOk result (page.new ≡ with_text page.old (value_of (node_at (plain_of tree.now) number))) }
{
    if let Some(value) = tree.lent_value(number) {
        return page.text(value);
    }
    let value = tree.value(alloc, number)?;
    page.text(value.as_slice())?;
    Ok(())
}

/// The end behind the offered trees.
pub fn finish(tree: &Tree, node: u32, page: &mut Writer) -> Result<(), AllocError>
    ensures { OnOk result (page.new ≡ finished (looked (plain_of tree.now) node) page.old) }
{
    match kind_at(tree, node) {
        Kind::Element => page.close(name_at(tree, node)),
        Kind::Attribute => page.close_marked(name_at(tree, node)),
        Kind::Text => Ok(()),
    }
}

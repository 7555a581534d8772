//! The value of a document's node compared, without a copy where it can be.

ghost use Rattle.std.specs.Prelude.{◌≡◌, ◌≤◌, IfOk, IfSome};
ghost use Rattle.tb_tree.specs.View.{plain_of};
ghost use Rattle.tb_tree.specs.Numbers.{count};
ghost use Rattle.tb_tree.specs.Nodes.{node_at};
ghost use Rattle.tb_tree.specs.Value.{value_of};
ghost use Rattle.tb_tree.specs.Printed.{escaped};
ghost use Rattle.tb_number.specs.Values.{stands_to_number, stands_to_bytes, stands_to_value};
ghost use Rattle.tb_number.specs.Reading.{integer_of};
ghost use Rattle.tb_label.specs.Prepared.{is_equality, equality_holds};
ghost use Rattle.tb_label.specs.Comparands.{stands_to};

use crate::comparand::{Comparand, Prepared};
use std::alloc::{AllocError, Global};
use tb_number::{CmpOp, IntText};
use tb_tree::Tree;

/// Whether the value of the node with that number, from 1 in document order, stands so to what it is compared
/// with. A value that lies in one piece is compared as it is lent or as it prints, where that decides.
pub fn stands(
    alloc: Global,
    tree: &Tree,
    number: u32,
    op: CmpOp,
    with: &Comparand<'_>,
) -> Result<bool, AllocError>
    requires some { 1 ≤ number }
    requires within { number ≤ count (plain_of tree.now) }
    ensures { IfOk result (λ stands. stands ≡ stands_to op (value_of (node_at (plain_of tree.now) number)) with.now) }
{
    match with {
        Comparand::Number(other) => stands_to_number(alloc, tree, number, op, *other),
        Comparand::Bytes(other) => stands_to_bytes(alloc, tree, number, op, other),
        Comparand::Value(other) => stands_to_value(alloc, tree, number, op, other),
    }
}

fn stands_to_number(
    alloc: Global,
    tree: &Tree,
    number: u32,
    op: CmpOp,
    other: i128,
) -> Result<bool, AllocError>
    requires some { 1 ≤ number }
    requires within { number ≤ count (plain_of tree.now) }
    ensures { IfOk result (λ stands. stands ≡ stands_to_number op (value_of (node_at (plain_of tree.now) number)) other) }
{
    if let Some(value) = lent(tree, number) {
        return Ok(number_stands(op, value, other));
    }
    let value = tree.value(alloc, number)?;
    Ok(number_stands(op, value.as_slice(), other))
}

fn number_stands(op: CmpOp, value: &[u8], other: i128) -> bool
    ensures { result ≡ stands_to_number op value.now other }
{
    match IntText::read(value) {
        Some(number) => op.holds(number.compare_to(other)),
        None => false,
    }
}

fn stands_to_bytes(
    alloc: Global,
    tree: &Tree,
    number: u32,
    op: CmpOp,
    other: &Prepared<'_>,
) -> Result<bool, AllocError>
    requires some { 1 ≤ number }
    requires within { number ≤ count (plain_of tree.now) }
    ensures { IfOk result (λ stands. stands ≡ stands_to_bytes op (value_of (node_at (plain_of tree.now) number)) other.now) }
{
    if is_equality(op) {
        if let Some(printed) = raw(tree, number) {
            return Ok(equality_holds(op, other.prints_as(printed)));
        }
    }
    if let Some(value) = lent(tree, number) {
        return Ok(bytes_stand(op, value, other.bytes()));
    }
    let value = tree.value(alloc, number)?;
    Ok(bytes_stand(op, value.as_slice(), other.bytes()))
}

fn bytes_stand(op: CmpOp, value: &[u8], other: &[u8]) -> bool
    ensures { result ≡ stands_to_bytes op value.now other.now }
{
    op.holds(value.cmp(&other))
}

fn stands_to_value(
    alloc: Global,
    tree: &Tree,
    number: u32,
    op: CmpOp,
    other: &Prepared<'_>,
) -> Result<bool, AllocError>
    requires some { 1 ≤ number }
    requires within { number ≤ count (plain_of tree.now) }
    ensures { IfOk result (λ stands. stands ≡ stands_to_value op (value_of (node_at (plain_of tree.now) number)) other.now) }
{
    let Some(read) = other.number() else {
        return stands_to_bytes(alloc, tree, number, op, other);
    };
    if let Some(value) = lent(tree, number) {
        return Ok(value_stands(op, value, read, other.bytes()));
    }
    let value = tree.value(alloc, number)?;
    Ok(value_stands(op, value.as_slice(), read, other.bytes()))
}

/// The other value is an integer text of that number.
fn value_stands(op: CmpOp, value: &[u8], read: &IntText<'_>, other: &[u8]) -> bool
    ensures { integer_of other.now ≡ Some read.now → result ≡ stands_to_value op value.now other.now }
{
    match IntText::read(value) {
        Some(number) => op.holds(number.compare(read)),
        None => bytes_stand(op, value, other),
    }
}

/// The value where it is lent.
fn lent(tree: &Tree, number: u32) -> Option<&[u8]>
    requires some { 1 ≤ number }
    requires within { number ≤ count (plain_of tree.now) }
    ensures { IfSome result (λ value. value.now ≡ value_of (node_at (plain_of tree.now) number)) }
{
    match tree.lent_value(number) {
        Some(value) => Some(value),
        None => None,
    }
}

/// The value as it prints, where it lies in one piece.
fn raw(tree: &Tree, number: u32) -> Option<&[u8]>
    requires some { 1 ≤ number }
    requires within { number ≤ count (plain_of tree.now) }
    ensures { IfSome result (λ printed. printed.now ≡ escaped (value_of (node_at (plain_of tree.now) number))) }
{
    match tree.raw_value(number) {
        Some(printed) => Some(printed),
        None => None,
    }
}

fn is_equality(op: CmpOp) -> bool
    ensures { result ≡ is_equality op }
{
    match op {
        CmpOp::Eq | CmpOp::Ne => true,
        CmpOp::Lt | CmpOp::Le | CmpOp::Gt | CmpOp::Ge => false,
    }
}

fn equality_holds(op: CmpOp, same: bool) -> bool
    ensures { result ≡ equality_holds op same }
{
    match op {
        CmpOp::Eq => same,
        CmpOp::Ne => !same,
        _ => false,
    }
}

//! Conditions tested on the text of a document.

ghost use Rattle.std.specs.Prelude.{◌≡◌, ◌≤◌, map, filter, All, IfOk};
ghost use Rattle.tb_tree.specs.View.{plain_of};
ghost use Rattle.tb_tree.specs.Numbers.{count};
ghost use Rattle.tb_tree.specs.Nodes.{node_at};
ghost use Rattle.tb_tree.specs.Value.{value_of};
ghost use Rattle.tb_twig.specs.Lists.{comparand_of, prepared, all_stand, holding};

use std::alloc::{AllocError, Global};
use tb_label::{Comparand, Prepared, stands};
use tb_number::CmpOp;
use tb_pattern::{Cond, Literal};
use tb_span::Item;
use tb_tree::Tree;

/// A condition that is prepared for many values.
#[derive(Drop)]
pub struct Condition<'a> {
    pub op: CmpOp,
    pub with: Comparand<'a>,
}

/// The items whose nodes' values meet all conditions.
pub fn holding(
    alloc: Global,
    tree: &Tree,
    items: &[Item],
    conds: &[Cond],
) -> Result<Vec<Item>, AllocError>
    requires { All (λ i. (1 ≤ i.node) × (i.node ≤ count (plain_of tree.now))) items.now }
    ensures { IfOk result (λ kept. kept.items ≡ holding (plain_of tree.now) conds.now items.now) }
{
    let conditions = prepared(alloc, conds)?;
    let kept = standing(alloc, tree, items, conditions.as_slice())?;
    Ok(kept)
}

fn prepared<'a>(alloc: Global, conds: &'a [Cond]) -> Result<Vec<Condition<'a>>, AllocError>
    ensures { IfOk result (λ conditions. conditions.items ≡ map prepared conds.now) }
{
    let mut conditions = Vec::with_capacity(alloc, conds.len())?;
    'conds: for cond in conds {
        conditions.push(Condition {
            op: cond.op,
            with: comparand(alloc, &cond.with)?,
        })?;
    }
    Ok(conditions)
}

fn comparand<'a>(alloc: Global, literal: &'a Literal) -> Result<Comparand<'a>, AllocError>
    ensures { IfOk result (λ with. with ≡ comparand_of literal.now) }
{
    match literal {
        Literal::Number(number) => Ok(Comparand::Number(*number)),
        Literal::Text(text) => Ok(Comparand::Bytes(Prepared::new(alloc, text.as_slice())?)),
    }
}

fn standing(
    alloc: Global,
    tree: &Tree,
    items: &[Item],
    conditions: &[Condition<'_>],
) -> Result<Vec<Item>, AllocError>
    requires { All (λ i. (1 ≤ i.node) × (i.node ≤ count (plain_of tree.now))) items.now }
    ensures { IfOk result (λ kept. kept.items
        ≡ filter (λ i. all_stand conditions.now (value_of (node_at (plain_of tree.now) i.node))) items.now) }
{
    let mut kept = Vec::new(alloc);
    'items: for item in items {
        if all_stand(alloc, tree, item.node.index(), conditions)? {
            kept.push(*item)?;
        }
    }
    Ok(kept)
}

fn all_stand(
    alloc: Global,
    tree: &Tree,
    number: u32,
    conditions: &[Condition<'_>],
) -> Result<bool, AllocError>
    requires some { 1 ≤ number }
    requires within { number ≤ count (plain_of tree.now) }
    ensures { IfOk result (λ all. all ≡ all_stand conditions.now (value_of (node_at (plain_of tree.now) number))) }
{
    'conditions: for condition in conditions {
        if !stands(alloc, tree, number, condition.op, &condition.with)? {
            return Ok(false);
        }
    }
    Ok(true)
}

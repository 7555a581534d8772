//! The names of documents as they are written in a query, from left to right.

ghost use Rattle.std.specs.Prelude.{◌≡◌, ◌++◌, IfOk, OnOk, map, flat_map};
ghost use Rattle.tb_query.specs.Lent.{lent};
ghost use Rattle.tb_query.specs.Parts.{cons_of, part_of, back_of, plain_parts};
ghost use Rattle.tb_query.specs.Names.{written_names, names_of_flwor, names_of_clause, names_of_comparison, names_of_group};
ghost use Rattle.tb_query.specs.Names.{names_of_key, names_of_back, names_of_attribute, names_of_cons, names_of_part, names_of_parts};
ghost use Rattle.tb_query.specs.Names.{names_of_content, names_of_right, names_of_operand, names_of_path};

use crate::{
    AttrPart, Back, Clause, Comparison, Cons, Content, Flwor, GroupBy, Key, Operand, Part, Path,
    Query, Right, Start,
};
use std::alloc::{AllocError, Global};

pub fn names_in<'a>(alloc: Global, query: &'a Query) -> Result<Vec<&'a [u8]>, AllocError>
    ensures { IfOk result (λ names. lent names.items ≡ written_names query.now) }
{
    let mut names = Vec::new(alloc);
    match query {
        Query::Match(pattern) => names.push(pattern.document.as_slice())?,
        Query::Flwor(flwor) => push_flwor(&mut names, flwor)?,
    }
    Ok(names)
}

fn push_flwor<'a>(names: &mut Vec<&'a [u8]>, flwor: &'a Flwor) -> Result<(), AllocError>
    ensures { OnOk result
        (lent names.new.items ≡ lent names.old.items ++ names_of_flwor flwor.now) }
{
    push_clauses(names, flwor.clauses.as_slice())?;
    push_conds(names, flwor.conds.as_slice())?;
    push_group(names, &flwor.group)?;
    push_keys(names, flwor.keys.as_slice())?;
    push_back(names, &flwor.back)
}

fn push_clauses<'a>(names: &mut Vec<&'a [u8]>, clauses: &'a [Clause]) -> Result<(), AllocError>
    ensures { OnOk result
        (lent names.new.items ≡ lent names.old.items ++ flat_map names_of_clause clauses.now) }
{
    'clauses: for clause in clauses {
        push_clause(names, clause)?;
    }
    Ok(())
}

fn push_clause<'a>(names: &mut Vec<&'a [u8]>, clause: &'a Clause) -> Result<(), AllocError>
    ensures { OnOk result
        (lent names.new.items ≡ lent names.old.items ++ names_of_clause clause.now) }
{
    match clause {
        Clause::For { path, .. } => push_path(names, path),
        Clause::Let { path, .. } => push_path(names, path),
    }
}

fn push_conds<'a>(names: &mut Vec<&'a [u8]>, conds: &'a [Comparison]) -> Result<(), AllocError>
    ensures { OnOk result
        (lent names.new.items ≡ lent names.old.items ++ flat_map names_of_comparison conds.now) }
{
    'conds: for cond in conds {
        push_cond(names, cond)?;
    }
    Ok(())
}

fn push_cond<'a>(names: &mut Vec<&'a [u8]>, cond: &'a Comparison) -> Result<(), AllocError>
    ensures { OnOk result
        (lent names.new.items ≡ lent names.old.items ++ names_of_comparison cond.now) }
{
    push_operand(names, &cond.left)?;
    push_right(names, &cond.right)
}

fn push_right<'a>(names: &mut Vec<&'a [u8]>, right: &'a Right) -> Result<(), AllocError>
    ensures { OnOk result
        (lent names.new.items ≡ lent names.old.items ++ names_of_right right.now) }
{
    match right {
        Right::Operand(operand) => push_operand(names, operand),
        Right::Literal(_) => Ok(()),
    }
}

fn push_group<'a>(names: &mut Vec<&'a [u8]>, group: &'a Option<GroupBy>) -> Result<(), AllocError>
    ensures { OnOk result
        (lent names.new.items ≡ lent names.old.items ++ names_of_group group.now) }
{
    match group {
        Some(by) => push_path(names, &by.path),
        None => Ok(()),
    }
}

fn push_keys<'a>(names: &mut Vec<&'a [u8]>, keys: &'a [Key]) -> Result<(), AllocError>
    ensures { OnOk result
        (lent names.new.items ≡ lent names.old.items ++ flat_map names_of_key keys.now) }
{
    'keys: for key in keys {
        push_operand(names, &key.operand)?;
    }
    Ok(())
}

fn push_back<'a>(names: &mut Vec<&'a [u8]>, back: &'a Back) -> Result<(), AllocError>
    ensures { OnOk result
        (lent names.new.items ≡ lent names.old.items ++ names_of_back (back_of back.now)) }
{
    match back {
        Back::Nodes(path) => push_path(names, path),
        Back::Cons(cons) => push_cons(names, cons),
    }
}

#[cycle(constructors)]
fn push_cons<'a>(names: &mut Vec<&'a [u8]>, cons: &'a Cons) -> Result<(), AllocError>
    ensures { OnOk result
        (lent names.new.items ≡ lent names.old.items ++ names_of_cons (cons_of cons.now)) }
{
    push_attrs(names, cons.attrs.as_slice())?;
    push_parts(names, cons.parts.as_slice())
}

#[cycle(constructors)]
fn push_parts<'a>(names: &mut Vec<&'a [u8]>, parts: &'a [Part]) -> Result<(), AllocError>
    ensures { OnOk result
        (lent names.new.items
        ≡ lent names.old.items ++ names_of_parts (plain_parts (map part_of parts.now))) }
{
    'parts: for part in parts {
        push_part(names, part)?;
    }
    Ok(())
}

#[cycle(constructors)]
fn push_part<'a>(names: &mut Vec<&'a [u8]>, part: &'a Part) -> Result<(), AllocError>
    ensures { OnOk result
        (lent names.new.items ≡ lent names.old.items ++ names_of_part (part_of part.now)) }
{
    match part {
        Part::Cons(cons) => push_cons(names, cons),
        Part::Content(content) => push_content(names, content),
    }
}

fn push_attrs<'a>(names: &mut Vec<&'a [u8]>, attrs: &'a [AttrPart]) -> Result<(), AllocError>
    ensures { OnOk result
        (lent names.new.items ≡ lent names.old.items ++ flat_map names_of_attribute attrs.now) }
{
    'attrs: for attr in attrs {
        push_content(names, &attr.from)?;
    }
    Ok(())
}

fn push_content<'a>(names: &mut Vec<&'a [u8]>, content: &'a Content) -> Result<(), AllocError>
    ensures { OnOk result
        (lent names.new.items ≡ lent names.old.items ++ names_of_content content.now) }
{
    match content {
        Content::Text(_) => Ok(()),
        Content::Operand(operand) => push_operand(names, operand),
    }
}

fn push_operand<'a>(names: &mut Vec<&'a [u8]>, operand: &'a Operand) -> Result<(), AllocError>
    ensures { OnOk result
        (lent names.new.items ≡ lent names.old.items ++ names_of_operand operand.now) }
{
    match operand {
        Operand::Nodes(path) => push_path(names, path),
        Operand::Agg { path, .. } => push_path(names, path),
    }
}

fn push_path<'a>(names: &mut Vec<&'a [u8]>, path: &'a Path) -> Result<(), AllocError>
    ensures { OnOk result
        (lent names.new.items ≡ lent names.old.items ++ names_of_path path.now) }
{
    match &path.start {
        Start::Document(name) => Ok(names.push(name.as_slice())?),
        Start::Var(_) => Ok(()),
    }
}

//! From queries to plans.

ghost use Rattle.std.specs.Prelude.{◌≡◌, ◌<◌, ◌≤◌, [], ◌∷◌, IfOk};
ghost use Rattle.tb_tree.specs.Documents.{Docs};
ghost use Rattle.tb_query.specs.Actions.{actions_of, size_of_actions};
ghost use Rattle.tb_query.specs.Answer.{answer};
ghost use Rattle.tb_query.specs.Plannable.{IsPlannable};
ghost use Rattle.tb_tlc.specs.declared.plan.Op.TheVariants.{Match};
ghost use Rattle.tb_tlc.specs.Meaning.{meaning};
ghost use Rattle.tb_tlc.specs.Returned.{planned_flwor};
ghost use Rattle.tb_tlc.specs.Translated.{translated, most_columns};
ghost use Rattle.tb_tlc.specs.WellFormed.{IsWellFormed};

use crate::clauses::push_clauses;
use crate::conditions::push_conds;
use crate::ordering::{push_group, push_order};
use crate::returned::push_back;
use crate::scope::Scope;
use crate::ties::ties;
use crate::{Op, Plan};
use std::alloc::{AllocError, Global};
use tb_pattern::Pattern;
use tb_query::{Flwor, Query};
use tb_tree::Items;

/// The plan of a query. Over any documents it means what the query means, and where the query is plannable, as
/// each is that is read, the plan is well formed.
pub fn translate(alloc: Global, query: &Query) -> Result<Plan, AllocError>
    requires few { size_of_actions (actions_of query.now) ≤ 65536 }
    ensures plan { IfOk result (λ plan. plan.ops ≡ translated query.now) }
    ensures means { IfOk result (λ plan. (docs : Docs) → meaning docs plan.ops ≡ answer docs query.now) }
    ensures formed { IfOk result (λ plan. IsPlannable query.now → IsWellFormed plan.ops) }
{
    match query {
        Query::Match(pattern) => match_alone(alloc, pattern),
        Query::Flwor(flwor) => plan_flwor(alloc, flwor),
    }
}

/// The plan of one operator.
fn match_alone(alloc: Global, pattern: &Pattern) -> Result<Plan, AllocError>
    ensures { IfOk result (λ plan. plan.ops ≡ Match pattern.now ∷ []) }
{
    let mut ops = Vec::new(alloc);
    ops.push(Op::Match {
        pattern: pattern.copy(alloc)?,
    })?;
    Ok(Plan {
        ops: Items::from_vec(ops),
    })
}

/// Clauses, conditions, group, order, results.
fn plan_flwor(alloc: Global, flwor: &Flwor) -> Result<Plan, AllocError>
    requires narrow { most_columns flwor.now < 4294967296 }
    ensures { IfOk result (λ plan. plan.ops ≡ planned_flwor flwor.now) }
{
    let mut ops = Vec::new(alloc);
    let mut scope = Scope::new(alloc);
    let ties = ties(alloc, flwor.clauses.as_slice(), flwor.conds.as_slice())?;
    let ties = ties.as_slice();
    let next = push_clauses(alloc, &mut ops, &mut scope, ties, flwor.clauses.as_slice())?;
    let next = push_conds(alloc, &mut ops, &scope, next, flwor.conds.as_slice())?;
    let next = push_group(alloc, &mut ops, &mut scope, next, &flwor.group)?;
    let next = push_order(alloc, &mut ops, &scope, next, flwor.keys.as_slice())?;
    let shape = push_back(alloc, &mut ops, &scope, next, &flwor.back)?;
    ops.push(Op::Construct { shape })?;
    Ok(Plan {
        ops: Items::from_vec(ops),
    })
}

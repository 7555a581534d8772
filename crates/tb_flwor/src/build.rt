//! The query that tokens without fault ask for, built from the beginning on.

ghost use Rattle.std.specs.Prelude.{◌≡◌, IfOk};
ghost use Rattle.tb_pattern.specs.Building.{Builds};
ghost use Rattle.tb_token.specs.grammar.Queries as part;
ghost use Rattle.tb_flwor.specs.Asked.{IsFlwor};

use crate::back::back;
use crate::clause::clauses;
use crate::conds::conds;
use crate::names::BoundNames;
use crate::order::{group, keys};
use std::alloc::{AllocError, Global};
use tb_pattern::prefix::behind;
use tb_query::Flwor;
use tb_token::Lexeme;

/// clause { clause } [ where ] [ group ] [ order ] RETURN back
pub fn flwor<'t, 'a>(
    alloc: Global,
    names: &BoundNames,
    tokens: &'t [Lexeme<'a>],
) -> Result<(Flwor, &'t [Lexeme<'a>]), AllocError>
    ensures { IfOk result (λ r. Builds part.flwor (IsFlwor names.now r.0) tokens.now r.1.now) }
{
    let (clauses, left) = clauses(alloc, names, tokens)?;
    let (conds, left) = conds(alloc, names, left)?;
    let (group, left) = group(alloc, names, left)?;
    let (keys, left) = keys(alloc, names, left)?;
    let (back, left) = back(alloc, names, behind(left, 1))?;
    let query = Flwor {
        clauses,
        conds,
        group,
        keys,
        back,
    };
    Ok((query, left))
}

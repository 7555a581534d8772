//! The operand at the beginning of tokens that are a query.

ghost use Rattle.std.specs.Prelude.{◌≡◌, ◌-◌, ◌≤◌, IfOk, length};
ghost use Rattle.tb_token.specs.grammar.Grammar.{either};
ghost use Rattle.tb_pattern.specs.Building.{Builds, next};
ghost use Rattle.tb_token.specs.grammar.Paths as part;
ghost use Rattle.tb_token.specs.grammar.Results.{braced};
ghost use Rattle.tb_token.specs.grammar.Terminals.{string};
ghost use Rattle.tb_flwor.specs.Built.{IsOperand, IsBraced, IsContent};
ghost use Rattle.tb_flwor.specs.Value.{agg_of};

use crate::names::BoundNames;
use crate::path::path;
use std::alloc::{AllocError, Global};
use tb_number::AggKind;
use tb_pattern::prefix::{begins, behind, quoted};
use tb_query::{Content, Operand};
use tb_token::Lexeme;
use tb_token::terminals::{DOCUMENT, MAX, MIN, QUOTED, SUM, VARIABLE};

/// path | agg "(" path ")"
pub fn operand<'t, 'a>(
    alloc: Global,
    names: &BoundNames,
    tokens: &'t [Lexeme<'a>],
) -> Result<(Operand, &'t [Lexeme<'a>]), AllocError>
    ensures built { IfOk result (λ r.
        Builds part.operand (IsOperand names.now r.0) tokens.now r.1.now) }
    ensures shorter { IfOk result (λ r. length r.1.now ≤ length tokens.now - 1) }
{
    if begins(tokens, &[DOCUMENT, VARIABLE]) {
        let (path, left) = path(alloc, names, tokens)?;
        return Ok((Operand::Nodes(path), left));
    }
    let (path, left) = path(alloc, names, behind(behind(tokens, 1), 1))?;
    let kind = agg(tokens);
    Ok((Operand::Agg { kind, path }, behind(left, 1)))
}

/// COUNT | SUM | MIN | MAX
fn agg(tokens: &[Lexeme]) -> AggKind
    ensures { result ≡ agg_of (next tokens.now) }
{
    if begins(tokens, &[SUM]) {
        AggKind::Sum
    } else if begins(tokens, &[MIN]) {
        AggKind::Min
    } else if begins(tokens, &[MAX]) {
        AggKind::Max
    } else {
        AggKind::Count
    }
}

/// STRING | "{" operand "}"
pub fn content<'t, 'a>(
    alloc: Global,
    names: &BoundNames,
    tokens: &'t [Lexeme<'a>],
) -> Result<(Content, &'t [Lexeme<'a>]), AllocError>
    ensures built { IfOk result (λ r.
        Builds (either string braced) (IsContent names.now r.0) tokens.now r.1.now) }
    ensures shorter { IfOk result (λ r. length r.1.now ≤ length tokens.now - 1) }
{
    if begins(tokens, &[QUOTED]) {
        return Ok((Content::Text(quoted(alloc, tokens)?), behind(tokens, 1)));
    }
    let (operand, left) = operand(alloc, names, behind(tokens, 1))?;
    Ok((Content::Operand(operand), behind(left, 1)))
}

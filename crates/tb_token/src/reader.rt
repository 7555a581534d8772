//! Reading tokens by a grammar, with one token of look-ahead. What nests in the tokens costs no calls.

pub mod expression;
mod stack;
mod take;
pub mod wrong;

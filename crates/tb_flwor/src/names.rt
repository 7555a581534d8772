//! The variables of a query by their names.

ghost use Rattle.std.specs.Prelude.{◌≡◌, ◌≤◌, ◌↔◌, IsSome, IfSome, length, map};
ghost use Rattle.tb_token.specs.tokens.Lexemes.{place_in};

use std::marker::Model;

/// The names that variables are bound to, in order, each with its `$`: 32 at most.
#[derive(Debug, Drop)]
pub struct BoundNames<'a> {
    names: Vec<&'a [u8]>,
}

impl<'a> Model for BoundNames<'a> {
    ghost use Rattle.std.specs.Prelude.{◌≤◌, List, ℕ, length, map};

    ghost Value = { List (List ℕ) };

    ghost view = { λ names. map (λ name. name.now) names.names.items };

    ghost invariant = { λ names. length names.names.items ≤ 32 };
}

impl<'a> BoundNames<'a> {
    /// The names, or `None` where there are more than 32.
    pub fn of(names: Vec<&'a [u8]>) -> Option<BoundNames<'a>>
        ensures few { IsSome result ↔ (length names.entry.items ≤ 32) }
        ensures names { IfSome result (λ is. is ≡ map (λ name. name.now) names.entry.items) }
    {
        if names.len() > 32 {
            return None;
        }
        Some(BoundNames { names })
    }

    /// The number of the variable, from 0: how many names stand before its own.
    pub fn number(&self, name: &[u8]) -> u32
        ensures { result ≡ place_in name.now self.now }
    {
        place_in(name, self.names.as_slice())
    }
}

/// How far the name stands in the list, from 0, or its length where it stands nowhere.
fn place_in(name: &[u8], names: &[&[u8]]) -> u32
    requires { length names.now ≤ 32 }
    ensures { result ≡ place_in name.now (map (λ name. name.now) names.now) }
{
    'names: for (at, other) in names.iter().enumerate() {
        if name == *other {
            return at as u32;
        }
    }
    names.len() as u32
}

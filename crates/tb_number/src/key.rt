//! The key of a value, to be hashed: equal values have equal keys.

ghost use Rattle.std.specs.Prelude.{◌≡◌, ℕ, List, Option, if◌then◌else◌};
ghost use Rattle.std.specs.Option.{option_map};
ghost use Rattle.std.specs.Hash as fed;
ghost use Rattle.std.specs.Cmp.Rules.{comparing, hashing};
ghost use Rattle.std.proofs.Common.{rules};
ghost use Rattle.std.specs.Prelude.{◌++◌, ◌∷◌, []};
ghost use Rattle.tb_number.specs.Keys.{is_same_key};
ghost use Rattle.tb_number.specs.KeyParts.{parts_of, text_parts, number_parts, other_parts, same_parts, number_kind};

use crate::spelling::{
    begins_with_minus, keeps_minus, leading_digits, without_blanks, without_sign, without_zeros,
};
use std::hash::{Hash, Hasher};
use std::marker::Model;

const NO_VALUE: u8 = 0;

const NOT_BELOW_ZERO: u8 = 1;

const BELOW_ZERO: u8 = 2;

const NO_NUMBER: u8 = 3;

/// A value as groups and joins tell it from others: an integer text by its number, another value by
/// its bytes, or no value. It borrows from the value.
#[derive(Debug, Drop)]
pub struct Key<'a> {
    kind: u8,
    bytes: &'a [u8],
}

impl<'a> Model for Key<'a> {
    ghost use Rattle.tb_number.specs.KeyParts.{KeyParts};

    ghost Value = { KeyParts };

    ghost view = { λ key. record { kind = key.kind; bytes = key.bytes.now } };
}

impl<'a> PartialEq for Key<'a> {
    ghost eq = { same_parts };

    ghost laws = { Prim.search (comparing, rules) };

    fn eq(&self, other: &Key<'a>) -> bool {
        self.kind == other.kind && self.bytes == other.bytes
    }
}

impl<'a> Eq for Key<'a> {
    ghost laws = { Prim.search (comparing, rules) };
}

impl<'a> Hash for Key<'a> {
    ghost hash_input = { λ key. fed.u8 key.kind ++ (key.bytes ∷ []) };

    ghost respects_eq = { Prim.search (hashing, rules) };

    fn hash<H: Hasher>(&self, state: &mut H) {
        state.write_u8(self.kind);
        state.write(self.bytes);
    }
}

impl<'a> Key<'a> {
    /// The key of the value, or that of no value.
    pub fn of(value: Option<&[u8]>) -> Key<'_>
        ensures parts { result ≡ parts_of (option_map (λ bytes. bytes.now) value.entry) }
        ensures same { (other : Option (List ℕ))
            → same_parts result (parts_of other)
            ≡ is_same_key (option_map (λ bytes. bytes.now) value.entry) other }
    {
        match value {
            Some(bytes) => Key::of_text(bytes),
            None => Key {
                kind: NO_VALUE,
                bytes: &[],
            },
        }
    }

    fn of_text(bytes: &[u8]) -> Key<'_>
        ensures { result ≡ text_parts bytes.now }
    {
        let text = without_blanks(bytes);
        let Some(digits) = leading_digits(without_sign(text)) else {
            return Key::of_bytes(bytes);
        };
        Key::of_digits(begins_with_minus(text), digits)
    }

    /// The key of a number, from its digits.
    pub fn of_digits(minus: bool, digits: &[u8]) -> Key<'_>
        ensures { result ≡ number_parts minus digits.now }
    {
        let digits = without_zeros(digits);
        Key {
            kind: number_kind(minus, digits),
            bytes: digits,
        }
    }

    /// The key of a value that is no integer text, from bytes that tell it from others.
    pub fn of_bytes(bytes: &[u8]) -> Key<'_>
        ensures { result ≡ other_parts bytes.now }
    {
        Key {
            kind: NO_NUMBER,
            bytes,
        }
    }
}

fn number_kind(minus: bool, digits: &[u8]) -> u8
    ensures { result ≡ number_kind minus digits.now }
{
    if keeps_minus(minus, digits) {
        BELOW_ZERO
    } else {
        NOT_BELOW_ZERO
    }
}

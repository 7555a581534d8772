//! The terminals of tokens by name: those that `terminal_of` gives. Readers' contracts hold each against
//! the grammar.

ghost use Rattle.std.specs.Prelude.{◌≡◌};
ghost use Rattle.tb_token.specs.grammar.Grammar.{has};

pub const NAME: u8 = 0;

pub const VARIABLE: u8 = 1;

pub const NUMBER: u8 = 2;

pub const QUOTED: u8 = 3;

pub const TEXT_TEST: u8 = 4;

pub const DOUBLE_SLASH: u8 = 8;

pub const SELF_CLOSE: u8 = 9;

pub const SLASH: u8 = 10;

pub const END_TAG: u8 = 11;

pub const LESS_OR_EQUAL: u8 = 12;

pub const LESS: u8 = 13;

pub const GREATER_OR_EQUAL: u8 = 14;

pub const GREATER: u8 = 15;

pub const NOT_EQUAL: u8 = 16;

pub const BANG: u8 = 17;

pub const EQUAL: u8 = 18;

pub const ASSIGN: u8 = 19;

pub const OPEN: u8 = 20;

pub const CLOSE: u8 = 21;

pub const OPEN_CONDS: u8 = 22;

pub const CLOSE_CONDS: u8 = 23;

pub const OPEN_BRACE: u8 = 24;

pub const CLOSE_BRACE: u8 = 25;

pub const COMMA: u8 = 26;

pub const AT: u8 = 27;

pub const STAR: u8 = 28;

pub const MINUS: u8 = 29;

pub const PLUS: u8 = 30;

pub const QUESTION: u8 = 31;

pub const FOR: u8 = 64;

pub const LET: u8 = 65;

pub const IN: u8 = 66;

pub const ALLOWING: u8 = 67;

pub const EMPTY: u8 = 68;

pub const WHERE: u8 = 69;

pub const AND: u8 = 70;

pub const GROUP: u8 = 71;

pub const ORDER: u8 = 72;

pub const BY: u8 = 73;

pub const ASCENDING: u8 = 74;

pub const DESCENDING: u8 = 75;

pub const RETURN: u8 = 76;

pub const MATCH: u8 = 77;

pub const DOCUMENT: u8 = 78;

pub const COUNT: u8 = 79;

pub const SUM: u8 = 80;

pub const MIN: u8 = 81;

pub const MAX: u8 = 82;

/// A name, and each keyword, `FOR` to `MAX`, which may stand where a name does. They are written as
/// numbers, since a grammar copies the list at each name, and has room for so many expressions.
pub const NAMES: &[u8] = &[
    0, 64, 65, 66, 67, 68, 69, 70, 71, 72, 73, 74, 75, 76, 77, 78, 79, 80, 81, 82,
];

pub const AXES: &[u8] = &[SLASH, DOUBLE_SLASH];

pub const MARKS: &[u8] = &[MINUS, QUESTION, PLUS, STAR];

pub const COMPARISONS: &[u8] = &[
    EQUAL,
    NOT_EQUAL,
    LESS,
    LESS_OR_EQUAL,
    GREATER,
    GREATER_OR_EQUAL,
];

/// Whether the terminal is among these.
pub fn has(terminals: &[u8], terminal: u8) -> bool
    ensures { result ≡ has terminals.now terminal }
{
    terminals.contains(&terminal)
}

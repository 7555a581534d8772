//! The grammar of `MATCH` queries as a value, production by production as docs/FORMATS.md has it. A
//! contract holds it against the grammar of `tb_token`.

use tb_token::{Expression, terminals};

// NAME, or any keyword in its place
pub const NAME: Expression = Expression::One(terminals::NAMES);

const NUMBER: Expression = Expression::One(&[terminals::NUMBER]);

pub const STRING: Expression = Expression::One(&[terminals::QUOTED]);

const TEXT: Expression = Expression::One(&[terminals::TEXT_TEST]);

const BANG: Expression = Expression::One(&[terminals::BANG]);

pub const OPEN: Expression = Expression::One(&[terminals::OPEN]);

pub const CLOSE: Expression = Expression::One(&[terminals::CLOSE]);

const OPEN_CONDS: Expression = Expression::One(&[terminals::OPEN_CONDS]);

const CLOSE_CONDS: Expression = Expression::One(&[terminals::CLOSE_CONDS]);

pub const COMMA: Expression = Expression::One(&[terminals::COMMA]);

const AT: Expression = Expression::One(&[terminals::AT]);

const STAR: Expression = Expression::One(&[terminals::STAR]);

const MINUS: Expression = Expression::One(&[terminals::MINUS]);

pub const AND: Expression = Expression::One(&[terminals::AND]);

const MATCH: Expression = Expression::One(&[terminals::MATCH]);

const DOCUMENT: Expression = Expression::One(&[terminals::DOCUMENT]);

pub const AXIS: Expression = Expression::One(terminals::AXES);

const MARK: Expression = Expression::One(terminals::MARKS);

pub const CMP: Expression = Expression::One(terminals::COMPARISONS);

// doc = DOCUMENT "(" STRING ")"
pub const DOC: Expression = Expression::Both(
    &DOCUMENT,
    &Expression::Both(&OPEN, &Expression::Both(&STRING, &CLOSE)),
);

// "@" ( NAME | "*" )
const ATTRIBUTE: Expression = Expression::Both(&AT, &Expression::Either(&NAME, &STAR));

// test = NAME | "*" | "@" ( NAME | "*" ) | TEXT
pub const TEST: Expression = Expression::Either(
    &NAME,
    &Expression::Either(&STAR, &Expression::Either(&ATTRIBUTE, &TEXT)),
);

// literal = STRING | [ "-" ] NUMBER
pub const LITERAL: Expression = Expression::Either(
    &STRING,
    &Expression::Both(&Expression::Maybe(&MINUS), &NUMBER),
);

// cmp literal
const ONE_COND: Expression = Expression::Both(&CMP, &LITERAL);

// conds = "[" cmp literal { AND cmp literal } "]"
const CONDS: Expression = Expression::Both(
    &OPEN_CONDS,
    &Expression::Both(
        &Expression::Both(
            &ONE_COND,
            &Expression::Many(&Expression::Both(&AND, &ONE_COND)),
        ),
        &CLOSE_CONDS,
    ),
);

// edges = "(" and the rest of the edges, which is rule 0
const EDGES: Expression = Expression::Opened(&[terminals::OPEN], 0);

// edge = axis mark test [ conds ] [ "!" ] [ edges ]
const EDGE: Expression = Expression::Both(
    &AXIS,
    &Expression::Both(
        &MARK,
        &Expression::Both(
            &TEST,
            &Expression::Both(
                &Expression::Maybe(&CONDS),
                &Expression::Both(&Expression::Maybe(&BANG), &Expression::Maybe(&EDGES)),
            ),
        ),
    ),
);

// edge { "," edge } ")"
pub const EDGES_REST: Expression = Expression::Both(
    &Expression::Both(&EDGE, &Expression::Many(&Expression::Both(&COMMA, &EDGE))),
    &CLOSE,
);

// match = MATCH doc edges
pub const MATCH_QUERY: Expression = Expression::Both(&MATCH, &Expression::Both(&DOC, &EDGES));

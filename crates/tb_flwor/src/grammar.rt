//! The grammar of queries as a value, production by production as docs/FORMATS.md has it but for
//! `path`. What `MATCH` queries have too stands in `tb_pattern`. A contract holds it against the
//! grammar of `tb_token`.

use tb_pattern::grammar::{
    AND, AXIS, CLOSE, CMP, COMMA, DOC, LITERAL, MATCH_QUERY, NAME, OPEN, STRING, TEST,
};
use tb_token::{Expression, terminals};

const VARIABLE: Expression = Expression::One(&[terminals::VARIABLE]);

const SELF_CLOSE: Expression = Expression::One(&[terminals::SELF_CLOSE]);

const END_TAG: Expression = Expression::One(&[terminals::END_TAG]);

const GREATER: Expression = Expression::One(&[terminals::GREATER]);

const EQUAL: Expression = Expression::One(&[terminals::EQUAL]);

const ASSIGN: Expression = Expression::One(&[terminals::ASSIGN]);

const OPEN_BRACE: Expression = Expression::One(&[terminals::OPEN_BRACE]);

const CLOSE_BRACE: Expression = Expression::One(&[terminals::CLOSE_BRACE]);

const FOR: Expression = Expression::One(&[terminals::FOR]);

const LET: Expression = Expression::One(&[terminals::LET]);

const IN: Expression = Expression::One(&[terminals::IN]);

const ALLOWING: Expression = Expression::One(&[terminals::ALLOWING]);

const EMPTY: Expression = Expression::One(&[terminals::EMPTY]);

const WHERE: Expression = Expression::One(&[terminals::WHERE]);

const GROUP: Expression = Expression::One(&[terminals::GROUP]);

const ORDER: Expression = Expression::One(&[terminals::ORDER]);

const BY: Expression = Expression::One(&[terminals::BY]);

const RETURN: Expression = Expression::One(&[terminals::RETURN]);

const AGG: Expression = Expression::One(&[
    terminals::COUNT,
    terminals::SUM,
    terminals::MIN,
    terminals::MAX,
]);

const DIRECTION: Expression = Expression::One(&[terminals::ASCENDING, terminals::DESCENDING]);

// step = axis test
const STEP: Expression = Expression::Both(&AXIS, &TEST);

// step { step }
const STEPS: Expression = Expression::Both(&STEP, &Expression::Many(&STEP));

// longpath = ( doc | VARIABLE ) step { step }
const LONGPATH: Expression = Expression::Both(&Expression::Either(&DOC, &VARIABLE), &STEPS);

// path = doc step { step } | VARIABLE { step }
const PATH: Expression = Expression::Either(
    &Expression::Both(&DOC, &STEPS),
    &Expression::Both(&VARIABLE, &Expression::Many(&STEP)),
);

// operand = path | agg "(" path ")"
const OPERAND: Expression = Expression::Either(
    &PATH,
    &Expression::Both(
        &AGG,
        &Expression::Both(&OPEN, &Expression::Both(&PATH, &CLOSE)),
    ),
);

// bind = VARIABLE [ ALLOWING EMPTY ] IN longpath
const BIND: Expression = Expression::Both(
    &VARIABLE,
    &Expression::Both(
        &Expression::Maybe(&Expression::Both(&ALLOWING, &EMPTY)),
        &Expression::Both(&IN, &LONGPATH),
    ),
);

// clause = FOR bind { "," bind } | LET VARIABLE ":=" longpath
const CLAUSE: Expression = Expression::Either(
    &Expression::Both(
        &FOR,
        &Expression::Both(&BIND, &Expression::Many(&Expression::Both(&COMMA, &BIND))),
    ),
    &Expression::Both(
        &LET,
        &Expression::Both(&VARIABLE, &Expression::Both(&ASSIGN, &LONGPATH)),
    ),
);

// cond = operand cmp ( operand | literal )
const COND: Expression = Expression::Both(
    &OPERAND,
    &Expression::Both(&CMP, &Expression::Either(&OPERAND, &LITERAL)),
);

// where = WHERE cond { AND cond }
const WHERE_PART: Expression = Expression::Both(
    &WHERE,
    &Expression::Both(&COND, &Expression::Many(&Expression::Both(&AND, &COND))),
);

// group = GROUP BY VARIABLE ":=" path
const GROUP_PART: Expression = Expression::Both(
    &GROUP,
    &Expression::Both(
        &BY,
        &Expression::Both(&VARIABLE, &Expression::Both(&ASSIGN, &PATH)),
    ),
);

// key = operand [ ASCENDING | DESCENDING ]
const KEY: Expression = Expression::Both(&OPERAND, &Expression::Maybe(&DIRECTION));

// order = ORDER BY key { "," key }
const ORDER_PART: Expression = Expression::Both(
    &ORDER,
    &Expression::Both(
        &BY,
        &Expression::Both(&KEY, &Expression::Many(&Expression::Both(&COMMA, &KEY))),
    ),
);

// cons = "<" and the rest of the constructor, which is rule 1
const CONS: Expression = Expression::Opened(&[terminals::LESS], 1);

// "{" operand "}"
const BRACED: Expression = Expression::Both(&OPEN_BRACE, &Expression::Both(&OPERAND, &CLOSE_BRACE));

// attr = NAME "=" ( STRING | "{" operand "}" )
const ATTR: Expression = Expression::Both(
    &NAME,
    &Expression::Both(&EQUAL, &Expression::Either(&STRING, &BRACED)),
);

// piece = cons | STRING | "{" operand "}"
const PIECE: Expression = Expression::Either(&CONS, &Expression::Either(&STRING, &BRACED));

// NAME { attr } ( "/>" | ">" { piece } "</" NAME ">" )
pub const CONS_REST: Expression = Expression::Both(
    &NAME,
    &Expression::Both(
        &Expression::Many(&ATTR),
        &Expression::Either(
            &SELF_CLOSE,
            &Expression::Both(
                &GREATER,
                &Expression::Both(
                    &Expression::Many(&PIECE),
                    &Expression::Both(&END_TAG, &Expression::Both(&NAME, &GREATER)),
                ),
            ),
        ),
    ),
);

// back = path | cons
const BACK: Expression = Expression::Either(&PATH, &CONS);

// flwor = clause { clause } [ where ] [ group ] [ order ] RETURN back
const FLWOR: Expression = Expression::Both(
    &CLAUSE,
    &Expression::Both(
        &Expression::Many(&CLAUSE),
        &Expression::Both(
            &Expression::Maybe(&WHERE_PART),
            &Expression::Both(
                &Expression::Maybe(&GROUP_PART),
                &Expression::Both(
                    &Expression::Maybe(&ORDER_PART),
                    &Expression::Both(&RETURN, &BACK),
                ),
            ),
        ),
    ),
);

// query = match | flwor
pub const QUERY: Expression = Expression::Either(&MATCH_QUERY, &FLWOR);

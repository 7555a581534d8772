//! What no clause says: that columns are made and rows moved with ample memory, and small tables that were
//! worked by hand.

use self::given::{documents, lists, table};
use self::shown::shown;
use crate::{GroupFault, aggregate, order};
use std::alloc::Global;
use std::test::Fail;
use tb_number::{AggKind, SortKey};
use tb_table::{Documents, Table};

mod given;
mod random;
mod shown;

fn aggregated(
    alloc: Global,
    docs: &Documents,
    rows: &[&[&[u32]]],
    kind: AggKind,
) -> Result<Vec<u8>, Fail> {
    let given = table(alloc, docs, lists(alloc, rows)?.as_slice())?;
    match aggregate(alloc, given, 0, kind, docs) {
        Ok(made) => shown(alloc, &made),
        Err(GroupFault::Past) => Ok(b"past".to_vec(alloc)?),
        Err(GroupFault::NoMemory) => Err("no memory".into()),
    }
}

fn ordered(
    alloc: Global,
    docs: &Documents,
    rows: &[&[&[u32]]],
    keys: &[SortKey],
) -> Result<Vec<u8>, Fail> {
    let given = table(alloc, docs, lists(alloc, rows)?.as_slice())?;
    let made = order(alloc, given, keys, docs)?;
    shown(alloc, &made)
}

const NUMBERS: [&[u8]; 9] = [
    b"170141183460469231731687303715884105727",
    b"1",
    b"-1",
    b"7",
    b" +007 ",
    b"seven",
    b"",
    b"-170141183460469231731687303715884105728",
    b"100000000000000000000000000000000000000000000000000000000000",
];

// Of each: the rows, and what the four kinds make of them.
const CELLS: [(&[&[&[u32]]], &[u8], &[u8], &[u8], &[u8]); 4] = [
    (
        &[&[&[]], &[&[5, 6]], &[&[3, 4, 1]]],
        b"- =0\n5,6 =2\n3,4,1 =3\n",
        b"- =0\n5,6 =0\n3,4,1 =15\n",
        b"- ~\n5,6 ~\n3,4,1 =1\n",
        b"- ~\n5,6 ~\n3,4,1 =7\n",
    ),
    (
        &[&[&[0, 2, 1]], &[&[7, 0]]],
        b"0,2,1 =3\n7,0 =2\n",
        b"0,2,1 =170141183460469231731687303715884105727\n7,0 =-1\n",
        b"0,2,1 =-1\n7,0 =-170141183460469231731687303715884105728\n",
        b"0,2,1 =170141183460469231731687303715884105727\n7,0 =170141183460469231731687303715884105727\n",
    ),
    (
        &[&[&[1]], &[&[0, 1, 2]]],
        b"1 =1\n0,1,2 =3\n",
        b"past",
        b"1 =1\n0,1,2 =-1\n",
        b"1 =1\n0,1,2 =170141183460469231731687303715884105727\n",
    ),
    (
        &[&[&[2, 8]]],
        b"2,8 =2\n",
        b"past",
        b"2,8 =-1\n",
        b"2,8 =100000000000000000000000000000000000000000000000000000000000\n",
    ),
];

#[test]
fn a_sum_is_past_where_a_number_or_a_total_leaves_the_range(rt: HostRuntime) -> Result<(), Fail> {
    let alloc = rt.alloc();
    let docs = documents(alloc, &NUMBERS)?;
    for (rows, count, sum, least, greatest) in CELLS {
        assert_eq!(rt;
            aggregated(alloc, &docs, rows, AggKind::Count)?.as_slice(),
            count
        );
        assert_eq!(rt;
            aggregated(alloc, &docs, rows, AggKind::Sum)?.as_slice(),
            sum
        );
        assert_eq!(rt;
            aggregated(alloc, &docs, rows, AggKind::Min)?.as_slice(),
            least
        );
        assert_eq!(rt;
            aggregated(alloc, &docs, rows, AggKind::Max)?.as_slice(),
            greatest
        );
    }
    Ok(())
}

const UP: SortKey = SortKey {
    column: 0,
    descending: false,
};

const DOWN: SortKey = SortKey {
    column: 0,
    descending: true,
};

const SECOND: SortKey = SortKey {
    column: 1,
    descending: false,
};

const TO_SORT: &[&[&[u32]]] = &[
    &[&[5], &[1]],
    &[&[4, 1], &[2]],
    &[&[], &[1]],
    &[&[3], &[1]],
    &[&[6], &[1]],
    &[&[8], &[1]],
    &[&[], &[2]],
];

#[test]
fn ties_keep_their_order_and_no_value_comes_first_or_last(rt: HostRuntime) -> Result<(), Fail> {
    let alloc = rt.alloc();
    let docs = documents(alloc, &NUMBERS)?;
    let cases: [(&[SortKey], &[u8]); 4] = [
        (&[], b"5 1\n4,1 2\n- 1\n3 1\n6 1\n8 1\n- 2\n"),
        (&[UP], b"- 1\n- 2\n4,1 2\n3 1\n8 1\n6 1\n5 1\n"),
        (&[DOWN], b"5 1\n6 1\n8 1\n4,1 2\n3 1\n- 1\n- 2\n"),
        (&[SECOND, UP], b"- 2\n4,1 2\n- 1\n3 1\n8 1\n6 1\n5 1\n"),
    ];
    for (keys, want) in cases {
        assert_eq!(rt; ordered(alloc, &docs, TO_SORT, keys)?.as_slice(), want);
    }
    Ok(())
}

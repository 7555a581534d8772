//! What no clause says: that plans are made where there is ample memory; and plans of queries, as lines, that
//! were judged by hand.

mod joins;
mod rows;
mod told;

use std::alloc::Global;
use std::process::Abort;
use std::test::Fail;
use tb_flwor::read_query;
use tb_tlc::translate;
use told::tell;

// Each text has the plan that is told so.
fn are_planned(rt: &impl Abort, alloc: Global, rows: &[(&[u8], &[u8])]) -> Result<(), Fail> {
    for (text, wanted) in rows {
        let query = read_query(alloc, text).map_err(|_fault| "refused")?;
        let plan = translate(alloc, &query).map_err(|_fault| "memory")?;
        let told = tell(alloc, plan.ops.as_slice()).map_err(|_fault| "memory")?;
        assert_eq!(rt; told.as_slice(), *wanted);
    }
    Ok(())
}

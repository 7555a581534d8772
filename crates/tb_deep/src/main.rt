//! `tb_deep`: reads the deepest and the longest queries on a thread with the smallest stack, of 128 KiB, and
//! answers the deepest patterns over the deepest document on a thread with a stack of 512 KiB.
//!
//! The gate runs it as a compiled program. A query has up to 65,536 bytes, and all of its syntax is
//! read before deep nesting is told, so a reader that called itself once a bracket or a tag would run
//! out of its stack. A document of 512 levels is read, labelled, joined and let go with no call a level; a
//! pattern is answered by calls inside each other, as many as its nodes and levels allow.
#![tactic(auto)]

use std::io;

mod answer;
mod document;
mod reading;
mod text;

use answer::tell_answers;
use reading::tell_reading;

fn main(rt: HostRuntime) -> io::Result<()> {
    tell_reading(&rt, &rt)?;
    tell_answers(&rt, &rt)
}

//! Reading a script.

ghost use Rattle.std.specs.Prelude.{◌≤◌, IfOk, length};
ghost use Rattle.tb_script.specs.Calls.{Reads};
ghost use Rattle.tb_script.specs.Tallies.{ReadsEntries};
ghost use Rattle.tb_script.specs.Runnable.{IsRunnable};

use crate::entry::{Entry, next_entry};
use crate::group::sessions_of;
use crate::marks::Marks;
use crate::stuck::stuck_line;
use crate::tally::Tally;
use crate::workload::scripts_of;
use crate::{ScriptFault, Workload};
use std::alloc::Global;

/// 64 MiB.
const MOST_BYTES: usize = 67_108_864;

/// The workload that the script is read as, or its first fault.
pub fn read_workload(alloc: Global, bytes: &[u8]) -> Result<Workload, ScriptFault>
    ensures read { Reads bytes.now result }
    ensures runnable { IfOk result IsRunnable }
{
    if bytes.len() > MOST_BYTES {
        return Err(ScriptFault::InputTooLong);
    }
    let (entries, marks) = read_entries(alloc, bytes)?;
    let sessions = sessions_of(alloc, entries, &marks)?;
    if let Some(line) = stuck_line(alloc, &sessions, marks.count)? {
        return Err(ScriptFault::MarkStuck(line));
    }
    let sessions = scripts_of(alloc, sessions)?;
    Ok(Workload {
        sessions,
        marks: marks.count,
    })
}

/// The entries of a script and the marks that it tells, or the fault of the first line with one.
fn read_entries(alloc: Global, bytes: &[u8]) -> Result<(Vec<Entry>, Marks), ScriptFault>
    requires short { length bytes.now ≤ 67108864 }
    ensures { ReadsEntries bytes.now result }
{
    let mut entries = Vec::new(alloc);
    let mut tally = Tally::new(alloc);
    let mut line = 1;
    let mut rest = bytes;
    'entries: while let Some((entry, behind, next)) = next_entry(alloc, rest, line)? {
        if let Some(fault) = tally.fault(&entry) {
            return Err(fault);
        }
        tally.add(alloc, &entry.said)?;
        entries.push(entry)?;
        rest = behind;
        line = next;
    }
    Ok((entries, tally.marks))
}

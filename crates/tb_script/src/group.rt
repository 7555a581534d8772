//! Sessions from entries.

ghost use Rattle.std.specs.Prelude.{◌≡◌, ℕ, List, ◌++◌, OnOk};
ghost use Rattle.tb_script.specs.Tallies.{Tells};
ghost use Rattle.tb_script.specs.Groups.{ended, listed, TurnIs, Groups};

use crate::entry::{Entry, Said};
use crate::lined_command::LinedCommand;
use crate::marks::Marks;
use crate::{Command, ScriptFault};
use std::alloc::{AllocError, Global};

/// The commands of each session, or the fault of the first line that hears a mark which no line
/// tells.
pub fn sessions_of(
    alloc: Global,
    entries: Vec<Entry>,
    marks: &Marks,
) -> Result<Vec<Vec<LinedCommand>>, ScriptFault>
    ensures { (names : List (List ℕ)) → Tells marks.now names → Groups names entries.items result }
{
    let mut sessions = Vec::new(alloc);
    let mut begun = false;
    let mut turns = Vec::new(alloc);
    'entries: for entry in entries {
        if let Said::Session = &entry.said {
            end_session(&mut sessions, begun, turns)?;
            begun = true;
            turns = Vec::new(alloc);
            continue;
        }
        if let Some(turn) = turn_of(entry, marks)? {
            turns.push(turn)?;
        }
    }
    end_session(&mut sessions, begun, turns)?;
    Ok(sessions)
}

/// Keeps the commands of a session, where one is begun.
fn end_session(
    sessions: &mut Vec<Vec<LinedCommand>>,
    begun: bool,
    turns: Vec<LinedCommand>,
) -> Result<(), AllocError>
    ensures { OnOk result
        (listed sessions.new.items ≡ ended (listed sessions.old.items) begun turns.items) }
{
    if begun {
        sessions.push(turns)?;
    }
    Ok(())
}

/// The command of an entry, where it has one.
fn turn_of(entry: Entry, marks: &Marks) -> Result<Option<LinedCommand>, ScriptFault>
    ensures { (names : List (List ℕ)) → Tells marks.now names → TurnIs names entry result }
{
    let line = entry.line;
    let command = match entry.said {
        Said::Unknown | Said::Session => return Ok(None),
        Said::Load { name, lines, .. } => Command::Load { name, lines },
        Said::Query { text, .. } => Command::Query { text },
        Said::Tell { name } => {
            let mark = marks.find(name.as_slice()).unwrap_or(0);
            Command::Tell { mark, name }
        }
        Said::Hear { name } => {
            let Some(mark) = marks.find(name.as_slice()) else {
                return Err(ScriptFault::MarkUnknown(line));
            };
            Command::Hear { mark, name }
        }
    };
    Ok(Some(LinedCommand { line, command }))
}

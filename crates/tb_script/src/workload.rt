//! Workloads from sessions, without the numbers of lines.

ghost use Rattle.std.specs.Prelude.{◌≡◌, IfOk, map};
ghost use Rattle.tb_script.specs.Groups.{listed};
ghost use Rattle.tb_script.specs.Runnable.{commands_in};

use crate::lined_command::LinedCommand;
use crate::{Command, Script};
use std::alloc::{AllocError, Global};

/// The sessions without the numbers of their lines.
pub fn scripts_of(
    alloc: Global,
    sessions: Vec<Vec<LinedCommand>>,
) -> Result<Vec<Script>, AllocError>
    ensures { IfOk result (λ scripts. map (λ s. s.commands.items) scripts.items
        ≡ map (map (λ t. t.command)) (listed sessions.items)) }
{
    let mut scripts = Vec::new(alloc);
    'sessions: for session in sessions {
        let commands = commands_of(alloc, session)?;
        scripts.push(Script { commands })?;
    }
    Ok(scripts)
}

fn commands_of(alloc: Global, turns: Vec<LinedCommand>) -> Result<Vec<Command>, AllocError>
    ensures { IfOk result (λ commands. commands.items ≡ map (λ t. t.command) turns.items) }
{
    let mut commands = Vec::with_capacity(alloc, turns.len())?;
    'turns: for turn in turns {
        commands.push(turn.command)?;
    }
    Ok(commands)
}

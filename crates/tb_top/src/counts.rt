//! How many commands, loads and queries a script has.

ghost use Rattle.std.specs.Prelude.{◌≡◌, ◌^◌, ◌<◌, ◌≤◌, length, map};
ghost use Rattle.tb_script.specs.Runnable.{loads_in, loads_of};
ghost use Rattle.tb_top.specs.Check.{commands_count, queries_of, queries_in};

use tb_script::{Command, Script};

pub fn commands_in(sessions: &[Script]) -> u64
    requires { commands_count (map (λ s. s.commands.items) sessions.now) < 2 ^ 32 }
    ensures { result ≡ commands_count (map (λ s. s.commands.items) sessions.now) }
{
    let mut count = 0;
    'sessions: for script in sessions {
        count += script.commands.len() as u64;
    }
    count
}

pub fn loads_in(sessions: &[Script]) -> u64
    requires { loads_in (map (λ s. s.commands.items) sessions.now) < 2 ^ 32 }
    ensures { result ≡ loads_in (map (λ s. s.commands.items) sessions.now) }
{
    let mut count = 0;
    'sessions: for script in sessions {
        count += loads_of(&script.commands);
    }
    count
}

fn loads_of(commands: &[Command]) -> u64
    ensures loads { result ≡ loads_of commands.now }
    ensures few { result ≤ length commands.now }
{
    let mut count = 0;
    'commands: for command in commands {
        if let Command::Load { .. } = command {
            count += 1;
        }
    }
    count
}

pub fn queries_in(sessions: &[Script]) -> u64
    requires { queries_in (map (λ s. s.commands.items) sessions.now) < 2 ^ 32 }
    ensures { result ≡ queries_in (map (λ s. s.commands.items) sessions.now) }
{
    let mut count = 0;
    'sessions: for script in sessions {
        count += queries_of(&script.commands);
    }
    count
}

fn queries_of(commands: &[Command]) -> u64
    ensures queries { result ≡ queries_of commands.now }
    ensures few { result ≤ length commands.now }
{
    let mut count = 0;
    'commands: for command in commands {
        if let Command::Query { .. } = command {
            count += 1;
        }
    }
    count
}

//! What `check` prints: the loads and the queries that are refused, and the counts.

ghost use Rattle.std.specs.Prelude.{◌≡◌, ◌++◌, ◌^◌, ◌<◌, ◌≤◌, None, List, ℕ, IfOk, OnOk, decimal, length, map};
ghost use Rattle.std.specs.List.{AllByRecursion};
ghost use Rattle.tb_esis.specs.Faults.{fault_of};
ghost use Rattle.tb_script.specs.Runnable.{IsRunnable, HasBodyThatFits, commands_in, loads_in};
ghost use Rattle.tb_script.specs.declared.command.Command.TheVariants as command;
ghost use Rattle.tb_top.specs.Check.{IsCheck, IsRefusal, AreRefusals, AreAllRefusals, load_refusal, refused_load, refused_query, commands_count, queries_in, counts_of, counts_line};
ghost use Rattle.tb_top.specs.Pieces.{Grows};
ghost use Rattle.tb_top.specs.Outputs.{ChecksTo, Passes};
ghost use Rattle.tb_top.specs.Single.{IsBuilt};

use crate::counts::{commands_in, loads_in, queries_in};
use crate::faults::refusal;
use crate::printer::{push_esis_fault, push_number, push_refused_query_line};
use std::alloc::{AllocError, Global};
use tb_esis::{EsisFault, read_tree};
use tb_flwor::{QueryFault, read_query};
use tb_query::Query;
use tb_script::{Command, Script, Workload};
use tb_tree::Tree;

/// The refusals and the counts of a script, whose commands are let go one after the other; none where a query
/// isn't built.
pub fn check(alloc: Global, w: Workload) -> Result<Option<Vec<u8>>, AllocError>
    requires { IsRunnable w }
    ensures { IfOk result (ChecksTo (commands_in w)) }
{
    let mut text = Vec::new(alloc);
    let built = check_sessions(alloc, w.sessions, &mut text)?;
    if !built {
        return Ok(None);
    }
    Ok(Some(text))
}

/// False where a query isn't built.
fn check_sessions(
    alloc: Global,
    sessions: Vec<Script>,
    text: &mut Vec<u8>,
) -> Result<bool, AllocError>
    requires fit { AllByRecursion (AllByRecursion HasBodyThatFits)
        (map (λ s. s.commands.items) sessions.items) }
    requires commands { commands_count (map (λ s. s.commands.items) sessions.items) < 2 ^ 32 }
    requires loads { loads_in (map (λ s. s.commands.items) sessions.items) < 2 ^ 32 }
    requires queries { queries_in (map (λ s. s.commands.items) sessions.items) < 2 ^ 32 }
    ensures { IfOk result (λ built. Passes built (AllByRecursion (AllByRecursion IsBuilt) (map (λ s. s.commands.items) sessions.items))
        (Grows text.old.items text.new.items (IsCheck (map (λ s. s.commands.items) sessions.items)))) }
{
    let count = sessions.len() as u64;
    let commands = commands_in(&sessions);
    let loads = loads_in(&sessions);
    let queries = queries_in(&sessions);
    let built = push_refusals(alloc, sessions, text)?;
    if !built {
        return Ok(false);
    }
    push_counts(count, commands, loads, queries, text)?;
    Ok(true)
}

/// False where a query isn't built.
fn push_refusals(
    alloc: Global,
    sessions: Vec<Script>,
    text: &mut Vec<u8>,
) -> Result<bool, AllocError>
    requires { AllByRecursion (AllByRecursion HasBodyThatFits)
        (map (λ s. s.commands.items) sessions.items) }
    ensures { IfOk result (λ built. Passes built (AllByRecursion (AllByRecursion IsBuilt) (map (λ s. s.commands.items) sessions.items))
        (Grows text.old.items text.new.items (AreAllRefusals (map (λ s. s.commands.items) sessions.items)))) }
{
    let mut session = 0;
    'sessions: for script in sessions {
        session += 1;
        let built = push_refusals_of(alloc, session, script.commands, text)?;
        if !built {
            return Ok(false);
        }
    }
    Ok(true)
}

/// False where a query isn't built.

fn push_refusals_of(
    alloc: Global,
    session: u64,
    commands: Vec<Command>,
    text: &mut Vec<u8>,
) -> Result<bool, AllocError>
    requires { AllByRecursion HasBodyThatFits commands.items }
    ensures { IfOk result (λ built. Passes built (AllByRecursion IsBuilt commands.items)
        (Grows text.old.items text.new.items (AreRefusals session commands.items))) }
{
    let mut number = 0;
    'commands: for command in commands {
        number += 1;
        let built = push_refusal(alloc, session, number, &command, text)?;
        if !built {
            return Ok(false);
        }
    }
    Ok(true)
}

/// False where it isn't built.

fn push_refusal(
    alloc: Global,
    session: u64,
    number: u64,
    command: &Command,
    text: &mut Vec<u8>,
) -> Result<bool, AllocError>
    requires { HasBodyThatFits command.now }
    ensures { IfOk result (λ built. Passes built (IsBuilt command.now)
        (Grows text.old.items text.new.items (IsRefusal session number command.now))) }
{
    match command {
        Command::Load { lines, .. } => {
            push_load_refusal(alloc, session, number, lines.as_slice(), text)?;
            Ok(true)
        }
        Command::Query { text: query } => {
            push_query_refusal(alloc, session, number, query.as_slice(), text)
        }
        Command::Tell { .. } | Command::Hear { .. } => Ok(true),
    }
}

fn push_load_refusal(
    alloc: Global,
    session: u64,
    number: u64,
    lines: &[u8],
    text: &mut Vec<u8>,
) -> Result<(), AllocError>
    requires { length lines.now ≤ 67108864 }
    ensures { OnOk result (text.new.items ≡ text.old.items
        ++ load_refusal session number (fault_of lines.now)) }
{
    match fault_in(alloc, lines)? {
        Some(fault) => push_refused_load(session, number, &fault, text),
        None => Ok(()),
    }
}

fn push_query_refusal(
    alloc: Global,
    session: u64,
    number: u64,
    query: &[u8],
    text: &mut Vec<u8>,
) -> Result<bool, AllocError>
    ensures { IfOk result (λ built. Passes built (IsBuilt (command.Query query.now))
        (Grows text.old.items text.new.items (IsRefusal session number (command.Query query.now)))) }
{
    match read_query(alloc, query) {
        Ok(Query::Match(_)) => Ok(true),
        Ok(Query::Flwor(_)) => Ok(false),
        Err(fault) => {
            let fault = refusal(fault)?;
            push_refused_query(session, number, &fault, text)?;
            Ok(true)
        }
    }
}

/// The first fault of a body, where it has one.
fn fault_in(alloc: Global, lines: &[u8]) -> Result<Option<EsisFault>, AllocError>
    requires { length lines.now ≤ 67108864 }
    ensures { IfOk result (λ fault. fault ≡ fault_of lines.now) }
{
    match read_tree(alloc, lines) {
        Ok(tree) => Ok(faultless(tree)),
        Err(EsisFault::NoMemory) => Err(AllocError),
        Err(fault) => Ok(Some(fault)),
    }
}

/// Lets a tree go that nobody asks for.
fn faultless(_tree: Tree) -> Option<EsisFault>
    ensures { result ≡ None }
{
    None
}

fn push_refused_load(
    session: u64,
    number: u64,
    fault: &EsisFault,
    text: &mut Vec<u8>,
) -> Result<(), AllocError>
    ensures { OnOk result (text.new.items ≡ text.old.items ++ refused_load session number fault.now) }
{
    push_number(session, text)?;
    text.push(b' ')?;
    push_number(number, text)?;
    text.extend_from_slice(b" load refused ")?;
    push_esis_fault(fault, text)?;
    text.push(b'\n')?;
    Ok(())
}

fn push_refused_query(
    session: u64,
    number: u64,
    fault: &QueryFault,
    text: &mut Vec<u8>,
) -> Result<(), AllocError>
    ensures { OnOk result
        (text.new.items ≡ text.old.items ++ refused_query session number fault.now) }
{
    push_number(session, text)?;
    text.push(b' ')?;
    push_refused_query_line(number, fault, text)
}

fn push_counts(
    sessions: u64,
    commands: u64,
    loads: u64,
    queries: u64,
    text: &mut Vec<u8>,
) -> Result<(), AllocError>
    ensures { OnOk result (text.new.items ≡ text.old.items
        ++ counts_line sessions commands loads queries) }
{
    push_count(b"check sessions ", sessions, text)?;
    push_count(b" commands ", commands, text)?;
    push_count(b" loads ", loads, text)?;
    push_count(b" queries ", queries, text)?;
    text.push(b'\n')?;
    Ok(())
}

fn push_count(word: &[u8], count: u64, text: &mut Vec<u8>) -> Result<(), AllocError>
    ensures { OnOk result (text.new.items ≡ text.old.items ++ (word.now ++ decimal count)) }
{
    text.extend_from_slice(word)?;
    push_number(count, text)
}

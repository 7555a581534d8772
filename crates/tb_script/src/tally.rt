//! What the lines so far leave, and the tests at the next line.

ghost use Rattle.std.specs.Prelude.{◌≡◌, ◌+◌, ◌-◌, ◌^◌, ℕ, List, [], ◌++◌, OnOk, None};
ghost use Rattle.tb_script.specs.Faults.{at_start, fault_of, and_then};
ghost use Rattle.tb_script.specs.Sessions.{told_by};
ghost use Rattle.tb_script.specs.Tallies.{Tells, tally_of, Counted, IsBelow};
ghost use Rattle.tb_script.specs.declared.entry.Said.TheVariants.{Session, Load, Query, Tell, Hear};

use crate::ScriptFault;
use crate::entry::{Entry, Said};
use crate::form::is_label;
use crate::marks::Marks;
use std::alloc::{AllocError, Global};

const MOST_SESSIONS: u32 = 64;

const MOST_COMMANDS: u32 = 10_000;

const MOST_LOADS: u32 = 65_536;

/// How many sessions there are, commands of the last one, and loads, and the marks that are told.
#[derive(Drop)]
pub struct Tally {
    sessions: u32,
    commands: u32,
    loads: u32,
    pub marks: Marks,
}

impl Tally {
    pub fn new(alloc: Global) -> Tally
        ensures { Counted result [] at_start }
    {
        Tally {
            sessions: 0,
            commands: 0,
            loads: 0,
            marks: Marks::new(alloc),
        }
    }

    /// The fault of the next line, where it has one.
    pub fn fault(&self, entry: &Entry) -> Option<ScriptFault>
        ensures { (names : List (List ℕ)) → Tells self.now.marks names
            → result ≡ fault_of (tally_of self.now names) entry.now.line entry.now.said }
    {
        let line = entry.line;
        match &entry.said {
            Said::Unknown => Some(ScriptFault::UnknownLine(line)),
            Said::Session => self.session_fault(line),
            Said::Load { name, closed, .. } => self.load_fault(line, name.as_slice(), *closed),
            Said::Query { closed, .. } => self.query_fault(line, *closed),
            Said::Tell { name } => self.tell_fault(line, name.as_slice()),
            Said::Hear { name } => self.hear_fault(line, name.as_slice()),
        }
    }

    fn session_fault(&self, line: u32) -> Option<ScriptFault>
        ensures { (names : List (List ℕ))
            → result ≡ fault_of (tally_of self.now names) line Session }
    {
        if self.sessions >= MOST_SESSIONS {
            return Some(ScriptFault::TooManySessions(line));
        }
        None
    }

    fn load_fault(&self, line: u32, name: &[u8], closed: bool) -> Option<ScriptFault>
        ensures { (names : List (List ℕ)) (lines : List ℕ)
            → result ≡ fault_of (tally_of self.now names) line (Load name.now lines closed) }
    {
        if self.sessions == 0 {
            return Some(ScriptFault::NoSession(line));
        }
        if !is_label(name) {
            return Some(ScriptFault::BadName(line));
        }
        if self.commands >= MOST_COMMANDS {
            return Some(ScriptFault::TooManyCommands(line));
        }
        if self.loads >= MOST_LOADS {
            return Some(ScriptFault::TooManyChanges(line));
        }
        if !closed {
            return Some(ScriptFault::NotClosed(line));
        }
        None
    }

    fn query_fault(&self, line: u32, closed: bool) -> Option<ScriptFault>
        ensures { (names : List (List ℕ)) (text : List ℕ)
            → result ≡ fault_of (tally_of self.now names) line (Query text closed) }
    {
        if self.sessions == 0 {
            return Some(ScriptFault::NoSession(line));
        }
        if self.commands >= MOST_COMMANDS {
            return Some(ScriptFault::TooManyCommands(line));
        }
        if !closed {
            return Some(ScriptFault::NotClosed(line));
        }
        None
    }

    fn tell_fault(&self, line: u32, name: &[u8]) -> Option<ScriptFault>
        ensures { (names : List (List ℕ)) → Tells self.now.marks names
            → result ≡ fault_of (tally_of self.now names) line (Tell name.now) }
    {
        if self.sessions == 0 {
            return Some(ScriptFault::NoSession(line));
        }
        if !is_label(name) {
            return Some(ScriptFault::BadName(line));
        }
        if self.marks.find(name).is_some() {
            return Some(ScriptFault::MarkTwice(line));
        }
        if self.commands >= MOST_COMMANDS {
            return Some(ScriptFault::TooManyCommands(line));
        }
        None
    }

    fn hear_fault(&self, line: u32, name: &[u8]) -> Option<ScriptFault>
        ensures { (names : List (List ℕ))
            → result ≡ fault_of (tally_of self.now names) line (Hear name.now) }
    {
        if self.sessions == 0 {
            return Some(ScriptFault::NoSession(line));
        }
        if !is_label(name) {
            return Some(ScriptFault::BadName(line));
        }
        if self.commands >= MOST_COMMANDS {
            return Some(ScriptFault::TooManyCommands(line));
        }
        None
    }

    /// Counts a line that has no fault.
    pub fn add(&mut self, alloc: Global, said: &Said) -> Result<(), AllocError>
        requires room { IsBelow (2 ^ 32 - 1) self.old }
        ensures counted { OnOk result ((names : List (List ℕ)) (line : ℕ)
            → Tells self.old.marks names → fault_of (tally_of self.old names) line said.now ≡ None
            → Counted self.new (names ++ told_by said.now)
            (and_then (tally_of self.old names) said.now)) }
        ensures room { OnOk result ((n : ℕ) → IsBelow n self.old → IsBelow (n + 1) self.new) }
    {
        match said {
            Said::Unknown => {}
            Said::Session => {
                self.sessions += 1;
                self.commands = 0;
            }
            Said::Load { .. } => {
                self.commands += 1;
                self.loads += 1;
            }
            Said::Query { .. } | Said::Hear { .. } => {
                self.commands += 1;
            }
            Said::Tell { name } => {
                self.commands += 1;
                self.marks.add(alloc, name.as_slice())?;
            }
        }
        Ok(())
    }
}

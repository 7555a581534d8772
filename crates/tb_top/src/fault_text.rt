//! How faults are printed.

ghost use Rattle.std.specs.Prelude.{◌≡◌, ◌++◌, OnOk};
ghost use Rattle.tb_top.specs.FaultText.{esis_fault_name, esis_fault_line, query_fault_name, query_fault_number, script_line, at_line};

use crate::printer::push_number;
use std::alloc::AllocError;
use tb_esis::EsisFault;
use tb_flwor::QueryFault;
use tb_script::ScriptFault;

/// The name of a body's fault.
pub fn esis_fault_name(fault: &EsisFault) -> &'static [u8]
    ensures { result.now ≡ esis_fault_name fault.now }
{
    match fault {
        EsisFault::BadEscape(_) => b"bad-escape",
        EsisFault::BadName(_) => b"bad-name",
        EsisFault::BadAttribute(_) => b"bad-attribute",
        EsisFault::NoElement(_) => b"no-element",
        EsisFault::WrongEnd(_) => b"wrong-end",
        EsisFault::NotEnded(_) => b"not-ended",
        EsisFault::SecondRoot(_) => b"second-root",
        EsisFault::TextOutside(_) => b"text-outside",
        EsisFault::TooDeep(_) => b"too-deep",
        EsisFault::NoMemory => b"no-memory",
    }
}

/// The number of its line, from 1.
pub fn esis_fault_line(fault: &EsisFault) -> u32
    ensures { result ≡ esis_fault_line fault.now }
{
    match fault {
        EsisFault::BadEscape(line)
        | EsisFault::BadName(line)
        | EsisFault::BadAttribute(line)
        | EsisFault::NoElement(line)
        | EsisFault::WrongEnd(line)
        | EsisFault::NotEnded(line)
        | EsisFault::SecondRoot(line)
        | EsisFault::TextOutside(line)
        | EsisFault::TooDeep(line) => *line,
        EsisFault::NoMemory => 0,
    }
}

/// The name of a fault of a query's text.
pub fn query_fault_name(fault: &QueryFault) -> &'static [u8]
    ensures { result.now ≡ query_fault_name fault.now }
{
    match fault {
        QueryFault::TooLong => b"too-long",
        QueryFault::BadByte(_) => b"bad-byte",
        QueryFault::OpenString(_) => b"open-string",
        QueryFault::Syntax(_) => b"syntax",
        QueryFault::TooNested => b"too-nested",
        QueryFault::TooManyNodes => b"too-many-nodes",
        QueryFault::TooManyVariables => b"too-many-variables",
        QueryFault::UnknownVariable(_) => b"unknown-variable",
        QueryFault::RepeatedVariable(_) => b"repeated-variable",
        QueryFault::LiteralPast(_) => b"literal-past",
        QueryFault::WrongTag(_) => b"wrong-tag",
        QueryFault::RepeatedAttribute(_) => b"repeated-attribute",
        QueryFault::NoMemory => b"no-memory",
    }
}

/// The number of its token, from 1, or of its byte, from 0, where it has one.
pub fn query_fault_number(fault: &QueryFault) -> Option<u32>
    ensures { result ≡ query_fault_number fault.now }
{
    match fault {
        QueryFault::BadByte(number)
        | QueryFault::OpenString(number)
        | QueryFault::Syntax(number)
        | QueryFault::UnknownVariable(number)
        | QueryFault::RepeatedVariable(number)
        | QueryFault::LiteralPast(number)
        | QueryFault::WrongTag(number)
        | QueryFault::RepeatedAttribute(number) => Some(*number),
        QueryFault::TooLong
        | QueryFault::TooNested
        | QueryFault::TooManyNodes
        | QueryFault::TooManyVariables
        | QueryFault::NoMemory => None,
    }
}

/// Appends the line that a script's fault is answered with.
pub fn push_script_fault(fault: &ScriptFault, text: &mut Vec<u8>) -> Result<(), AllocError>
    ensures { OnOk result (text.new.items ≡ text.old.items ++ script_line fault.now) }
{
    match fault {
        ScriptFault::InputTooLong => text.extend_from_slice(b"script input-too-long\n"),
        ScriptFault::UnknownLine(line) => push_at_line(*line, b"unknown-line", text),
        ScriptFault::NoSession(line) => push_at_line(*line, b"no-session", text),
        ScriptFault::BadName(line) => push_at_line(*line, b"bad-name", text),
        ScriptFault::MarkTwice(line) => push_at_line(*line, b"mark-twice", text),
        ScriptFault::TooManySessions(line) => push_at_line(*line, b"too-many-sessions", text),
        ScriptFault::TooManyCommands(line) => push_at_line(*line, b"too-many-commands", text),
        ScriptFault::TooManyChanges(line) => push_at_line(*line, b"too-many-changes", text),
        ScriptFault::NotClosed(line) => push_at_line(*line, b"not-closed", text),
        ScriptFault::MarkUnknown(line) => push_at_line(*line, b"mark-unknown", text),
        ScriptFault::MarkStuck(line) => push_at_line(*line, b"mark-stuck", text),
        ScriptFault::NoMemory => Ok(()),
    }
}

fn push_at_line(line: u32, name: &[u8], text: &mut Vec<u8>) -> Result<(), AllocError>
    ensures { OnOk result (text.new.items ≡ text.old.items ++ at_line line name.now) }
{
    text.extend_from_slice(b"script ")?;
    push_number(u64::from(line), text)?;
    text.push(b' ')?;
    text.extend_from_slice(name)?;
    text.push(b'\n')?;
    Ok(())
}

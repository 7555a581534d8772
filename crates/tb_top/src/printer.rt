//! The lines of a transcript.

ghost use Rattle.std.specs.Prelude.{◌≡◌, ◌++◌, OnOk, decimal, codes, option_map};
ghost use Rattle.tb_top.specs.Transcript.{load_line, refused_line, refused_query_line, answered_line, past_line, query_block, history_line};
ghost use Rattle.tb_top.specs.FaultText.{esis_fault_text, query_fault_text, number_text};
ghost use Rattle.tb_top.specs.Running.{begun, named_line};
ghost use Rattle.tb_top.specs.Kept.{change_in};
ghost use Rattle.tb_top.specs.Answered.{told};

use crate::fault_text::{esis_fault_line, esis_fault_name, query_fault_name, query_fault_number};
use crate::history::Change;
use itoa::Buffer;
use std::alloc::AllocError;
use tb_engine::Answer;
use tb_esis::EsisFault;
use tb_flwor::QueryFault;

/// Appends a number in decimal.
pub fn push_number(number: u64, text: &mut Vec<u8>) -> Result<(), AllocError>
    ensures { OnOk result (text.new.items ≡ text.old.items ++ decimal number) }
{
    let mut buffer = Buffer::new();
    text.extend_from_slice(buffer.format(number).as_bytes())
}

/// Appends the line with which a session's part begins. Sessions are numbered from 0 here.
pub fn push_session_line(session: u32, text: &mut Vec<u8>) -> Result<(), AllocError>
    ensures { OnOk result (text.new.items ≡ text.old.items ++ begun session) }
{
    text.extend_from_slice(b"session ")?;
    push_number(u64::from(session) + 1, text)?;
    text.push(b'\n')?;
    Ok(())
}

/// Appends the line of a command that ends with a number of changes: its own number, its verb with
/// a blank on both sides, a name, the word before the front with its blanks, and the front.
fn push_named_line(
    number: u64,
    verb: &[u8],
    name: &[u8],
    word: &[u8],
    front: u32,
    text: &mut Vec<u8>,
) -> Result<(), AllocError>
    ensures { OnOk result (text.new.items ≡ text.old.items
        ++ named_line number verb.now name.now word.now front) }
{
    push_number(number, text)?;
    text.extend_from_slice(verb)?;
    text.extend_from_slice(name)?;
    text.extend_from_slice(word)?;
    push_number(u64::from(front), text)?;
    text.push(b'\n')?;
    Ok(())
}

/// Appends the line of a load that was accepted as that change of the history.
pub fn push_load_line(
    number: u64,
    name: &[u8],
    change: u32,
    text: &mut Vec<u8>,
) -> Result<(), AllocError>
    ensures { OnOk result (text.new.items ≡ text.old.items ++ load_line number name.now change) }
{
    push_named_line(number, b" load ", name, b" at ", change, text)
}

/// Appends the line of a `tell` or a `hear`.
pub fn push_front_line(
    number: u64,
    verb: &[u8],
    name: &[u8],
    front: u32,
    text: &mut Vec<u8>,
) -> Result<(), AllocError>
    ensures { OnOk result (text.new.items ≡ text.old.items
        ++ named_line number verb.now name.now (codes " front ") front) }
{
    push_named_line(number, verb, name, b" front ", front, text)
}

/// Appends the line of a load whose body has the fault.
pub fn push_refused_line(
    number: u64,
    fault: &EsisFault,
    text: &mut Vec<u8>,
) -> Result<(), AllocError>
    ensures { OnOk result (text.new.items ≡ text.old.items ++ refused_line number fault.now) }
{
    push_number(number, text)?;
    text.extend_from_slice(b" load refused ")?;
    push_esis_fault(fault, text)?;
    text.push(b'\n')?;
    Ok(())
}

/// Appends a fault of a body and its line.
pub fn push_esis_fault(fault: &EsisFault, text: &mut Vec<u8>) -> Result<(), AllocError>
    ensures { OnOk result (text.new.items ≡ text.old.items ++ esis_fault_text fault.now) }
{
    text.extend_from_slice(esis_fault_name(fault))?;
    text.push(b' ')?;
    push_number(u64::from(esis_fault_line(fault)), text)
}

/// Appends the line of a query whose text has the fault.
pub fn push_refused_query_line(
    number: u64,
    fault: &QueryFault,
    text: &mut Vec<u8>,
) -> Result<(), AllocError>
    ensures { OnOk result (text.new.items ≡ text.old.items ++ refused_query_line number fault.now) }
{
    push_number(number, text)?;
    text.extend_from_slice(b" query refused ")?;
    push_query_fault(fault, text)?;
    text.push(b'\n')?;
    Ok(())
}

/// Appends a fault of a query's text, and its number.
fn push_query_fault(fault: &QueryFault, text: &mut Vec<u8>) -> Result<(), AllocError>
    ensures { OnOk result (text.new.items ≡ text.old.items ++ query_fault_text fault.now) }
{
    text.extend_from_slice(query_fault_name(fault))?;
    push_fault_number(query_fault_number(fault), text)
}

/// Appends the number of a fault that has one.
fn push_fault_number(number: Option<u32>, text: &mut Vec<u8>) -> Result<(), AllocError>
    ensures { OnOk result (text.new.items ≡ text.old.items ++ number_text number) }
{
    let Some(number) = number else {
        return Ok(());
    };
    text.push(b' ')?;
    push_number(u64::from(number), text)
}

/// Appends the block of a query: command `number` was answered over the first `front` changes.
pub fn push_query_block(
    number: u64,
    front: u32,
    answer: &Option<Answer>,
    text: &mut Vec<u8>,
) -> Result<(), AllocError>
    ensures { OnOk result (text.new.items
        ≡ text.old.items ++ query_block number front (option_map told answer.now)) }
{
    match answer {
        Some(answer) => push_answer(number, front, answer, text),
        None => push_past_line(number, front, text),
    }
}

fn push_answer(
    number: u64,
    front: u32,
    answer: &Answer,
    text: &mut Vec<u8>,
) -> Result<(), AllocError>
    ensures { OnOk result (text.new.items ≡ text.old.items
        ++ (answered_line number front answer.now.count ++ answer.now.text.items ++ codes ".\n")) }
{
    push_answered_line(number, front, answer.count, text)?;
    text.extend_from_slice(&answer.text)?;
    text.extend_from_slice(b".\n")
}

fn push_past_line(number: u64, front: u32, text: &mut Vec<u8>) -> Result<(), AllocError>
    ensures { OnOk result (text.new.items ≡ text.old.items ++ past_line number front) }
{
    push_number(number, text)?;
    text.extend_from_slice(b" query front ")?;
    push_number(u64::from(front), text)?;
    text.extend_from_slice(b" refused past-128-bits\n")?;
    Ok(())
}

fn push_answered_line(
    number: u64,
    front: u32,
    trees: u64,
    text: &mut Vec<u8>,
) -> Result<(), AllocError>
    ensures { OnOk result (text.new.items ≡ text.old.items ++ answered_line number front trees) }
{
    push_number(number, text)?;
    text.extend_from_slice(b" query front ")?;
    push_number(u64::from(front), text)?;
    text.extend_from_slice(b" trees ")?;
    push_number(trees, text)?;
    text.push(b'\n')?;
    Ok(())
}

/// Appends the line of a change of the history.
pub fn push_history_line(number: u64, change: &Change, text: &mut Vec<u8>) -> Result<(), AllocError>
    ensures { OnOk result
        (text.new.items ≡ text.old.items ++ history_line number (change_in change.now)) }
{
    push_number(number, text)?;
    text.extend_from_slice(b" session ")?;
    push_number(u64::from(change.session) + 1, text)?;
    text.extend_from_slice(b" change ")?;
    push_number(u64::from(change.count), text)?;
    text.extend_from_slice(b" load ")?;
    text.extend_from_slice(change.name.as_slice())?;
    text.push(b'\n')?;
    Ok(())
}

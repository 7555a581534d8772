//! Whether the sessions come to stand.

ghost use Rattle.std.specs.Prelude.{◌≡◌, ◌<◌, ℕ, Some, true, [], false, IfOk, OnOk, length, map, replicate};
ghost use Rattle.tb_script.specs.Rounds.{is_among, lesser, least_line, stuck_line};
ghost use Rattle.tb_script.specs.Groups.{listed};
ghost use Rattle.tb_script.specs.Walks.{HaveMarksBelow, Starts, state_of};

use crate::lined_command::LinedCommand;
use crate::walk::Walk;
use std::alloc::{AllocError, Global};

/// The least line at which a session stands when none can go on, where one is left. The marks have
/// numbers below `marks`.
pub fn stuck_line(
    alloc: Global,
    sessions: &[Vec<LinedCommand>],
    marks: u32,
) -> Result<Option<u32>, AllocError>
    requires marks { HaveMarksBelow marks (listed sessions.now) }
    ensures { IfOk result (λ line. line ≡ stuck_line (listed sessions.now)) }
{
    let mut walk = start(alloc, sessions, marks)?;
    walk.end()?;
    Ok(least_line(&walk.rests))
}

fn start<'a>(
    alloc: Global,
    sessions: &'a [Vec<LinedCommand>],
    marks: u32,
) -> Result<Walk<'a>, AllocError>
    requires marks { HaveMarksBelow marks (listed sessions.now) }
    ensures { IfOk result (λ walk. Starts (listed sessions.now) (state_of walk)) }
{
    Ok(Walk {
        rests: rests_of(alloc, sessions)?,
        told: untold(alloc, marks)?,
        waiters: no_waiters(alloc, marks)?,
        ready: places(alloc, sessions.len())?,
    })
}

fn rests_of<'a>(
    alloc: Global,
    sessions: &'a [Vec<LinedCommand>],
) -> Result<Vec<&'a [LinedCommand]>, AllocError>
    ensures { IfOk result (λ rests. map (λ r. r.now) rests.items ≡ listed sessions.now) }
{
    let mut rests = Vec::new(alloc);
    'sessions: for session in sessions {
        rests.push(session.as_slice())?;
    }
    Ok(rests)
}

pub fn untold(alloc: Global, marks: u32) -> Result<Vec<bool>, AllocError>
    ensures { IfOk result (λ told. told.items ≡ replicate marks false) }
{
    let mut told = Vec::new(alloc);
    'marks: for _mark in 0..marks {
        told.push(false)?;
    }
    Ok(told)
}

fn no_waiters(alloc: Global, marks: u32) -> Result<Vec<Vec<usize>>, AllocError>
    ensures { IfOk result (λ waiters. map (λ v. v.items) waiters.items ≡ replicate marks []) }
{
    let mut waiters = Vec::new(alloc);
    'marks: for _mark in 0..marks {
        waiters.push(Vec::new(alloc))?;
    }
    Ok(waiters)
}

fn places(alloc: Global, count: usize) -> Result<Vec<usize>, AllocError>
    ensures all { IfOk result (λ places.
        (at : ℕ) → at < count → is_among at places.items ≡ true) }
    ensures count { IfOk result (λ places. length places.items ≡ count) }
{
    let mut places = Vec::new(alloc);
    'places: for place in 0..count {
        places.push(place)?;
    }
    Ok(places)
}

fn least_line(rests: &[&[LinedCommand]]) -> Option<u32>
    ensures { result ≡ least_line (map (λ r. r.now) rests.now) }
{
    let mut least: Option<u32> = None;
    'rests: for rest in rests {
        let [turn, ..] = *rest else {
            continue;
        };
        least = Some(lesser(turn.line, least));
    }
    least
}

fn lesser(line: u32, other: Option<u32>) -> u32
    ensures { Some result ≡ lesser line other }
{
    match other {
        Some(least) if least < line => least,
        _ => line,
    }
}

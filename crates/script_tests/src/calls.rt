//! Which run waits for which run that it called.
use ha_sight::Branch;
use ha_value::Many;
use script_calls::Calls;
use std::alloc::{AllocError, Global};

/// What happens to runs that call others.
#[derive(Drop)]
enum Turn<'a> {
    /// This run waits, in this branch, for that one.
    Begins(u64, &'a [u32], u64),
    /// This run ends, for which that one waits in that branch, or none.
    Ends(u64, Option<(u64, &'a [u32])>),
    /// This run waits for no other any more.
    Drops(u64),
}

fn branch(alloc: Global, places: &[u32]) -> Result<Branch, AllocError> {
    let mut branch = Many::make(alloc);
    for place in places {
        branch.push(*place)?;
    }
    Ok(branch)
}

fn is_caller(found: Option<(u64, Branch)>, wanted: &Option<(u64, &[u32])>) -> bool {
    match found {
        Some(found) => match wanted {
            Some(one) => found.0 == one.0 && found.1.as_slice() == one.1,
            None => false,
        },
        None => wanted.is_none(),
    }
}

fn is_told(alloc: Global, calls: &mut Calls, turn: &Turn<'_>) -> Result<bool, AllocError> {
    match turn {
        Turn::Begins(caller, places, called) => {
            let branch = branch(alloc, places)?;
            calls.begin(*caller, branch, *called)?;
            Ok(true)
        }
        Turn::Ends(called, wanted) => Ok(is_caller(calls.run_ended(*called), wanted)),
        Turn::Drops(caller) => {
            calls.drop_run(*caller);
            Ok(true)
        }
    }
}

/// Whether all is told so, in turn, and so many calls wait behind each.
fn are_told(alloc: Global, turns: &[(Turn<'_>, usize)]) -> Result<bool, AllocError> {
    let mut calls = Calls::make(alloc);
    for turn in turns {
        if !is_told(alloc, &mut calls, &turn.0)? || calls.len() != turn.1 {
            return Ok(false);
        }
    }
    calls.clear();
    Ok(calls.len() == 0)
}

#[test]
fn a_run_that_ends_gives_the_one_that_waits_for_it(rt: HostRuntime) {
    let turns = [
        (Turn::Begins(1, &[0], 2), 1),
        (Turn::Begins(1, &[1], 3), 2),
        (Turn::Begins(3, &[], 4), 3),
        (Turn::Ends(2, Some((1, &[0]))), 2),
        (Turn::Ends(2, None), 2),
        (Turn::Begins(1, &[0], 5), 3),
        (Turn::Drops(1), 1),
        (Turn::Ends(5, None), 1),
        (Turn::Ends(3, None), 1),
        (Turn::Ends(4, Some((3, &[]))), 0),
        (Turn::Begins(6, &[], 7), 1),
    ];
    assert!(rt; are_told(rt.alloc(), &turns).unwrap_or(false));
}

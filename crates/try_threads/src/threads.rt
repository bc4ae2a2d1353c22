//! Consoles in threads of their own.
use crate::turns::{opened, turn};
use console_link::{ConsoleRings, Lane};
use std::process::Abort;
use std::rt::Clock;
use std::sync::Wait;
use std::test::*;
use std::thread;
use std::time::Duration;

/// How often a console looks for its answers at most.
const LOOKS: u64 = 1_000_000_000;

/// How many turns the owner takes at most.
const TURNS: u32 = 100_000;

/// Submits 100 orders, and tells whether each was answered once and in order.
fn submit_hundred(console: ConsoleRings<u32, u8>) -> bool {
    let mut console = console;
    let mut submitted = 0u32;
    let mut answered = 0u32;
    for _ in 0..LOOKS {
        if answered >= 100 {
            break;
        }
        if submitted < 100 && console.submit(submitted).is_ok() {
            submitted += 1;
        }
        match console.answer() {
            Some(answer) => {
                if answer.order != answered {
                    return false;
                }
                answered += 1;
            }
            None => thread::yield_now(),
        }
    }
    answered == 100 && console.answer().is_none() && console.finish(0).is_some()
}

/// Takes turns of two consoles until 200 orders are taken, and tells how many were.
fn serve<R: Wait + Clock>(rt: &R, first: &mut Lane<u32, u8>, second: &mut Lane<u32, u8>) -> u32 {
    let mut taken = 0u32;
    for _ in 0..TURNS {
        if taken >= 200 {
            break;
        }
        let more = turn(first).saturating_add(turn(second));
        taken = taken.saturating_add(more);
        if more == 0 {
            thread::sleep(rt, Duration::from_micros(20));
        }
    }
    taken
}

#[test]
fn two_consoles_are_answered(rt: HostRuntime) -> Result<(), Fail> {
    let (one, mut first) = opened(rt.alloc(), 1)?;
    let (two, mut second) = opened(rt.alloc(), 2)?;
    let Ok(one) = thread::spawn(&rt, move || submit_hundred(one)) else {
        return Err("no thread".into());
    };
    let Ok(two) = thread::spawn(&rt, move || submit_hundred(two)) else {
        one.join(&rt);
        return Err("no thread".into());
    };
    let taken = serve(&rt, &mut first, &mut second);
    let each = (one.join(&rt), two.join(&rt));
    let left = (turn(&mut first), turn(&mut second));
    drop(first);
    drop(second);
    assert_eq!(rt; taken, 200);
    assert!(rt; each.0 && each.1);
    assert!(rt; left == (0, 0));
    Ok(())
}

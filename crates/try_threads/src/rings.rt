//! Full rings.
use crate::turns::{opened, submit, take, turn};
use console_link::{ConsoleRings, Lane};
use std::process::Abort;
use std::test::*;

/// Whether rings have room for 64 orders, and hand the next one back.
fn hand_back(console: &mut ConsoleRings<u32, u8>) -> bool {
    console.room() == 64
        && submit(console, 0, 64) == 64
        && console.room() == 0
        && console.submit(64) == Err(64)
}

/// Whether the orders of full rings are taken, and 64 more only where the answers to the first were taken.
fn take_turns(console: &mut ConsoleRings<u32, u8>, lane: &mut Lane<u32, u8>) -> bool {
    turn(lane) == 64
        && submit(console, 64, 128) == 64
        && turn(lane) == 0
        && take(console, 0, 64)
        && console.answer().is_none()
        && turn(lane) == 64
        && take(console, 64, 128)
}

#[test]
fn full_rings_hand_orders_back(rt: HostRuntime) -> Result<(), Fail> {
    let (mut console, mut lane) = opened(rt.alloc(), 1)?;
    let handed_back = hand_back(&mut console);
    let took_turns = take_turns(&mut console, &mut lane);
    let ended = console.finish(0).is_some();
    drop(lane);
    assert!(rt; handed_back);
    assert!(rt; took_turns);
    assert!(rt; ended);
    Ok(())
}

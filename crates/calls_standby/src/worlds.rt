//! A leader and a follower.

use corr_text::{Memory, Text};
use standby::{World, WorldEvent};
use std::alloc::Global;
use std::test::*;

fn text(alloc: Global, bytes: &[u8]) -> Result<Text, Memory> {
    Text::from_bytes(alloc, bytes)
}

// A leader with three records, of which the packets 2, 1 and 3 were sent.
fn sent(alloc: Global) -> Result<World, Memory> {
    let mut world = World::new(alloc);
    for record in [b"A", b"B", b"C"] {
        world.step(&WorldEvent::Add(text(alloc, record)?))?;
    }
    for number in [2, 1, 3] {
        world.step(&WorldEvent::Send(number))?;
    }
    Ok(world)
}

fn holds(world: &World, records: &[&[u8]]) -> bool {
    let held = world.follower();
    held.len() == records.len()
        && held
            .iter()
            .zip(records.iter())
            .all(|(held, record)| held.bytes() == *record)
}

#[test]
fn packets_are_delivered_in_any_order(rt: HostRuntime) -> Result<(), Fail> {
    let mut world = sent(rt.alloc())?;
    for place in [1, 2, 2, 1, 3] {
        world.step(&WorldEvent::Deliver(place))?;
    }
    assert!(rt; holds(&world, &[b"A", b"B", b"C"]));
    assert_eq!(rt; world.leader().len(), 3);
    assert_eq!(rt; world.confirmed(), 2);
    Ok(())
}

#[test]
fn a_stop_within_a_delivery_takes_it_back(rt: HostRuntime) -> Result<(), Fail> {
    let mut world = sent(rt.alloc())?;
    world.step(&WorldEvent::Deliver(2))?;
    world.step(&WorldEvent::Deliver(1))?;
    world.step(&WorldEvent::Reopen(0))?;
    assert!(rt; holds(&world, &[b"A", b"B"]));
    world.step(&WorldEvent::Reopen(1))?;
    assert!(rt; holds(&world, &[b"A"]));
    assert_eq!(rt; world.confirmed(), 1);
    Ok(())
}

#[test]
fn what_is_not_possible_changes_nothing(rt: HostRuntime) -> Result<(), Fail> {
    let mut world = sent(rt.alloc())?;
    for event in [
        WorldEvent::Send(0),
        WorldEvent::Send(4),
        WorldEvent::Deliver(0),
        WorldEvent::Deliver(4),
        WorldEvent::Reopen(1),
    ] {
        world.step(&event)?;
    }
    assert!(rt; holds(&world, &[]));
    assert_eq!(rt; world.confirmed(), 0);
    Ok(())
}

//! A queue of two and one of the greatest capacity in one thread, and barriers.
ghost use Rattle.std.specs.Prelude.{◌<◌};

use lane_queue::{ListPort, Port, popped_then_held_is_pushed};
use std::alloc::{AllocError, Global};
use std::cell::Cell;
use std::test::Fail;
use thread_watch::{Barrier, ThreadPlace, Unwatched};

/// Pushes by the trait, and answers what came back.
fn pushed<P: Port<u64>>(port: &mut P, item: u64) -> Option<u64> {
    port.try_push(item).err()
}

/// What a queue of two answers to a pop, three pushes, a pop, a push and three pops.
fn pushed_and_popped(alloc: Global) -> Result<[Option<u64>; 9], AllocError> {
    let mut port = ListPort::new(alloc, 2)?;
    Ok([
        port.pop(),
        pushed(&mut port, 1),
        pushed(&mut port, 2),
        pushed(&mut port, 3),
        port.pop(),
        pushed(&mut port, 4),
        port.pop(),
        port.pop(),
        port.pop(),
    ])
}

#[test]
fn queue_of_two(rt: HostRuntime) -> Result<(), Fail> {
    let full = Some(3);
    let answers = [
        None,
        None,
        None,
        full,
        Some(1),
        None,
        Some(2),
        Some(4),
        None,
    ];
    assert_eq!(rt; pushed_and_popped(rt.alloc())?, answers);
    popped_then_held_is_pushed::<u64>();
    Ok(())
}

/// Whether a queue of this capacity takes just so many items, and gives them in order.
fn fills(alloc: Global, capacity: usize) -> Result<bool, AllocError>
    requires { 0 < capacity }
{
    let mut port = ListPort::new(alloc, capacity)?;
    let mut fits = true;
    for item in 0..capacity as u64 {
        fits = fits && port.try_push(item).is_ok();
    }
    fits = fits && port.try_push(0).is_err();
    for item in 0..capacity as u64 {
        fits = fits && port.pop() == Some(item);
    }
    Ok(fits && port.pop().is_none())
}

#[test]
fn greatest_queue_fills(rt: HostRuntime) -> Result<(), Fail> {
    assert!(rt; fills(rt.alloc(), 65536)?);
    Ok(())
}

/// A barrier that keeps the last place.
#[derive(Drop)]
struct LastPlace {
    place: Cell<Option<ThreadPlace>>,
}

impl Barrier for LastPlace {
    fn reach(&self, place: ThreadPlace) {
        self.place.set(Some(place));
    }
}

/// Reaches a place by the trait.
fn pass<B: Barrier>(barrier: &B, place: ThreadPlace) {
    barrier.reach(place);
}

/// The place that a barrier keeps once this one is reached.
fn kept(barrier: &LastPlace, place: ThreadPlace) -> Option<ThreadPlace> {
    pass(&Unwatched, place);
    pass(barrier, place);
    barrier.place.get()
}

#[test]
fn barriers_are_reached(rt: HostRuntime) {
    let barrier = LastPlace {
        place: Cell::new(None),
    };
    let (lane, ordinal) = (0, 1);
    let connected = ThreadPlace::Connected { lane, ordinal };
    let served = ThreadPlace::Served { lane, ordinal };
    let taken = ThreadPlace::Taken { shard: 2 };
    let places = [
        kept(&barrier, connected),
        kept(&barrier, served),
        kept(&barrier, taken),
    ];
    assert_eq!(rt; places, [Some(connected), Some(served), Some(taken)]);
}

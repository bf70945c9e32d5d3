//! A queue of two and one of the greatest capacity through their ends, and two senders on threads of their own.
ghost use Rattle.std.specs.Prelude.{◌≡◌, ◌<◌, false};
ghost use Rattle.lane_queue.specs.Ends.{queues};

use lane_queue::{LaneQueue, Receiver, Room, Sender, reunite};
use std::alloc::{AllocError, Global};
use std::marker::Brand;
use std::sync::Wait;
use std::test::Fail;
use std::thread;
use std::thread::Threads;
use std::time::Clock;

/// What is pushed: the number of a sender and one that it counts up.
type Item = (u32, u32);

/// What two pushes, a third one, three pops and a fourth push answer on a queue.
fn answers<C: Room, R: Wait>(
    rt: &R,
    sender: &mut Sender<Item, C>,
    receiver: &mut Receiver<Item, C>,
) -> [Option<Item>; 7]
    ensures sender { sender.new.queue ≡ sender.old.queue }
    ensures receiver { queues receiver.new.ends ≡ queues receiver.old.ends }
{
    [
        sender.try_push(rt, (0, 1)).err(),
        sender.try_push(rt, (0, 2)).err(),
        sender.try_push(rt, (0, 3)).err(),
        receiver.pop(rt),
        receiver.pop(rt),
        receiver.pop(rt),
        sender.try_push(rt, (0, 4)).err(),
    ]
}

/// The same on a new queue of this capacity.
fn pushed_and_popped<C: Room, R: Wait>(
    rt: &R,
    alloc: Global,
    capacity: usize,
) -> Result<[Option<Item>; 7], AllocError>
    requires { (0 < capacity) × (capacity ≡ C.capacity) × (false ≡ C.waits) }
{
    let (mut senders, mut receiver) = LaneQueue::new::<Item, C>(alloc, capacity, false, 1)?;
    let answers = answers(rt, &mut senders[0], &mut receiver);
    reunite(receiver, senders);
    Ok(answers)
}

#[test]
fn queue_of_two(rt: HostRuntime) -> Result<(), Fail> {
    let answers = pushed_and_popped::<Brand, _>(&rt, rt.alloc(), 2)?;
    let popped = [Some((0, 1)), Some((0, 2)), None];
    let [first, second, third] = popped;
    assert_eq!(rt;
        answers,
        [None, None, Some((0, 3)), first, second, third, None]
    );
    Ok(())
}

/// Whether a queue of this capacity takes just so many items, and gives them in order.
fn fills<C: Room, R: Wait>(rt: &R, alloc: Global, capacity: u32) -> Result<bool, AllocError>
    requires { (0 < capacity) × (capacity ≡ C.capacity) × (false ≡ C.waits) }
{
    let (mut senders, mut receiver) = LaneQueue::new::<Item, C>(
        alloc,
        capacity as usize,
        false,
        1,
    )?;
    let sender = &mut senders[0];
    let mut fits = true;
    for item in 0..capacity {
        fits = fits && sender.try_push(rt, (0, item)).is_ok();
    }
    fits = fits && sender.try_push(rt, (0, capacity)).is_err();
    for item in 0..capacity {
        fits = fits && receiver.pop(rt) == Some((0, item));
    }
    Ok(fits && receiver.pop(rt).is_none())
}

#[test]
fn greatest_queue_fills(rt: HostRuntime) -> Result<(), Fail> {
    assert!(rt; fills::<Brand, _>(&rt, rt.alloc(), 65536)?);
    Ok(())
}

/// Pushes 1000 items, in order.
fn push_all<C: Room, R: Wait + Clock>(
    rt: &R,
    number: u32,
    sender: Sender<Item, C>,
) -> Sender<Item, C>
    ensures { result.queue ≡ sender.queue }
{
    let mut sender = sender;
    for item in 0..1000 {
        sender.push(rt, (number, item));
    }
    sender
}

/// Two senders push on threads of their own.
fn push_both<C: Room + Send + Sync, R: Threads + Wait + Clock + Sync>(
    rt: &R,
    first: Sender<Item, C>,
    second: Sender<Item, C>,
) -> (Sender<Item, C>, Sender<Item, C>)
    ensures first { result.0.queue ≡ first.queue }
    ensures second { result.1.queue ≡ second.queue }
{
    thread::join(
        rt,
        move || push_all(rt, 0, first),
        move || push_all(rt, 1, second),
    )
}

/// Pops 2000 items, and says whether each sender's came in its order.
fn pop_all<C: Room, R: Wait>(rt: &R, receiver: Receiver<Item, C>) -> (Receiver<Item, C>, bool)
    ensures { queues result.0.ends ≡ queues receiver.ends }
{
    let mut receiver = receiver;
    let mut next = [0u32; 2];
    let mut popped = 0usize;
    let mut in_order = true;
    for _ in rt.forever() {
        if popped >= 2000 {
            break;
        }
        match receiver.pop(rt) {
            Some((number, item)) => {
                popped += 1;
                let place = (number % 2) as usize;
                in_order = in_order && next[place] == item;
                next[place] = item.wrapping_add(1);
            }
            None => thread::yield_now(),
        }
    }
    (receiver, in_order)
}

/// Whether what two senders push comes in each one's order.
fn two_senders<C: Room + Send + Sync, R: Threads + Wait + Clock + Sync>(
    rt: &R,
    alloc: Global,
    capacity: usize,
) -> Result<bool, AllocError>
    requires { (0 < capacity) × (capacity ≡ C.capacity) × (false ≡ C.waits) }
{
    let (mut senders, receiver) = LaneQueue::new::<Item, C>(alloc, capacity, false, 2)?;
    let second = senders.take_last();
    let first = senders.take_last();
    let ((first, second), (receiver, in_order)) = thread::join(
        rt,
        move || push_both(rt, first, second),
        move || pop_all(rt, receiver),
    );
    senders.push_reserved(first);
    senders.push_reserved(second);
    reunite(receiver, senders);
    Ok(in_order)
}

#[test]
fn two_senders_in_order(rt: HostRuntime) -> Result<(), Fail> {
    assert!(rt; two_senders::<Brand, _>(&rt, rt.alloc(), 8)?);
    Ok(())
}

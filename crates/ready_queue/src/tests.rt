//! A queue, pushed and popped by hand.

ghost use Rattle.std.specs.Prelude.{◌≡◌, ◌<◌, ◌∷◌, [], OnOk, IfSome};
ghost use Rattle.ready_queue.specs.Rules.{new_row, taking};

use super::*;
use compat_scheduler::Ticket;
use seuss_base::Level;
use std::sync::Wait;
use std::test::Fail;

/// A pass that was started, with the number of the seat that started it.
#[derive(Drop)]
struct Job {
    ticket: Ticket,
    seat: u32,
}

impl Queued for Job {
    ghost mark = { λ job. record { ticket = job.ticket; seat = job.seat } };
}

/// The job of a pass that a seat started.
fn started(pass: u64, seat: u32) -> Job
    ensures { (result.ticket.pass ≡ pass) × (result.seat ≡ seat) }
{
    let ticket = Ticket {
        pass,
        attempt: pass,
        action: 0,
        mode: Level::Loose,
    };
    Job { ticket, seat }
}

/// Whether a job is pushed as the first one of its seat.
fn is_pushed<R: Wait>(rt: &R, queue: &ReadyQueue<Job>, seat: &mut ReadySeat<Job>, pass: u64) -> bool
    requires queue { seat.old.queue ≡ queue.now }
    requires unused { seat.old.row.pushed ≡ [] }
    ensures { seat.new.queue ≡ seat.old.queue }
{
    let number = seat.number();
    queue.push(rt, seat, started(pass, number)).is_ok()
}

/// The pass of the job at the front.
fn popped<R: Wait>(rt: &R, queue: &ReadyQueue<Job>, seat: &mut ReadySeat<Job>) -> Option<u64>
    requires { seat.old.queue ≡ queue.now }
    ensures { seat.new.queue ≡ seat.old.queue }
{
    Some(queue.pop(rt, seat)?.ticket.pass)
}

#[test]
fn two_seats_push_and_pop(rt: HostRuntime) -> Result<(), Fail> {
    let (queue, mut line) = ReadyQueue::<Job>::open(rt.alloc())?;
    let mut one = queue.seat(&mut line, 0);
    let mut two = queue.seat(&mut line, 1);
    assert!(rt; queue.is_empty(&mut line));
    let first = is_pushed(&rt, &queue, &mut one, 5);
    let second = is_pushed(&rt, &queue, &mut two, 3);
    assert!(rt; first && second);
    assert_eq!(rt; queue.len(&rt, &mut line), 2);
    assert!(rt; !queue.is_empty(&mut line));
    assert_eq!(rt; popped(&rt, &queue, &mut two), Some(5));
    assert_eq!(rt; popped(&rt, &queue, &mut one), Some(3));
    assert_eq!(rt; popped(&rt, &queue, &mut one), None);
    queue.join(&mut line, one);
    queue.join(&mut line, two);
    assert!(rt; queue.is_empty(&mut line));
    assert_eq!(rt; queue.len(&rt, &mut line), 0);
    Ok(())
}

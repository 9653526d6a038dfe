//! Two threads draw at one desk.
ghost use Rattle.std.specs.Prelude.{◌≡◌, ◌≤◌, ◌^◌, All, IfSome};
ghost use Rattle.shared_memo.specs.Tickets.{told, tickets_of, IsTicketOf, IsFreshTicketOf};

use shared_memo::{Desk, Ticket};
use std::alloc::Global;
use std::thread;
use std::thread::Threads;

/// Removes the last ticket.
fn taken(desk: &Desk, tickets: &mut Vec<Ticket>) -> Option<Ticket>
    requires { All (IsFreshTicketOf desk.now) tickets.old.items }
    ensures rest { All (IsFreshTicketOf desk.now) tickets.new.items }
    ensures ticket { IfSome result (IsFreshTicketOf desk.now) }
{
    tickets.pop()
}

/// Draws until all numbers are drawn, and counts those of this ticket.
fn draw_all(desk: &Desk, mut ticket: Ticket) -> (Ticket, u32)
    requires { IsTicketOf desk.now ticket × (told ticket ≡ 0) }
    ensures { IsTicketOf desk.now result.0 }
{
    let mut count = 0u32;
    while let Some(_number) = desk.draw(&mut ticket) {
        count = count.saturating_add(1);
    }
    (ticket, count)
}

/// Closes a desk of two tickets, and returns how many numbers were drawn.
fn close_of_two(alloc: Global, desk: Desk, a: Ticket, b: Ticket) -> Option<u32>
    requires count { tickets_of desk ≡ 2 }
    requires a { IsTicketOf desk a }
    requires b { IsTicketOf desk b }
{
    let mut back = Vec::new(alloc);
    back.push(a).ok()?;
    back.push(b).ok()?;
    Some(desk.close(back))
}

/// Returns how many of these numbers two threads draw, a ticket for each, and how many the desk
/// tells when it is closed.
fn drawn_by_two<R: Threads + Sync>(rt: &R, alloc: Global, total: u32) -> Option<(u32, u32)>
    requires { total ≤ 2 ^ 24 }
{
    let (desk, mut tickets) = Desk::new(alloc, total, 2).ok()?;
    let b = taken(&desk, &mut tickets)?;
    let a = taken(&desk, &mut tickets)?;
    let lent = &desk;
    let (of_a, of_b) = thread::join(rt, || draw_all(lent, a), || draw_all(lent, b));
    let count = of_a.1.saturating_add(of_b.1);
    Some((count, close_of_two(alloc, desk, of_a.0, of_b.0)?))
}

#[test]
fn two_threads_draw_from_one_desk(rt: HostRuntime) {
    assert!(rt; drawn_by_two(&rt, rt.alloc(), 1000) == Some((1000, 1000)));
}

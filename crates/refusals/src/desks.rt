//! Rows of the desk.
ghost use Rattle.std.specs.Prelude.{◌≡◌, ◌≤◌, All, IfOk, OnOk};
ghost use Rattle.shared_memo.specs.Tickets.{told, tickets_of, IsTicketOf, IsFreshTicketOf};

use crate::miss::Miss;
use crate::tell::{again, tell, value_or};
use node_lang::OutOfMemory;
use shared_memo::{Desk, Ticket};

/// `Desk::new`: prints the results of two tickets that draw three numbers in turn, and of one at a
/// desk without numbers.
pub(crate) fn do_desk<R: AllocGlobal + Print>(rt: &R) -> Result<(), Miss> {
    let (desk, mut tickets) = desk_of(rt, 3, 2)?;
    let b = pop_ticket(&desk, &mut tickets)?;
    let a = pop_ticket(&desk, &mut tickets)?;
    tell_draws(rt, desk, a, b)?;
    do_empty_desk(rt)
}

// Returns a desk with this many numbers and tickets.
fn desk_of<R: AllocGlobal + Print>(
    rt: &R,
    total: u32,
    tickets: u32,
) -> Result<(Desk, Vec<Ticket>), Miss>
    requires total { total ≤ 3 }
    requires tickets { (1 ≤ tickets) × (tickets ≤ 2) }
    ensures count { IfOk result (λ r. tickets_of r.0 ≡ tickets) }
    ensures fresh { IfOk result (λ r. All (IsFreshTicketOf r.0) r.1.items) }
{
    let answer = again!(rt, Desk::new(rt.alloc(), total, tickets), OutOfMemory => "OutOfMemory");
    value_or(answer, Miss::Wrong)
}

// Draws with two tickets until both are told that all numbers are drawn, closes the desk, and
// prints what was drawn.
fn tell_draws<R: AllocGlobal + Print>(
    rt: &R,
    desk: Desk,
    mut a: Ticket,
    mut b: Ticket,
) -> Result<(), Miss>
    requires count { tickets_of desk ≡ 2 }
    requires a { IsTicketOf desk a × (told a ≡ 0) }
    requires b { IsTicketOf desk b × (told b ≡ 0) }
{
    let first = draw_number(&desk, &mut a)?;
    let second = draw_number(&desk, &mut b)?;
    let third = draw_number(&desk, &mut a)?;
    let (of_b, of_a) = (desk.draw(&mut b), desk.draw(&mut a));
    let mut back = Vec::new(rt.alloc());
    value_or(back.push(a), Miss::OtherCall)?;
    value_or(back.push(b), Miss::OtherCall)?;
    let count = desk.close(back);
    let _ = print!(rt; "{first} {second} {third} ");
    let _ = print!(rt; "{of_b:?} ");
    tell_draw(rt, of_a, count);
    Ok(())
}

// Draws with the only ticket of a desk without numbers, and closes the desk.
fn do_empty_desk<R: AllocGlobal + Print>(rt: &R) -> Result<(), Miss> {
    let (desk, mut tickets) = desk_of(rt, 0, 1)?;
    let mut ticket = pop_ticket(&desk, &mut tickets)?;
    let found = desk.draw(&mut ticket);
    let mut back = Vec::new(rt.alloc());
    value_or(back.push(ticket), Miss::OtherCall)?;
    tell_draw(rt, found, desk.close(back));
    Ok(())
}

// Prints what a ticket drew, and how many numbers were drawn.
fn tell_draw<R: Print>(rt: &R, found: Option<u32>, count: u32) {
    let _ = println!(rt; "{found:?} {count}");
}

// Removes the last ticket.
fn pop_ticket(desk: &Desk, tickets: &mut Vec<Ticket>) -> Result<Ticket, Miss>
    requires { All (IsFreshTicketOf desk.now) tickets.old.items }
    ensures rest { All (IsFreshTicketOf desk.now) tickets.new.items }
    ensures ticket { IfOk result (λ t. IsTicketOf desk.now t × (told t ≡ 0)) }
{
    tickets.pop().ok_or(Miss::Wrong)
}

// Draws the next number for a ticket.
fn draw_number(desk: &Desk, ticket: &mut Ticket) -> Result<u32, Miss>
    requires { IsTicketOf desk.now ticket.old × (told ticket.old ≡ 0) }
    ensures { OnOk result (IsTicketOf desk.now ticket.new × (told ticket.new ≡ 0)) }
{
    desk.draw(ticket).ok_or(Miss::Wrong)
}

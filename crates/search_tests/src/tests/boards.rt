ghost use Rattle.std.specs.Prelude.{◌≡◌, ◌+◌};

use search_board::{Board, Closed, Seat, Spent};
use std::marker::Sync;
use std::test::Fail;
use std::thread::{Threads, join};

#[test]
fn gives_its_tickets_once_and_tells_the_greatest_offer(rt: HostRuntime) -> Result<(), Fail> {
    let (board, mut seat) = Board::new(rt.alloc(), 2)?;
    assert_eq!(rt; board.ticket(&mut seat), Ok(0));
    assert_eq!(rt; board.ticket(&mut seat), Ok(1));
    assert_eq!(rt; board.ticket(&mut seat), Err(Spent { number: 2 }));
    assert_eq!(rt; board.ticket(&mut seat), Err(Spent { number: 2 }));
    assert_eq!(rt; board.best(&mut seat), None);
    board.offer(&mut seat, 5);
    board.offer(&mut seat, 3);
    assert_eq!(rt; board.best(&mut seat), Some(5));
    let mut late = board.seat(&mut seat)?;
    assert_eq!(rt; board.ticket(&mut late), Err(Spent { number: 3 }));
    board.join(&mut seat, late);
    let closed = board.close(seat);
    assert_eq!(rt;
        closed,
        Closed {
            tickets: 2,
            best: Some(5)
        }
    );
    Ok(())
}

#[test]
fn hints_are_told_to_the_other_seat(rt: HostRuntime) -> Result<(), Fail> {
    let (board, mut seat) = Board::new(rt.alloc(), 0)?;
    let mut other = board.seat(&mut seat)?;
    board.say_busy(&mut seat, true);
    assert!(rt; board.busy(&mut other));
    board.say_busy(&mut seat, false);
    assert!(rt; !board.busy(&mut other));
    assert!(rt; !board.stopped(&mut other));
    board.stop(&mut seat);
    assert!(rt; board.stopped(&mut other));
    Ok(())
}

/// Draws as long as tickets are left.
fn drawn(board: &Board, mut seat: Seat) -> Seat
    requires { seat.board ≡ board.now }
    ensures board { result.board ≡ board.now }
    ensures stands { result.stands ≡ seat.stands }
    ensures may { result.may ≡ seat.may }
{
    for _ in 0..1001 {
        if board.ticket(&mut seat).is_err() {
            break;
        }
    }
    seat
}

/// Both draw, in two threads.
fn both_drawn(rt: &(impl Threads + Sync), board: &Board, a: Seat, b: Seat) -> Seat
    requires a { a.board ≡ board.now }
    requires b { b.board ≡ board.now }
    ensures board { result.board ≡ board.now }
    ensures stands { result.stands ≡ a.stands + b.stands }
    ensures may { result.may ≡ a.may + b.may }
{
    let (mut a, b) = join(rt, move || drawn(board, a), move || drawn(board, b));
    board.join(&mut a, b);
    a
}

#[test]
fn four_threads_draw_a_thousand_tickets(rt: HostRuntime) -> Result<(), Fail> {
    let (board, mut first) = Board::new(rt.alloc(), 1000)?;
    let second = board.seat(&mut first)?;
    let third = board.seat(&mut first)?;
    let fourth = board.seat(&mut first)?;
    let (mut two, more) = join(
        &rt,
        || both_drawn(&rt, &board, first, second),
        || both_drawn(&rt, &board, third, fourth),
    );
    board.join(&mut two, more);
    let closed = board.close(two);
    assert_eq!(rt;
        closed,
        Closed {
            tickets: 1000,
            best: None
        }
    );
    Ok(())
}

//! A turn, taken and given by hand.

ghost use Rattle.std.specs.Prelude.{◌≡◌, ◌+◌, false, true, replicate, IfSome};
ghost use Rattle.box_turn.specs.Seats.{new_seat};

use super::*;
use seuss_base::List;
use std::test::Fail;

/// A purse, which keeps its owner while it lies in a turn.
#[derive(Drop)]
struct Purse {
    owner: u32,
    coins: u64,
}

impl Kept for Purse {
    ghost use Rattle.std.specs.Prelude.{◌≡◌};

    type Names = u32;

    ghost any = { 0 };

    ghost keeps = { λ owner purse. purse.owner ≡ owner };
}

/// The two seats of a turn.
fn both(
    turn: &BoxTurn<Purse>,
    mut seats: List<TurnSeat<Purse>>,
) -> Option<(TurnSeat<Purse>, TurnSeat<Purse>)>
    requires { seats ≡ replicate 2 (new_seat turn.now.name 7) }
    ensures { IfSome result
        (λ made. (made.0 ≡ new_seat turn.now.name 7) × (made.1 ≡ new_seat turn.now.name 7)) }
{
    let second = seats.pop()?;
    let first = seats.pop()?;
    Some((first, second))
}

/// Whether the seat finds the turn taken. It then counts one miss more.
fn is_missed(turn: &BoxTurn<Purse>, seat: &mut TurnSeat<Purse>) -> bool
    requires turn { seat.old.turn ≡ turn.now.name }
    requires free { seat.old.holds ≡ false }
    ensures { result ≡ true → seat.new ≡ record seat.old { misses = seat.old.misses + 1 } }
{
    turn.try_take(seat).is_none()
}

/// The first seat takes the purse and puts coins in, while the second finds it taken. Then the second takes it,
/// and counts the coins.
fn coins_by_turns(
    turn: &BoxTurn<Purse>,
    first: &mut TurnSeat<Purse>,
    second: &mut TurnSeat<Purse>,
) -> Option<u64>
    requires turns { (first.old.turn ≡ turn.now.name) × (second.old.turn ≡ turn.now.name) }
    requires free { (first.old.holds ≡ false) × (second.old.holds ≡ false) }
    ensures first { IfSome result (λ _. first.new ≡ first.old) }
    ensures second { IfSome result
        (λ _. second.new ≡ record second.old { misses = second.old.misses + 1 }) }
{
    let mut purse = turn.try_take(first)?;
    let missed = is_missed(turn, second);
    purse.coins = 6;
    turn.give(first, purse);
    if !missed {
        return None;
    }
    let purse = turn.try_take(second)?;
    let coins = purse.coins;
    turn.give(second, purse);
    Some(coins)
}

#[test]
fn two_seats_take_turns(rt: HostRuntime) -> Result<(), Fail> {
    let purse = Purse { owner: 7, coins: 5 };
    let (turn, seats) = BoxTurn::new(rt.alloc(), purse, &7, 2)?;
    let (mut first, mut second) = both(&turn, seats).expect(&rt, "two seats");
    let coins = coins_by_turns(&turn, &mut first, &mut second).expect(&rt, "the purse by turns");
    let mut seats = List::new(rt.alloc());
    seats.push(second)?;
    seats.push(first)?;
    let purse = turn.close(seats);
    assert!(rt; coins == 6 && purse.coins == 6 && purse.owner == 7);
    Ok(())
}

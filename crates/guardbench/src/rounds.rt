//! Rounds of calls and questions, and sums of what they answer.

use crate::dice::{Dice, mixed};
use calls::refusal::Refusal;
use guard::guard::Guard;
use plan::Plan;
use point::Point;

/// What an answer counts in a sum: a refusal its number.
fn counted<T, F: FnOnce(T) -> u64>(answer: Result<T, Refusal>, worth: F) -> u64
    requires { F.IsAlwaysCallable worth }
{
    match answer {
        Ok(value) => worth(value),
        Err(refusal) => u64::from(refusal.number()),
    }
}

/// Opens a session of a badge and activates in it each role that the badge is entitled to; how many these are.
fn open<P: Plan>(guard: &mut Guard<P>, badge: u16, session: u16) -> u64 {
    let _ = guard.open(badge, session);
    (0..64u16)
        .filter(|role| guard.activate(badge, session, *role).is_ok())
        .count() as u64
}

/// Opens a session of each badge; how many roles are active then.
pub(crate) fn sign_in<P: Plan>(guard: &mut Guard<P>) -> u64 {
    (0..128u16).fold(0u64, |active, badge| {
        active.wrapping_add(open(guard, badge, badge % 4))
    })
}

/// A sum of which roles are enabled at a point, and which a badge may take.
fn enabled_at<P: Plan>(guard: &mut Guard<P>, at: Point) -> u64 {
    let heard = counted(guard.report(0, at), |()| 0);
    (0..64u16).fold(heard, |sum, role| {
        mixed(sum, u64::from(guard.enabled(0, role).unwrap_or(false)))
    })
}

/// A sum of what was sealed, seen at eight points.
pub(crate) fn enabled_all<P: Plan>(guard: &mut Guard<P>, side: u32) -> u64 {
    let quarter = side / 4;
    let active = open(guard, 0, 0);
    (0..8u32).fold(active, |sum, k| {
        let x = quarter.wrapping_mul(1 + 2 * (k % 2)) % 256;
        let y = quarter
            .wrapping_mul(1 + 2 * (k / 2 % 2))
            .wrapping_add((k / 4).wrapping_mul(quarter / 3))
            % 256;
        mixed(
            sum,
            enabled_at(
                guard,
                Point {
                    x: x as u16,
                    y: y as u16,
                },
            ),
        )
    })
}

/// A point of the middle half of one of two quarters.
fn amid(byte: u16) -> u16 {
    32 + byte % 64 + byte / 128 * 128
}

/// Hears a badge amid a quarter, and misses it once now and then; gives the badge.
fn hear<P: Plan>(guard: &mut Guard<P>, dice: &mut Dice) -> u16 {
    let badge = dice.byte() % 128;
    let x = amid(dice.byte());
    let y = amid(dice.byte());
    let _ = guard.report(badge, Point { x, y });
    if dice.byte() % 4 == 0 {
        let _ = guard.miss(badge);
    }
    badge
}

/// One report, now and then of a badge that there is not.
pub(crate) fn report<P: Plan>(guard: &mut Guard<P>, dice: &mut Dice) -> u64 {
    let badge = dice.byte() % 130;
    let x = dice.byte();
    let y = dice.byte();
    counted(guard.report(badge, Point { x, y }), |()| 0)
}

/// A badge is heard and asks for a right.
pub(crate) fn ask<P: Plan>(guard: &mut Guard<P>, dice: &mut Dice) -> u64 {
    let badge = hear(guard, dice);
    let operation = dice.byte() % 16;
    let object = dice.byte() % 32;
    counted(
        guard.ask(badge, badge % 4, operation, object),
        |role| 100u64.wrapping_add(role as u64),
    )
}

/// A badge is heard and its roles are asked for.
pub(crate) fn roles<P: Plan>(guard: &mut Guard<P>, dice: &mut Dice) -> u64 {
    let badge = hear(guard, dice);
    counted(guard.roles(badge, badge % 4), |roles| roles.word())
}

/// A sum of so many rounds of a kind.
// The guard and the dice are two parameters, since a round is handed over as a function of both.
pub(crate) fn sum_of<P: Plan, F: FnMut(&mut Guard<P>, &mut Dice) -> u64>(
    guard: &mut Guard<P>,
    count: u32,
    mut round: F,
) -> u64
    requires { F.IsAlwaysCallable round }
{
    let mut dice = Dice::new();
    let mut sum = 0u64;
    for _ in 0..count {
        sum = mixed(sum, round(guard, &mut dice));
    }
    sum
}

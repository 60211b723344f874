//! Random periods against a plain list of days, with covers computed on it day by day as they are
//! defined.
ghost use Rattle.std.specs.Prelude.{◌<◌};

use crate::periods::{Number, change_to, value_on};
use ssim_periods::{Memory, Periods};
use ssim_values::{Day, DayMask, Period};
use std::alloc::Global;

// First and last day within the list, weekdays and value.
type Plain = (usize, usize, [bool; 7], u32);

fn has(days: &[u32], day: usize, value: u32) -> bool {
    match days.get(day) {
        Some(on) => *on == value,
        None => false,
    }
}

fn weekday(base: u16, day: usize) -> usize
    ensures { result < 7 }
{
    day.wrapping_add(base as usize).wrapping_add(5) % 7
}

fn first_with(days: &[u32], value: u32, from: usize) -> usize {
    for day in from..days.len() {
        if has(days, day, value) {
            return day;
        }
    }
    days.len()
}

fn last_with(days: &[u32], value: u32, first: usize, after: usize) -> usize {
    let mut last = first;
    for day in first..after {
        if has(days, day, value) {
            last = day;
        }
    }
    last
}

fn weekdays_at(base: u16, days: &[u32], value: u32, first: usize) -> [bool; 7] {
    let mut mask = [false; 7];
    for ahead in 0..7 {
        let day = first.wrapping_add(ahead);
        mask[weekday(base, day)] = has(days, day, value);
    }
    mask
}

fn break_after(base: u16, days: &[u32], value: u32, first: usize, mask: &[bool; 7]) -> usize {
    for day in first..days.len() {
        if has(days, day, value) != mask[weekday(base, day)] {
            return day;
        }
    }
    days.len()
}

fn plain_pieces(alloc: Global, base: u16, days: &[u32]) -> Result<Vec<Plain>, Memory> {
    let mut pieces = Vec::new(alloc);
    for value in 1..4u32 {
        let mut from = 0;
        for _ in 0..days.len() {
            let first = first_with(days, value, from);
            if first < days.len() {
                let mask = weekdays_at(base, days, value, first);
                from = break_after(base, days, value, first, &mask);
                pieces.push((first, last_with(days, value, first, from), mask, value))?;
            } else {
                from = first;
            }
        }
    }
    pieces.sort_by_key(|piece| piece.0)?;
    Ok(pieces)
}

fn is_piece(period: &Period, value: u32, base: u16, plain: &Plain) -> bool {
    let (first, last, mask, expected) = *plain;
    let from = (period.first().number() as usize).wrapping_sub(base as usize);
    let to = (period.last().number() as usize).wrapping_sub(base as usize);
    from == first && to == last && period.mask().days() == mask && value == expected
}

fn same_pieces(alloc: Global, periods: &Periods<Number>, base: u16, days: &[u32]) -> bool {
    let Ok(plain) = plain_pieces(alloc, base, days) else {
        return false;
    };
    let Ok(pieces) = periods.pieces() else {
        return false;
    };
    pieces.len() == plain.len()
        && pieces.iter().zip(plain.iter()).all(|(piece, plain)| is_piece(
            &piece.0,
            piece.1.number,
            base,
            plain,
        ))
}

fn change_plain(
    base: u16,
    days: &mut [u32],
    first: usize,
    last: usize,
    mask: &[bool; 7],
    value: u32,
) -> u32 {
    let mut changed = 0u32;
    for (day, on) in days.iter_mut().enumerate() {
        if first <= day && day <= last && mask[weekday(base, day)] {
            *on = value;
            changed = changed.wrapping_add(1);
        }
    }
    changed
}

fn next(seed: &mut u32) -> u32 {
    *seed = seed.wrapping_mul(1664525).wrapping_add(1013904223);
    *seed >> 16
}

/// The days of operation that these seven bits say.
fn mask_of(bits: u32) -> [bool; 7] {
    [
        bits & 1 != 0,
        bits & 2 != 0,
        bits & 4 != 0,
        bits & 8 != 0,
        bits & 16 != 0,
        bits & 32 != 0,
        bits & 64 != 0,
    ]
}

fn period_of(first: u16, last: u16, mask: [bool; 7]) -> Option<Period> {
    let from = Day::from_number(first)?;
    let to = Day::from_number(last)?;
    Period::new(from, to, DayMask::of(mask)?).ok()
}

/// Changes a random period, in the list of days too. Whether it counts the same days.
fn change(periods: &mut Periods<Number>, days: &mut [u32], base: u16, seed: &mut u32) -> bool {
    let first = next(seed) % 64;
    let last = (first + next(seed) % 24).min(63);
    let mask = mask_of(next(seed) % 127 + 1);
    let value = next(seed) % 4;
    let changed = change_plain(base, days, first as usize, last as usize, &mask, value);
    let from = base.wrapping_add(first as u16);
    let to = base.wrapping_add(last as u16);
    match period_of(from, to, mask) {
        Some(period) => periods.apply(&period, &change_to(value, 0)) == Ok([changed, 0, 0, 0, 0]),
        None => false,
    }
}

fn same_values(periods: &Periods<Number>, base: u16, days: &[u32; 64]) -> bool {
    for (day, on) in days.iter().enumerate() {
        if value_on(periods, base.wrapping_add(day as u16)) != *on {
            return false;
        }
    }
    true
}

/// Whether a thousand random periods on 64 days from a day on agree with the list of days.
fn agree(alloc: Global, base: u16, mut seed: u32) -> bool {
    let mut days = [0u32; 64];
    let mut periods = Periods::new(alloc);
    for step in 0..1000 {
        if !change(&mut periods, &mut days, base, &mut seed)
            || !same_values(&periods, base, &days)
        {
            return false;
        }
        if step % 8 == 7 && !same_pieces(alloc, &periods, base, &days) {
            return false;
        }
    }
    true
}

#[test]
fn random_periods_against_a_list_of_days(rt: HostRuntime) {
    assert!(rt; agree(rt.alloc(), 0, 20260101));
    assert!(rt; agree(rt.alloc(), 36461, 98765));
}

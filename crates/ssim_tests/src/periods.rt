ghost use Rattle.std.specs.Prelude.{◌≡◌, ℕ, ◌%◌, nat_eq};
ghost use Rattle.std.specs.Cmp.{nat_cmp_total, unsigned_ties};
ghost use Rattle.std.specs.Ordering.{nat_cmp};
ghost use Rattle.std.proofs.Common.{eqb-true, eq-eqb};

use ssim_periods::{Change, Memory, Periods, Value};
use ssim_values::{Day, DayMask, Fault, Period};
use std::alloc::Global;
use std::cell::Cell;
use std::cmp::Ordering;
use std::marker::Model;

// A number as a value: 0 is empty, and 9 refuses to be copied.
#[derive(Drop)]
pub(crate) struct Number {
    pub(crate) number: u32,
}

impl Model for Number {
    ghost use Rattle.std.specs.Prelude.{ℕ};

    ghost Value = { ℕ };

    ghost view = { λ n. n.number };
}

impl Value for Number {
    ghost nothing = { 0 };

    ghost alike = { nat_eq };

    ghost compared = { nat_cmp };

    fn empty() -> Self {
        Number { number: 0 }
    }

    fn is_empty(&self) -> bool {
        self.number == 0
    }

    fn same(&self, other: &Self) -> bool {
        self.number == other.number
    }

    fn order(&self, other: &Self) -> Ordering {
        self.number.cmp(&other.number)
    }

    fn copy(&self, _alloc: Global) -> Result<Self, Memory> {
        if self.number == 9 {
            Err(Memory)
        } else {
            Ok(Number {
                number: self.number,
            })
        }
    }

    ghost exact = { λ x y. (eqb-true x y, eq-eqb x y) };

    ghost total = { nat_cmp_total };

    ghost told_apart = { unsigned_ties };
}

// Every value becomes one, and is of one class. Counts its calls.
#[derive(Drop)]
pub(crate) struct Becomes {
    value: u32,
    class: u8,
    calls: Cell<u32>,
}

impl Change<Number> for Becomes {
    ghost outcome = { λ c _. c.value };

    ghost class_of = { λ c _. c.class % 5 };

    fn after(&self, _alloc: Global, _old: &Number) -> Result<Number, Memory> {
        self.calls.set(self.calls.get().wrapping_add(1));
        Ok(Number { number: self.value })
    }

    fn class(&self, _old: &Number) -> u8 {
        self.class % 5
    }
}

pub(crate) fn change_to(value: u32, class: u8) -> Becomes {
    Becomes {
        value,
        class,
        calls: Cell::new(0),
    }
}

fn period(first: &[u8; 7], last: &[u8; 7], days: &[u8]) -> Result<Period, Fault> {
    Period::new(Day::parse(first)?, Day::parse(last)?, DayMask::parse(days)?)
}

/// What a change of a period counts. None if memory ran out.
fn counts(
    periods: &mut Periods<Number>,
    first: &[u8; 7],
    last: &[u8; 7],
    days: &[u8],
    change: &Becomes,
) -> Option<[u32; 5]> {
    match period(first, last, days) {
        Ok(changed) => periods.apply(&changed, change).ok(),
        Err(_) => None,
    }
}

pub(crate) fn value_on(periods: &Periods<Number>, number: u16) -> u32 {
    match Day::from_number(number) {
        Some(day) => periods.at(day).number,
        None => 99,
    }
}

/// Whether the only piece is the first of July 2025, a Tuesday, with the value 7.
fn has_one_day(periods: &Periods<Number>) -> bool {
    let Ok(pieces) = periods.pieces() else {
        return false;
    };
    match pieces.as_slice() {
        [(period, value)] => {
            period.first().write() == *b"01JUL25"
                && period.last().write() == *b"01JUL25"
                && period.mask().write() == *b" 2     "
                && value.number == 7
        }
        _ => false,
    }
}

/// Whether the copies of periods have one day too, the one whose equal values may be made copies of
/// one as well.
fn copies_have_one_day(periods: &Periods<Number>) -> bool {
    match (periods.copy(), periods.shared()) {
        (Ok(copy), Ok(shared)) => has_one_day(&copy) && has_one_day(&shared),
        _ => false,
    }
}

#[test]
fn periods_over_numbers(rt: HostRuntime) {
    let mut periods = Periods::new(rt.alloc());
    let counted = counts(&mut periods, b"01JUL25", b"07JUL25", b"2", &change_to(7, 0));
    assert_eq!(rt; counted, Some([1, 0, 0, 0, 0]));
    assert_eq!(rt; value_on(&periods, 9313), 7);
    assert_eq!(rt; value_on(&periods, 9314), 0);
    assert_eq!(rt; periods.cuts(), [9313, 9320].as_slice());
    assert!(rt; has_one_day(&periods));
    assert!(rt; copies_have_one_day(&periods));
}

/// The value of a day after 9 from 1 January to 14 January 2025, and 7 on the Tuesdays of July.
fn value_of_two_periods(number: u16) -> u32 {
    if number >= 9132 && number <= 9145 {
        9
    } else if number >= 9313 && number <= 9343 && number % 7 == 3 {
        7
    } else {
        0
    }
}

fn has_two_periods(periods: &Periods<Number>) -> bool {
    for number in 9100..9400 {
        if value_on(periods, number) != value_of_two_periods(number) {
            return false;
        }
    }
    true
}

#[test]
fn copy_that_refuses(rt: HostRuntime) {
    let mut periods = Periods::new(rt.alloc());
    let january = counts(
        &mut periods,
        b"01JAN25",
        b"14JAN25",
        b"1234567",
        &change_to(9, 0),
    );
    assert_eq!(rt; january, Some([14, 0, 0, 0, 0]));
    let july = counts(&mut periods, b"01JUL25", b"31JUL25", b"2", &change_to(7, 0));
    assert_eq!(rt; july, Some([5, 0, 0, 0, 0]));
    // the days before and after would be copies
    let divided = counts(&mut periods, b"03JAN25", b"05JAN25", b"5", &change_to(8, 0));
    assert_eq!(rt; divided, None);
    assert_eq!(rt; periods.cuts(), [9132, 9146, 9313, 9344].as_slice());
    assert!(rt; has_two_periods(&periods));
    // only the Tuesdays of July change, so no other value is copied
    let tuesdays = counts(&mut periods, b"01JUL25", b"31JUL25", b"2", &change_to(8, 0));
    assert_eq!(rt; tuesdays, Some([5, 0, 0, 0, 0]));
    assert_eq!(rt; value_on(&periods, 9313), 8);
    assert_eq!(rt; value_on(&periods, 9132), 9);
}

// A list of days would ask the change for each of 36,525.
#[test]
fn day_list_beside_cuts(rt: HostRuntime) {
    let mut periods = Periods::new(rt.alloc());
    let change = change_to(7, 4);
    let counted = counts(&mut periods, b"01JAN00", b"31DEC99", b"1234567", &change);
    assert_eq!(rt; counted, Some([0, 0, 0, 0, 36_525]));
    assert!(rt; change.calls.get() <= 21);
    assert_eq!(rt; periods.cuts(), [0, 36_525].as_slice());
}

//! Small numbers in place of values: values are compared only to number them, and from then on the
//! numbers are compared.
ghost use Rattle.std.specs.Prelude.{◌≡◌, ◌≢◌, ℕ, [], ◌∷◌, Some, map, nat_eq, IsTrue, IfOk, OnOk};
ghost use Rattle.std.specs.Cmp.{nat_cmp_total, unsigned_ties};
ghost use Rattle.std.specs.List.{flat_map};
ghost use Rattle.std.specs.Ordering.{nat_cmp};
ghost use Rattle.std.proofs.Common.{eqb-true, eq-eqb};
ghost use Rattle.ssim_periods.specs.Days.{each_day};
ghost use Rattle.ssim_periods.specs.internal.Gather.{gathered, numbered};
ghost use Rattle.ssim_periods.specs.internal.Rows.{value_on, AreRows};

use crate::Value;
use crate::distinct_values::DistinctValues;
use crate::range_rows::RangeRows;
use ssim_values::Memory;
use std::alloc::Global;
use std::cmp::Ordering;
use std::marker::Model;

/// 0 for the empty value, else the index of a value among distinct ones, counted from 1.
#[derive(Clone, Copy)]
pub(crate) struct ValueNumber {
    pub(crate) number: usize,
}

impl Model for ValueNumber {
    ghost use Rattle.std.specs.Prelude.{ℕ};

    ghost Value = { ℕ };

    ghost view = { λ n. n.number };

    ghost inverse = { λ n. record { number = n } };
}

impl Value for ValueNumber {
    ghost nothing = { 0 };

    ghost alike = { nat_eq };

    ghost compared = { nat_cmp };

    fn empty() -> Self {
        ValueNumber { number: 0 }
    }

    fn is_empty(&self) -> bool {
        self.number == 0
    }

    fn same(&self, other: &Self) -> bool {
        self.number == other.number
    }

    fn order(&self, other: &Self) -> Ordering {
        self.number.cmp(&other.number)
    }

    fn copy(&self, _alloc: Global) -> Result<Self, Memory> {
        Ok(*self)
    }

    ghost exact = { λ x y. (eqb-true x y, eq-eqb x y) };

    ghost total = { nat_cmp_total };

    ghost told_apart = { unsigned_ties };
}

/// The number of the empty value.
pub(crate) const NONE: ValueNumber = ValueNumber { number: 0 };

// Whether a number refers to a value that is not empty.
fn is_number_of<V: Value>(values: &[&V], number: ValueNumber, value: &V) -> bool
    ensures { IsTrue result → numbered V.nothing (map (λ other. other.now) values.now) number
        ≡ Some value.now }
{
    let number = number.number;
    if number == 0 || values.len() < number {
        false
    } else {
        value.same(values[number - 1])
    }
}

// The number of a value, which joins the others if it is not empty and not yet there. Two likely
// numbers are tried first, so that most values are compared with one other.
fn number_of<'a, V: Value>(
    values: &mut DistinctValues<'a, V>,
    value: &'a V,
    above: ValueNumber,
    beside: ValueNumber,
) -> Result<ValueNumber, Memory>
    ensures values { OnOk result (values.new
        ≡ gathered V.alike V.nothing values.old (value.now ∷ [])) }
    ensures number { IfOk result (λ number. numbered V.nothing values.new number ≡ Some value.now) }
{
    if value.is_empty() {
        return Ok(NONE);
    }
    if is_number_of(values.values(), above, value) {
        return Ok(above);
    }
    if is_number_of(values.values(), beside, value) {
        return Ok(beside);
    }
    number_among(values, value)
}

// The number of a value that is not empty. It joins the others if it is not yet there.
fn number_among<'a, V: Value>(
    values: &mut DistinctValues<'a, V>,
    value: &'a V,
) -> Result<ValueNumber, Memory>
    requires { value.now ≢ V.nothing }
    ensures values { OnOk result (values.new
        ≡ gathered V.alike V.nothing values.old (value.now ∷ [])) }
    ensures number { IfOk result (λ number. numbered V.nothing values.new number ≡ Some value.now) }
{
    if let Some(index) = values.index_of(value) {
        return Ok(ValueNumber { number: index + 1 });
    }
    values.add(value)?;
    Ok(ValueNumber {
        number: values.values().len(),
    })
}

// The numbers of a row's values, tried first with those of the row before and of the weekday
// before.
fn number_row<'a, V: Value>(
    values: &mut DistinctValues<'a, V>,
    row: &'a [V; 7],
    above: &[ValueNumber; 7],
) -> Result<[ValueNumber; 7], Memory>
    ensures values { OnOk result (values.new
        ≡ gathered V.alike V.nothing values.old row.now) }
    ensures numbers { IfOk result (λ numbers.
        map (numbered V.nothing values.new) numbers ≡ map Some row.now) }
{
    let mut numbers = [NONE; 7];
    let mut beside = NONE;
    for weekday in 0..7 {
        beside = number_of(values, &row[weekday], above[weekday], beside)?;
        numbers[weekday] = beside;
    }
    Ok(numbers)
}

// The numbers of the values of rows, of which the first is tried with those of the row before.
fn number_rows<'a, V: Value>(
    alloc: Global,
    values: &mut DistinctValues<'a, V>,
    before: &[ValueNumber; 7],
    rows: &'a [[V; 7]],
) -> Result<Vec<[ValueNumber; 7]>, Memory>
    ensures values { OnOk result (values.new
        ≡ gathered V.alike V.nothing values.old (flat_map (λ row. row) rows.now)) }
    ensures numbers { IfOk result (λ numbers.
        map (map (numbered V.nothing values.new)) numbers.items ≡ map (map Some) rows.now) }
{
    let mut numbers = Vec::new(alloc);
    numbers.reserve(rows.len())?;
    let mut above = *before;
    for row in rows {
        above = number_row(values, row, &above)?;
        numbers.push(above)?;
    }
    Ok(numbers)
}

/// The distinct values of rows other than the empty one, and each day's number among them.
pub(crate) fn numbered_days<'a, V: Value>(
    alloc: Global,
    before: &'a [V; 7],
    cuts: &[u32],
    rows: &'a [[V; 7]],
) -> Result<(DistinctValues<'a, V>, RangeRows<ValueNumber>), Memory>
    requires { AreRows before.now cuts.now rows.now }
    ensures values { IfOk result (λ found. found.0
        ≡ gathered V.alike V.nothing [] (flat_map (λ row. row) (before.now ∷ rows.now))) }
    ensures days { IfOk result (λ found. map (numbered V.nothing found.0) found.1.days
        ≡ map Some (each_day (value_on V.nothing before.now cuts.now rows.now))) }
{
    let mut values = DistinctValues::new(alloc);
    let first = number_row(&mut values, before, &[NONE; 7])?;
    let later = number_rows(alloc, &mut values, &first, rows)?;
    let cuts = Vec::from_slice(alloc, cuts)?;
    let days = RangeRows {
        before: first,
        cuts,
        rows: later,
        alloc,
    };
    Ok((values, days))
}

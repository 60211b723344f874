//! The picture of a calendar: a column for each week, a row for each weekday.

ghost use Rattle.std.specs.Prelude.{◌≡◌, ◌≤◌, ◌<◌, ◌+◌, ◌-◌, ◌*◌, ◌/◌, ◌++◌, length, min, OnOk};
ghost use Rattle.ssim_calendar.specs.Picture.{begins_month, begins_within, block, blocks};
ghost use Rattle.ssim_calendar.specs.Picture.{digit_above, digits_line, first_date};
ghost use Rattle.ssim_calendar.specs.Picture.{is_beside_name, is_named, last_date, mark};
ghost use Rattle.ssim_calendar.specs.Picture.{months_line, name_above, picture, row_line};
ghost use Rattle.ssim_calendar.specs.Picture.{title_line, trimmed_line, weeks};

use crate::week::{text_above, text_of};
use ssim_lines::{PrintedAt, push_range};
use ssim_text::without_end;
use ssim_values::Memory;
use std::alloc::Global;

/// The most weeks of a block.
const WEEKS: usize = 53;

/// Cells, and the first and the last day that has a letter.
#[derive(Clone, Copy)]
struct CellRange<'a> {
    cells: &'a [u8],
    first: usize,
    last: usize,
    ghost few: { length cells.now ≤ 36525 },
    ghost first_small: { first < 36525 },
    ghost last_within: { last < length cells.now },
}

/// The weeks from one up to another, which is not among them.
#[derive(Clone, Copy)]
struct WeekRange {
    from: usize,
    end: usize,
    ghost some: { from < end },
    ghost small: { end < 5220 },
}

/// The blocks of the weeks from one up to another.
#[derive(Clone, Copy)]
struct Blocks<'a, 'b> {
    alloc: Global,
    title: &'a [u8],
    dates: CellRange<'b>,
    from: usize,
    end: usize,
    ghost small: { end < 5220 },
}

/// A digit of the day above each week.
#[derive(Clone, Copy)]
struct Digits {
    place: usize,
    ghost within: { place < 7 },
}

/// The rows of a block, from Monday on.
#[derive(Clone, Copy)]
struct WeekdayRows<'a> {
    alloc: Global,
    dates: CellRange<'a>,
    weeks: WeekRange,
}

/// The cells of a weekday; a blank before the first date and after the last.
#[derive(Clone, Copy)]
struct WeekdayCells<'a> {
    dates: CellRange<'a>,
    weekday: usize,
    ghost within: { weekday < 7 },
}

/// Adds the picture of cells, each of which is a letter, or a full stop for a day without one. Each
/// block begins with the title and its first and last day. Nothing is added if no day has a letter.
pub fn push_picture(
    alloc: Global,
    lines: &mut Vec<u8>,
    title: &[u8],
    cells: &[u8],
) -> Result<(), Memory>
    requires { length cells.now ≤ 36525 }
    ensures { OnOk result (lines.new.items ≡ lines.old.items ++ picture title.now cells.now) }
{
    let first = first_date(cells);
    if first == cells.len() {
        return Ok(());
    }
    let last = last_date(cells);
    let dates = CellRange { cells, first, last };
    let blocks = Blocks {
        alloc,
        title,
        dates,
        from: (first + 5) / 7,
        end: (last + 5) / 7 + 1,
    };
    push_range(
        lines,
        &blocks,
        0,
        (blocks.end.saturating_sub(blocks.from) + 52) / WEEKS,
    )
}

// The first day that has a letter; the number of days if there is none.
fn first_date(cells: &[u8]) -> usize
    ensures value { result ≡ first_date cells.now }
    ensures within { result ≤ length cells.now }
{
    let first = cells.iter().position(|cell| *cell != b'.');
    first.unwrap_or(cells.len())
}

// The last day that has a letter.
fn last_date(cells: &[u8]) -> usize
    ensures value { result ≡ last_date cells.now }
    ensures within { 0 < length cells.now → result < length cells.now }
{
    let mut day = cells.len();
    while day > 0 {
        day -= 1;
        if cells[day] != b'.' {
            return day;
        }
    }
    0
}

impl PrintedAt for Blocks<'_, '_> {
    ghost has = { λ blocks number. number < (blocks.end - blocks.from + 52) / 53 };

    ghost text = { λ blocks number. block blocks.title.now
        blocks.dates.cells.now blocks.dates.first blocks.dates.last (blocks.from + 53 * number)
        (min blocks.end (blocks.from + 53 * number + 53)) };

    fn print_at(&self, number: usize, lines: &mut Vec<u8>) -> Result<(), Memory> {
        let from = self.from + WEEKS * number;
        let end = self.end.min(from + WEEKS);
        push_block(
            self.alloc,
            lines,
            self.title,
            self.dates,
            WeekRange { from, end },
        )
    }
}

// Adds a block.
fn push_block(
    alloc: Global,
    lines: &mut Vec<u8>,
    title: &[u8],
    dates: CellRange<'_>,
    weeks: WeekRange,
) -> Result<(), Memory>
    ensures { OnOk result (lines.new.items ≡ lines.old.items ++ block title.now
        dates.entry.cells.now dates.entry.first dates.entry.last weeks.from weeks.end) }
{
    push_title(lines, title, dates, weeks)?;
    push_months(alloc, lines, weeks)?;
    push_digits(lines, weeks, 0)?;
    push_digits(lines, weeks, 1)?;
    let rows = WeekdayRows {
        alloc,
        dates,
        weeks,
    };
    push_range(lines, &rows, 0, 7)?;
    lines.push(b'\n')?;
    Ok(())
}

// Adds the title, and the first and the last day of a block.
fn push_title(
    lines: &mut Vec<u8>,
    title: &[u8],
    dates: CellRange<'_>,
    weeks: WeekRange,
) -> Result<(), Memory>
    ensures { OnOk result (lines.new.items ≡ lines.old.items
        ++ title_line title.now dates.entry.first dates.entry.last weeks.from weeks.end) }
{
    lines.extend_from_slice(title)?;
    lines.push(b' ')?;
    let monday = (7 * weeks.from).saturating_sub(5);
    lines.extend_from_slice(&text_of(dates.first.max(monday)))?;
    lines.push(b' ')?;
    let sunday = 7 * weeks.end - 6;
    lines.extend_from_slice(&text_of(dates.last.min(sunday)))?;
    lines.push(b'\n')?;
    Ok(())
}

// Adds the names of the months above a block.
fn push_months(alloc: Global, lines: &mut Vec<u8>, weeks: WeekRange) -> Result<(), Memory>
    ensures { OnOk result
        (lines.new.items ≡ lines.old.items ++ months_line weeks.from weeks.end) }
{
    let mut row = Vec::from_slice(alloc, b"  ")?;
    push_range(&mut row, &weeks, weeks.from, weeks.end)?;
    push_trimmed(lines, &row)
}

impl PrintedAt for WeekRange {
    ghost has = { λ weeks week. (weeks.from ≤ week) × (week < weeks.end) };

    ghost text = { λ weeks week. name_above weeks.from weeks.end week };

    // Adds what is above a week: the name of its month, nothing beside a name, or a blank.
    fn print_at(&self, week: usize, lines: &mut Vec<u8>) -> Result<(), Memory> {
        if is_named(*self, week) {
            lines.extend_from_slice(&text_above(week)[2..5])?;
        } else if !is_beside_name(*self, week) {
            lines.push(b' ')?;
        }
        Ok(())
    }
}

// Whether the name of the month is above the week.
fn is_named(weeks: WeekRange, week: usize) -> bool
    requires from { weeks.from ≤ week }
    requires to { week < weeks.end }
    ensures { result ≡ is_named weeks.from weeks.end week }
{
    begins_month(weeks.from, week)
        && !(begins_within(weeks, week + 1)
            || begins_within(weeks, week + 2)
            || begins_within(weeks, week + 3))
}

// Whether the name of a month, which begins above an earlier week, is also above this one.
fn is_beside_name(weeks: WeekRange, week: usize) -> bool
    requires from { weeks.from ≤ week }
    requires to { week < weeks.end }
    ensures { result ≡ is_beside_name weeks.from weeks.end week }
{
    (weeks.from < week && is_named(weeks, week - 1))
        || (weeks.from + 1 < week && is_named(weeks, week - 2))
}

// Whether the week is one of the block, and begins a month.
fn begins_within(weeks: WeekRange, week: usize) -> bool
    requires { weeks.from ≤ week }
    ensures { result ≡ begins_within weeks.from weeks.end week }
{
    week < weeks.end && begins_month(weeks.from, week)
}

// Whether the week is the first of the block, or has another month than the week before.
fn begins_month(from: usize, week: usize) -> bool
    requires from { from ≤ week }
    requires small { week < 5219 }
    ensures { result ≡ begins_month from week }
{
    week == from || text_above(week)[2..5] != text_above(week - 1)[2..5]
}

// Adds a digit of the day above each week.
fn push_digits(lines: &mut Vec<u8>, weeks: WeekRange, place: usize) -> Result<(), Memory>
    requires { place < 7 }
    ensures { OnOk result
        (lines.new.items ≡ lines.old.items ++ digits_line weeks.from weeks.end place) }
{
    lines.extend_from_slice(b"  ")?;
    push_range(lines, &Digits { place }, weeks.from, weeks.end)?;
    lines.push(b'\n')?;
    Ok(())
}

impl PrintedAt for Digits {
    ghost has = { λ digits week. week < 5219 };

    ghost text = { λ digits week. digit_above digits.place week };

    fn print_at(&self, week: usize, lines: &mut Vec<u8>) -> Result<(), Memory> {
        lines.push(text_above(week)[self.place])?;
        Ok(())
    }
}

impl PrintedAt for WeekdayRows<'_> {
    ghost has = { λ rows weekday. weekday < 7 };

    ghost text = { λ rows weekday. row_line rows.dates.cells.now
        rows.dates.first rows.dates.last rows.weeks.from rows.weeks.end weekday };

    fn print_at(&self, weekday: usize, lines: &mut Vec<u8>) -> Result<(), Memory> {
        let mut row = Vec::new(self.alloc);
        row.push(b'1' + weekday as u8)?;
        row.push(b' ')?;
        let marks = WeekdayCells {
            dates: self.dates,
            weekday,
        };
        push_range(&mut row, &marks, self.weeks.from, self.weeks.end)?;
        push_trimmed(lines, &row)
    }
}

impl PrintedAt for WeekdayCells<'_> {
    ghost has = { λ marks week. week < 5220 };

    ghost text = { λ marks week. mark marks.dates.cells.now
        marks.dates.first marks.dates.last marks.weekday week };

    fn print_at(&self, week: usize, lines: &mut Vec<u8>) -> Result<(), Memory> {
        let day = 7 * week + self.weekday;
        if self.dates.first + 5 <= day && day <= self.dates.last + 5 {
            lines.push(self.dates.cells[day - 5])?;
        } else {
            lines.push(b' ')?;
        }
        Ok(())
    }
}

// Adds a line without the blanks at its end.
fn push_trimmed(lines: &mut Vec<u8>, row: &[u8]) -> Result<(), Memory>
    ensures { OnOk result (lines.new.items ≡ lines.old.items ++ trimmed_line row.now) }
{
    lines.extend_from_slice(without_end(row))?;
    lines.push(b'\n')?;
    Ok(())
}

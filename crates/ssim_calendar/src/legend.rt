//! The legend of a calendar: the number of dates and the texts of each letter.

ghost use Rattle.std.specs.Prelude.{◌≡◌, ◌++◌, ◌<◌, length, map, replicate, slice_index_or};
ghost use Rattle.std.specs.Prelude.{[], IfOk, OnOk};
ghost use Rattle.std.specs.Fmt.{decimal};
ghost use Rattle.std.specs.List.{flat_map, range_with_len};
ghost use Rattle.ssim_calendar.specs.Legend.{aligned, dates_of, entry_lines, head_of, larger};
ghost use Rattle.ssim_calendar.specs.Legend.{legend, more_line, most_dates, text_after};
ghost use Rattle.ssim_calendar.specs.clauses.Legend.{texts_of};

use crate::letters::letter_at;
use ssim_lines::{PrintedAt, push_blanks, push_range, written};
use ssim_values::Memory;
use std::alloc::Global;
use std::io::Write;

/// The texts of each letter, and the width of their numbers of dates.
#[derive(Clone, Copy)]
struct Legend<'a, 'b> {
    alloc: Global,
    entries: &'a [Vec<Vec<u8>>],
    cells: &'b [u8],
    width: usize,
}

/// Adds the legend of cells: for each letter the number of its dates, aligned right, and its texts,
/// the second and later ones in lines of their own; then the number of dates of #, if there are
/// any.
pub fn push_legend(
    alloc: Global,
    lines: &mut Vec<u8>,
    entries: &[Vec<Vec<u8>>],
    cells: &[u8],
) -> Result<(), Memory>
    ensures { OnOk result (lines.new.items ≡ lines.old.items
        ++ legend (map (λ texts. texts_of texts.items) entries.now) cells.now) }
{
    let width = decimal_of(alloc, most_dates(cells, entries.len()))?.len();
    let legend = Legend {
        alloc,
        entries,
        cells,
        width,
    };
    push_range(lines, &legend, 0, entries.len())?;
    push_more(lines, dates_of(cells, b'#'))
}

impl PrintedAt for Legend<'_, '_> {
    ghost has = { λ legend place. place < length legend.entries.now };

    ghost text = { λ legend place. entry_lines (head_of legend.cells.now legend.width place)
        (slice_index_or (map (λ texts. texts_of texts.items) legend.entries.now) place []) };

    fn print_at(&self, place: usize, lines: &mut Vec<u8>) -> Result<(), Memory> {
        let head = head_of(self.alloc, self.cells, self.width, place)?;
        push_entry(self.alloc, lines, &head, &self.entries[place])
    }
}

// Adds the texts of a letter: the first after its head, the others below it.
fn push_entry(
    alloc: Global,
    lines: &mut Vec<u8>,
    head: &[u8],
    texts: &[Vec<u8>],
) -> Result<(), Memory>
    ensures { OnOk result
        (lines.new.items ≡ lines.old.items ++ entry_lines head.now (texts_of texts.now)) }
{
    match texts.split_first() {
        None => Ok(()),
        Some((text, later)) => {
            push_text_after(lines, head, text)?;
            let mut blanks = Vec::new(alloc);
            push_blanks(&mut blanks, head.len())?;
            push_later(lines, &blanks, later)
        }
    }
}

// Adds a line for each text.
fn push_later(lines: &mut Vec<u8>, head: &[u8], texts: &[Vec<u8>]) -> Result<(), Memory>
    ensures { OnOk result (lines.new.items
        ≡ lines.old.items ++ flat_map (text_after head.now) (texts_of texts.now)) }
{
    for text in texts {
        push_text_after(lines, head, text)?;
    }
    Ok(())
}

// Adds a line of bytes, a blank and a text.
fn push_text_after(lines: &mut Vec<u8>, head: &[u8], text: &[u8]) -> Result<(), Memory>
    ensures { OnOk result (lines.new.items ≡ lines.old.items ++ text_after head.now text.now) }
{
    lines.extend_from_slice(head)?;
    lines.push(b' ')?;
    lines.extend_from_slice(text)?;
    lines.push(b'\n')?;
    Ok(())
}

// A letter and its number of dates.
fn head_of(alloc: Global, cells: &[u8], width: usize, place: usize) -> Result<Vec<u8>, Memory>
    ensures { IfOk result (λ head. head.items ≡ head_of cells.now width place) }
{
    let letter = letter_at(place);
    let mut head = Vec::new(alloc);
    head.push(letter)?;
    head.push(b' ')?;
    push_aligned(alloc, &mut head, width, dates_of(cells, letter))?;
    Ok(head)
}

// Adds a number, with blanks before it up to a width.
fn push_aligned(
    alloc: Global,
    head: &mut Vec<u8>,
    width: usize,
    number: usize,
) -> Result<(), Memory>
    ensures { OnOk result (head.new.items ≡ head.old.items ++ aligned width number) }
{
    let digits = decimal_of(alloc, number)?;
    push_blanks(head, width.saturating_sub(digits.len()))?;
    head.extend_from_slice(&digits)?;
    Ok(())
}

fn decimal_of(alloc: Global, number: usize) -> Result<Vec<u8>, Memory>
    ensures { IfOk result (λ text. text.items ≡ decimal number) }
{
    let mut text = Vec::new(alloc);
    written(write!(text, "{number}"))?;
    Ok(text)
}

// The largest number of dates of the first letters.
fn most_dates(cells: &[u8], count: usize) -> usize
    ensures { result ≡ most_dates cells.now count }
{
    let mut most = 0;
    for place in 0..count {
        most = larger(most, dates_of(cells, letter_at(place)));
    }
    most
}

fn larger(number: usize, other: usize) -> usize
    ensures { result ≡ larger number other }
{
    if number < other { other } else { number }
}

// The number of dates with a letter.
fn dates_of(cells: &[u8], letter: u8) -> usize
    ensures { result ≡ dates_of cells.now letter }
{
    cells.iter().filter(|cell| **cell == letter).count()
}

// Adds the line of the dates that have no letter of their own, if there is one.
fn push_more(lines: &mut Vec<u8>, dates: usize) -> Result<(), Memory>
    ensures { OnOk result (lines.new.items ≡ lines.old.items ++ more_line dates) }
{
    if dates == 0 {
        return Ok(());
    }
    written(writeln!(lines, "# {dates} more"))
}

//! What the page shows of a leg.

ghost use Rattle.std.specs.Prelude.{◌≡◌, ◌++◌, ℕ, List, IfOk, IsTrue, OnOk, map};
ghost use Rattle.ssim_records.specs.clauses.Leg.{is_own};
ghost use Rattle.ssim_base.specs.Timetable.{Legs};
ghost use Rattle.ssim_listing.specs.LegText.{leg_text};
ghost use Rattle.ssim_listing.specs.clauses.Groups.{group_in, group_of};
ghost use Rattle.ssim_page.specs.Flight.{all_legs};
ghost use Rattle.ssim_page.specs.LegRow.{leg_row, shown_line, word, word_byte, word_of, words};

use crate::html::{Html, push_escaped};
use ssim_lines::{Printed, push_each};
use ssim_listing::{LegGroups, add_leg, push_leg_text};
use ssim_records::leg_fields::{
    ARRIVAL_TERMINAL, BOOKING_DESIGNATORS, CONFIGURATION, DEPARTURE_TERMINAL,
};
use ssim_records::{Field, LegColumns};
use ssim_schedule::{Itinerary, PlacedLeg};
use ssim_text::without_end;
use ssim_values::Memory;
use std::alloc::Global;
use std::collections::BTreeMap;

/// How many bytes the line of a leg has that `show` prints.
const LINE: usize = 51;

/// How many bytes the row of a leg has at most, unless some of its bytes are escaped.
const ROW: usize = 99;

/// Bytes as one word.
#[derive(Clone, Copy)]
struct LegWord;

/// The groups of the legs of itineraries by their rows.
pub(crate) fn row_groups<'a>(
    alloc: Global,
    itineraries: &[&'a Itinerary],
) -> Result<LegGroups<'a>, Memory>
    ensures { IfOk result (λ groups. (row : List ℕ) → group_in groups row
        ≡ group_of leg_row (all_legs (map (λ legs. legs.now) itineraries.now)) row) }
{
    let mut groups = BTreeMap::new(alloc);
    for itinerary in itineraries {
        add_legs(alloc, &mut groups, itinerary.legs())?;
    }
    Ok(groups)
}

// Adds legs to the groups of those before.
fn add_legs<'a>(
    alloc: Global,
    groups: &mut LegGroups<'a>,
    legs: &'a [PlacedLeg],
) -> Result<(), Memory>
    ensures { OnOk result ((before : Legs)
        → ((row : List ℕ) → group_in groups.old row ≡ group_of leg_row before row)
        → (row : List ℕ) → group_in groups.new row ≡ group_of leg_row (before ++ legs.now) row) }
{
    for leg in legs {
        let row = row_of(alloc, leg)?;
        add_leg(groups, row, leg)?;
    }
    Ok(())
}

// The row of a leg.
fn row_of(alloc: Global, leg: &PlacedLeg) -> Result<Vec<u8>, Memory>
    ensures { IfOk result (λ row. row.items ≡ leg_row leg.now) }
{
    let mut row = Vec::with_capacity(alloc, ROW)?;
    push_row(alloc, &mut row, leg)?;
    Ok(row)
}

/// Adds the row of a leg.
#[tactic(auto, unfolding(crate::specs::LegRow::leg_row))]
pub(crate) fn push_row(alloc: Global, lines: &mut Vec<u8>, leg: &PlacedLeg) -> Result<(), Memory>
    ensures { OnOk result (lines.new.items ≡ lines.old.items ++ leg_row leg.now) }
{
    push_shown_line(alloc, lines, leg)?;
    push_words(lines, &leg.columns())
}

// Adds the line of a leg that `show` prints.
#[tactic(auto, unfolding(crate::specs::LegRow::shown_line))]
fn push_shown_line(alloc: Global, row: &mut Vec<u8>, leg: &PlacedLeg) -> Result<(), Memory>
    ensures { OnOk result (row.new.items ≡ row.old.items ++ shown_line leg.now) }
{
    let line = line_of(alloc, leg)?;
    push_escaped(row, &line)
}

// The line of a leg that `show` prints, before it is escaped.
fn line_of(alloc: Global, leg: &PlacedLeg) -> Result<Vec<u8>, Memory>
    ensures { IfOk result (λ line. line.items ≡ leg_text leg.now) }
{
    let mut line = Vec::with_capacity(alloc, LINE)?;
    push_leg_text(&mut line, leg)?;
    Ok(line)
}

// Adds the columns of a leg that are words.
fn push_words(row: &mut Vec<u8>, columns: &LegColumns) -> Result<(), Memory>
    ensures { OnOk result (row.new.items ≡ row.old.items ++ words columns.now) }
{
    push_word(row, columns, DEPARTURE_TERMINAL)?;
    push_word(row, columns, ARRIVAL_TERMINAL)?;
    push_word(row, columns, BOOKING_DESIGNATORS)?;
    push_word(row, columns, CONFIGURATION)
}

// Adds a blank and a field as one word.
fn push_word(row: &mut Vec<u8>, columns: &LegColumns, field: Field) -> Result<(), Memory>
    requires { IsTrue (is_own field) }
    ensures { OnOk result
        (row.new.items ≡ row.old.items ++ word field.first field.last columns.now) }
{
    row.push(b' ')?;
    push_word_of(row, without_end(columns.text(field)))
}

// Adds bytes as one word: a full stop if there are none.
fn push_word_of(row: &mut Vec<u8>, bytes: &[u8]) -> Result<(), Memory>
    ensures { OnOk result (row.new.items ≡ row.old.items ++ word_of bytes.now) }
{
    match bytes.split_first() {
        None => {
            row.push(b'.')?;
            Ok(())
        }
        Some(_) => push_each(row, &LegWord, bytes),
    }
}

impl Printed<LegWord> for u8 {
    ghost text = { λ _. word_byte };

    // Adds a byte: a full stop for a blank.
    fn print(&self, _word: &LegWord, row: &mut Vec<u8>) -> Result<(), Memory> {
        if *self == b' ' {
            row.push(b'.')?;
            return Ok(());
        }
        self.print(&Html, row)
    }
}

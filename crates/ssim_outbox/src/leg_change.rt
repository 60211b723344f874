//! What messages do not give to the new legs of a date.

ghost use Rattle.std.specs.Prelude.{◌≡◌, ◌≤◌, ◌+◌, ◌++◌, [], IfOk, OnOk, length, slice_get, take};
ghost use Rattle.ssim_outbox.specs.Reason.{after_sequence, first_columns, give_tails};
ghost use Rattle.ssim_outbox.specs.Reason.{have_other_equipment, is_second, leg_words};
ghost use Rattle.ssim_outbox.specs.Reason.{legs_words, old_columns, retimes, same_equipment, same_pair, unless};
ghost use Rattle.ssim_outbox.specs.Reason.{wanted, words_of_legs};
ghost use Rattle.ssim_outbox.specs.internal.LegChanges.{IsPrepared, change_of};

use crate::retimed_legs::{have_same, have_same_times};
use crate::segment_tails::{are_given, leg_lines};
use crate::wanted_leg::WantedLeg;
use ssim_base::{StationRow, variation_at};
use ssim_listing::push_sequence;
use ssim_records::LegColumns;
use ssim_records::leg_fields::{
    AIRCRAFT_TYPE, ARRIVAL_STATION, BOOKING_DESIGNATORS, CONFIGURATION, DEPARTURE_STATION,
    SERVICE_TYPE,
};
use ssim_schedule::{PlacedLeg, same_tails};
use ssim_text::LegLine;
use ssim_values::{Day, Memory};
use std::alloc::Global;

/// The most segment lines of a sub-message.
const MOST_SEGMENTS: usize = 99;

/// The new legs of a date, and the old legs that messages are to keep.
#[derive(Drop)]
pub(crate) struct LegChange<'a> {
    /// They give the UTC variations on the day.
    rows: &'a [StationRow],
    day: Day,
    /// The old legs, if messages are to give no more than other equipment and other times; no legs
    /// otherwise.
    old: &'a [PlacedLeg],
    new: &'a [PlacedLeg],
    /// The columns of the first of the new legs, whose equipment messages give to all legs.
    first: LegColumns,
    /// The leg lines of the new legs.
    lines: Vec<LegLine>,
    has_other_equipment: bool,
}

/// The words of what messages do not give to new legs on a day, by these rows of a station table. If
/// there are old legs, messages are to keep all of them but for equipment and times.
pub(crate) fn words_of_legs(
    alloc: Global,
    rows: &[StationRow],
    day: Day,
    old: &[PlacedLeg],
    new: &[PlacedLeg],
) -> Result<Vec<u8>, Memory>
    ensures { IfOk result
        (λ words. words.items ≡ words_of_legs rows.now day old.now new.now) }
{
    let mut words = Vec::new(alloc);
    let Some((first, _)) = new.split_first() else {
        return Ok(words);
    };
    let change = LegChange {
        rows,
        day,
        old,
        new,
        first: first.columns(),
        lines: leg_lines(alloc, new)?,
        has_other_equipment: have_other_equipment(old, new),
    };
    push_legs(alloc, &mut words, &change, 0, MOST_SEGMENTS, new)?;
    Ok(words)
}

// Adds the words of the new legs from a place on, with room for so many segment lines.
fn push_legs(
    alloc: Global,
    words: &mut Vec<u8>,
    change: &LegChange<'_>,
    place: usize,
    room: usize,
    legs: &[PlacedLeg],
) -> Result<(), Memory>
    requires prepared { IsPrepared change.now }
    requires place { place + length legs.now ≡ length change.now.new.now }
    ensures { OnOk result (words.new.items
        ≡ words.old.items ++ legs_words (change_of change.now) place room legs.now) }
{
    match legs.split_first() {
        None => Ok(()),
        Some((leg, later)) => {
            let found = change.words_of(alloc, place, room, leg)?;
            push_after_sequence(words, leg.sequence(), &found)?;
            let room = room.saturating_sub(leg.tails().len());
            push_legs(alloc, words, change, place + 1, room, later)
        }
    }
}

impl LegChange<'_> {
    // The words of what messages do not give to the leg with this place.
    fn words_of(
        &self,
        alloc: Global,
        place: usize,
        room: usize,
        leg: &PlacedLeg,
    ) -> Result<Vec<u8>, Memory>
        requires prepared { IsPrepared self.now }
        requires place { place ≤ length self.now.new.now }
        ensures { IfOk result
            (λ words. words.items ≡ leg_words (change_of self.now) place room leg.now) }
    {
        let mut words = Vec::new(alloc);
        let wanted = self.wanted(place, leg);
        wanted.push_departure(&mut words)?;
        wanted.push_arrival(&mut words)?;
        wanted.push_late(&mut words)?;
        push_unless(&mut words, self.gives_tails(place, room, leg), b" segments")?;
        push_unless(&mut words, self.retimes(place, leg), b" second")?;
        Ok(words)
    }

    // What messages have to give of the leg with this place.
    fn wanted(&self, place: usize, leg: &PlacedLeg) -> WantedLeg
        requires { IsPrepared self.now }
        ensures { result ≡ wanted (change_of self.now) (slice_get self.now.old.now place) leg.now }
    {
        let columns = leg.columns();
        WantedLeg {
            leg: columns,
            old: self.old_columns(place),
            first: self.first,
            has_other_equipment: self.has_other_equipment,
            departure: variation_at(self.rows, columns.departure_station(), self.day),
            arrival: variation_at(self.rows, columns.arrival_station(), self.day),
        }
    }

    // The columns of the old leg with this place, if there is one.
    fn old_columns(&self, place: usize) -> Option<LegColumns>
        ensures { result ≡ old_columns (slice_get self.now.old.now place) }
    {
        match self.old.get(place) {
            None => None,
            Some(old) => Some(old.columns()),
        }
    }

    // Whether messages leave the tails of the leg with this place, or give them.
    fn gives_tails(&self, place: usize, room: usize, leg: &PlacedLeg) -> bool
        requires { IsPrepared self.now }
        ensures { result ≡ give_tails (slice_get self.now.old.now place) self.now.new.now place room
            leg.now }
    {
        match self.old.get(place) {
            Some(old) => same_tails(old.tails(), leg.tails()),
            None => leg.tails().len() <= room && are_given(&self.lines, place, leg.tails()),
        }
    }

    // Whether `TIM` gives the leg with this place its times, if they are not the old ones.
    fn retimes(&self, place: usize, leg: &PlacedLeg) -> bool
        requires { place ≤ length self.now.new.now }
        ensures { result ≡ retimes (slice_get self.now.old.now place)
            (take place self.now.new.now) leg.now }
    {
        match self.old.get(place) {
            None => true,
            Some(old) => {
                have_same_times(&old.columns(), &leg.columns())
                    || !is_second(&self.new[..place], &leg.columns())
            }
        }
    }
}

// Whether an earlier leg flies between the stations of a leg.
fn is_second(earlier: &[PlacedLeg], leg: &LegColumns) -> bool
    ensures { result ≡ is_second earlier.now leg.now }
{
    match earlier.split_first() {
        None => false,
        Some((other, later)) => have_same_pair(&other.columns(), leg) || is_second(later, leg),
    }
}

// Whether two legs fly between the same stations.
fn have_same_pair(one: &LegColumns, other: &LegColumns) -> bool
    ensures { result ≡ same_pair one.now other.now }
{
    have_same(one, other, DEPARTURE_STATION) & have_same(one, other, ARRIVAL_STATION)
}

// Whether a leg has other equipment than the old one, or there is none.
fn have_other_equipment(old: &[PlacedLeg], new: &[PlacedLeg]) -> bool
    ensures { result ≡ have_other_equipment old.now new.now }
{
    match new.split_first() {
        None => false,
        Some((leg, legs)) => match old.split_first() {
            None => true,
            Some((before, olds)) => {
                !have_same_equipment(&before.columns(), &leg.columns())
                    || have_other_equipment(olds, legs)
            }
        },
    }
}

// Whether two legs have the same equipment.
#[tactic(auto, unfolding(crate::specs::Reason::same_equipment))]
fn have_same_equipment(old: &LegColumns, new: &LegColumns) -> bool
    ensures { result ≡ same_equipment old.now new.now }
{
    (have_same(old, new, SERVICE_TYPE) & have_same(old, new, AIRCRAFT_TYPE))
        & (have_same(old, new, BOOKING_DESIGNATORS) & have_same(old, new, CONFIGURATION))
}

// Adds a word, unless messages give what it names.
fn push_unless(words: &mut Vec<u8>, is_given: bool, word: &[u8]) -> Result<(), Memory>
    ensures { OnOk result (words.new.items ≡ words.old.items ++ unless is_given word.now) }
{
    if is_given {
        return Ok(());
    }
    words.extend_from_slice(word)?;
    Ok(())
}

// Adds words after a leg sequence, if there are any.
fn push_after_sequence(words: &mut Vec<u8>, sequence: u8, found: &[u8]) -> Result<(), Memory>
    ensures { OnOk result (words.new.items
        ≡ words.old.items ++ after_sequence sequence found.now) }
{
    if found.is_empty() {
        return Ok(());
    }
    words.push(b' ')?;
    push_sequence(words, sequence)?;
    words.extend_from_slice(found)?;
    Ok(())
}

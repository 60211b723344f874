//! Which columns of one leg messages do not give.

ghost use Rattle.std.specs.Prelude.{◌≡◌, ◌++◌, ◌∷◌, IsTrue, OnOk};
ghost use Rattle.std.specs.List.{list_all};
ghost use Rattle.ssim_columns.specs.clauses.Leg.{is_own};
ghost use Rattle.ssim_values.specs.Characters.{is_letter};
ghost use Rattle.ssim_outbox.specs.Reason.{arrival_words, columns_word, departure_words, give_code};
ghost use Rattle.ssim_outbox.specs.Reason.{give_date_variations, give_text, give_time};
ghost use Rattle.ssim_outbox.specs.Reason.{give_variation, has_other_times, is_blank};
ghost use Rattle.ssim_outbox.specs.Reason.{is_date_variation, is_letter_or_digit, late_words};
ghost use Rattle.ssim_outbox.specs.Reason.{is_variation, leave, unless};

use crate::retimed_legs::{have_same, have_same_times};
use ssim_columns::Field;
use ssim_lines::written;
use ssim_records::LegColumns;
use ssim_records::leg_fields::{
    AIRCRAFT_TYPE, ARRIVAL_TERMINAL, ARRIVAL_VARIATION, BOOKING_DESIGNATORS, COLUMNS_96_TO_127,
    COLUMNS_129_TO_172, CONFIGURATION, DATE_VARIATIONS, DEPARTURE_TERMINAL, DEPARTURE_VARIATION,
    PASSENGER_ARRIVAL, PASSENGER_DEPARTURE, SERVICE_TYPE,
};
use ssim_text::without_end;
use ssim_values::{Memory, Variation};
use std::io::Write;

/// A leg of a new itinerary, and what messages have to give of it. Legs are here by their columns.
#[derive(Clone, Copy)]
pub(crate) struct WantedLeg {
    pub leg: LegColumns,
    /// The old leg, if messages are to give no more than other equipment and other times.
    pub old: Option<LegColumns>,
    /// The first leg, whose equipment messages give to all legs.
    pub first: LegColumns,
    pub has_other_equipment: bool,
    /// The UTC variations of its two stations on the day.
    pub departure: Option<Variation>,
    pub arrival: Option<Variation>,
}

impl WantedLeg {
    /// Adds the words of the service type and of the departure, which messages do not give.
    #[tactic(auto, unfolding(crate::specs::Reason::departure_words))]
    pub(crate) fn push_departure(&self, words: &mut Vec<u8>) -> Result<(), Memory>
        ensures { OnOk result (words.new.items ≡ words.old.items ++ departure_words self.now) }
    {
        push_field(words, self.gives_letters(SERVICE_TYPE), SERVICE_TYPE)?;
        let is_given = self.gives_time(PASSENGER_DEPARTURE);
        push_field(words, is_given, PASSENGER_DEPARTURE)?;
        let is_given = self.gives_variation(self.departure, DEPARTURE_VARIATION);
        push_field(words, is_given, DEPARTURE_VARIATION)?;
        push_field(words, self.leaves(DEPARTURE_TERMINAL), DEPARTURE_TERMINAL)
    }

    /// Adds the words of the arrival.
    #[tactic(auto, unfolding(crate::specs::Reason::arrival_words))]
    pub(crate) fn push_arrival(&self, words: &mut Vec<u8>) -> Result<(), Memory>
        ensures { OnOk result (words.new.items ≡ words.old.items ++ arrival_words self.now) }
    {
        push_field(words, self.gives_time(PASSENGER_ARRIVAL), PASSENGER_ARRIVAL)?;
        let is_given = self.gives_variation(self.arrival, ARRIVAL_VARIATION);
        push_field(words, is_given, ARRIVAL_VARIATION)?;
        push_field(words, self.leaves(ARRIVAL_TERMINAL), ARRIVAL_TERMINAL)
    }

    /// Adds the words of the columns from 73 on.
    #[tactic(auto, unfolding(crate::specs::Reason::late_words))]
    pub(crate) fn push_late(&self, words: &mut Vec<u8>) -> Result<(), Memory>
        ensures { OnOk result (words.new.items ≡ words.old.items ++ late_words self.now) }
    {
        push_field(
            words,
            self.gives_letters_or_digits(AIRCRAFT_TYPE),
            AIRCRAFT_TYPE,
        )?;
        let are_given = self.gives_designators(BOOKING_DESIGNATORS);
        push_field(words, are_given, BOOKING_DESIGNATORS)?;
        push_field(words, self.leaves(COLUMNS_96_TO_127), COLUMNS_96_TO_127)?;
        push_field(words, self.leaves(COLUMNS_129_TO_172), COLUMNS_129_TO_172)?;
        push_field(
            words,
            self.gives_configuration(CONFIGURATION),
            CONFIGURATION,
        )?;
        push_field(words, self.gives_date_variations(), DATE_VARIATIONS)
    }

    // Whether messages leave a field as it is to be: as in the old leg, or else blank.
    fn leaves(&self, field: Field) -> bool
        requires { IsTrue (is_own field) }
        ensures { result ≡ leave self.now.old self.now.leg field.first field.last }
    {
        match &self.old {
            Some(old) => have_same(old, &self.leg, field),
            None => are_blank(self.leg.text(field)),
        }
    }

    // Whether messages leave a UTC variation as in the old leg, or else give the one of the station.
    fn gives_variation(&self, variation: Option<Variation>, field: Field) -> bool
        requires { IsTrue (is_own field) }
        ensures { result ≡ give_variation self.now.old self.now.leg variation field.first field.last }
    {
        match &self.old {
            Some(old) => have_same(old, &self.leg, field),
            None => is_variation(variation, self.leg.text(field)),
        }
    }

    // Whether messages are to give the leg its times.
    fn has_other_times(&self) -> bool
        ensures { result ≡ has_other_times self.now.old self.now.leg }
    {
        match &self.old {
            Some(old) => !have_same_times(old, &self.leg),
            None => true,
        }
    }

    // Whether messages give a passenger time, if they are to.
    fn gives_time(&self, field: Field) -> bool
        requires { IsTrue (is_own field) }
        ensures { result ≡ give_time self.now field.first field.last }
    {
        !(self.has_other_times() & are_blank(self.leg.text(field)))
    }

    // Whether messages give the date variations, if they are to.
    fn gives_date_variations(&self) -> bool
        ensures { result ≡ give_date_variations self.now }
    {
        !self.has_other_times() | are_date_variations(self.leg.text(DATE_VARIATIONS))
    }

    // Whether messages give a field of letters, if they are to.
    fn gives_letters(&self, field: Field) -> bool
        requires { IsTrue (is_own field) }
        ensures { result ≡ give_code self.now is_letter field.first field.last }
    {
        let is_allowed = are_letters(self.leg.text(field));
        !self.has_other_equipment | (is_allowed & have_same(&self.first, &self.leg, field))
    }

    // Whether messages give a field of letters and digits, if they are to.
    fn gives_letters_or_digits(&self, field: Field) -> bool
        requires { IsTrue (is_own field) }
        ensures { result ≡ give_code self.now is_letter_or_digit field.first field.last }
    {
        let is_allowed = are_letters_or_digits(self.leg.text(field));
        !self.has_other_equipment | (is_allowed & have_same(&self.first, &self.leg, field))
    }

    // Whether messages give a field of letters and then blanks, if they are to.
    fn gives_designators(&self, field: Field) -> bool
        requires { IsTrue (is_own field) }
        ensures { result ≡ give_text self.now is_letter field.first field.last }
    {
        let is_allowed = are_letters(without_end(self.leg.text(field)));
        !self.has_other_equipment | (is_allowed & have_same(&self.first, &self.leg, field))
    }

    // Whether messages give a field of letters and digits, and then blanks, if they are to.
    fn gives_configuration(&self, field: Field) -> bool
        requires { IsTrue (is_own field) }
        ensures { result ≡ give_text self.now is_letter_or_digit field.first field.last }
    {
        let is_allowed = are_letters_or_digits(without_end(self.leg.text(field)));
        !self.has_other_equipment | (is_allowed & have_same(&self.first, &self.leg, field))
    }
}

// Adds the word of a field, unless messages give it.
fn push_field(words: &mut Vec<u8>, is_given: bool, field: Field) -> Result<(), Memory>
    ensures { OnOk result (words.new.items
        ≡ words.old.items ++ unless is_given (columns_word field.first field.last)) }
{
    if is_given {
        return Ok(());
    }
    push_columns(words, field.first, field.last)
}

// Adds the word of columns.
#[tactic(auto, unfolding(crate::specs::Reason::columns_word))]
fn push_columns(words: &mut Vec<u8>, first: usize, last: usize) -> Result<(), Memory>
    ensures { OnOk result (words.new.items ≡ words.old.items ++ columns_word first last) }
{
    if first == last {
        return written(write!(words, " {first}"));
    }
    written(write!(words, " {first}-{last}"))
}

// Whether a text is the UTC variation, if there is one.
fn is_variation(variation: Option<Variation>, text: &[u8]) -> bool
    ensures { result ≡ is_variation variation text.now }
{
    match variation {
        None => false,
        Some(variation) => {
            let written = variation.write();
            text == written.as_slice()
        }
    }
}

fn are_letters(text: &[u8]) -> bool
    ensures { result ≡ list_all is_letter text.now }
{
    text.iter().all(|byte| b'A' <= *byte && *byte <= b'Z')
}

fn are_letters_or_digits(text: &[u8]) -> bool
    ensures { result ≡ list_all is_letter_or_digit text.now }
{
    text.iter().all(|byte| (b'A' <= *byte && *byte <= b'Z') || (b'0' <= *byte && *byte <= b'9'))
}

fn are_date_variations(text: &[u8]) -> bool
    ensures { result ≡ list_all is_date_variation text.now }
{
    text.iter().all(|byte| b'0' <= *byte && *byte <= b'7')
}

fn are_blank(text: &[u8]) -> bool
    ensures { result ≡ list_all is_blank text.now }
{
    text.iter().all(|byte| *byte == b' ')
}

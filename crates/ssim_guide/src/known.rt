//! What is known of a line that is refused: an action, a request or a form that no command takes.

use ssim_text::{cut, first_word};
use ssim_values::{DayMonth, Designator, are_digits};

const DATE_BY_DATE: &str = "it changes what it does not name date by date: ask for NEW, CNL or RPL";

const ANSWER: &str = "a request or an answer: it changes no schedule";

const ACTION_ALONE: &str = "a secondary action or a reason: send the action alone";

const ONE_EACH: &str =
    "several flights or periods, or a frequency rate, in one sub-message: send one each";

// The action identifiers of SSIM chapter 4. Those that are taken are refused with more words alone.
const ACTIONS: &[(&str, &str)] = &[
    ("SKD", DATE_BY_DATE),
    ("REV", DATE_BY_DATE),
    ("ADM", DATE_BY_DATE),
    (
        "FLT",
        "another flight number: ask for CNL of the old and NEW of the new flight",
    ),
    ("CON", "ask for EQT"),
    ("RRT", "ask for RPL"),
    ("RIN", "ask for NEW"),
    ("RSD", ANSWER),
    ("ACK", ANSWER),
    ("NAC", ANSWER),
    ("NEW", ACTION_ALONE),
    ("CNL", ACTION_ALONE),
    ("RPL", ACTION_ALONE),
    ("EQT", ACTION_ALONE),
    ("TIM", ACTION_ALONE),
];

/// What is known of a line of a text at which a refusal has this number, if anything is.
pub(crate) fn known_at(line: &[u8], refusal: u8) -> Option<&'static str> {
    match refusal {
        22 => known_action(first_part(line)),
        24 if has_flight(line) || has_rate(line) => Some(ONE_EACH),
        25 | 26 | 27 if has_period(line) => Some(ONE_EACH),
        _ => None,
    }
}

/// What is known of an action with this identifier.
fn known_action(identifier: &[u8]) -> Option<&'static str> {
    for (name, known) in ACTIONS {
        if name.as_bytes() == identifier {
            return Some(*known);
        }
    }
    None
}

/// The first word of a line, up to a slant.
fn first_part(line: &[u8]) -> &[u8] {
    let (word, _) = first_word(line);
    cut(word, b'/').0
}

/// Whether a line is a flight, perhaps with a date. A leg may begin with what looks like one.
fn has_flight(line: &[u8]) -> bool {
    Designator::parse(cut(line, b'/').0).is_ok()
}

/// Whether a line begins with two dates.
fn has_period(line: &[u8]) -> bool {
    let (first, rest) = first_word(line);
    let (last, _) = first_word(rest);
    is_date(first) && is_date(last)
}

/// Whether a frequency rate follows the days of operation of a period.
fn has_rate(line: &[u8]) -> bool {
    has_period(line) && cut(line, b'/').1.starts_with(b"/W")
}

/// Whether a word is a day and a month, perhaps with a year, or `00XXX00`.
fn is_date(word: &[u8]) -> bool {
    let Some((day, year)) = word.split_first_chunk::<5>() else {
        return false;
    };
    (day == b"00XXX" || DayMonth::parse(day).is_ok())
        && matches!(year.len(), 0 | 2)
        && are_digits(year)
}

//! The options of `board`.

ghost use Rattle.std.specs.Prelude.{◌≡◌, codes, option_map, true};
ghost use Rattle.std.specs.List.{list_all};
ghost use Rattle.clap.specs.Words.{found_of, rows_of};
ghost use Rattle.ssim_command_line.specs.Line.{board_form_of, days_in, form_with, is_digit};
ghost use Rattle.ssim_command_line.specs.Line.{number_in, only_of};

use crate::command_line::{is_given, option_at};
use clap::ArgMatches;

/// Which lines of a board are printed.
#[derive(Clone, Copy, Debug, PartialEq, Eq)]
pub enum Direction {
    /// The departures.
    Departures,
    /// The arrivals.
    Arrivals,
}

/// How `board` prints.
#[derive(Clone, Copy, Debug, PartialEq, Eq)]
pub struct BoardForm {
    /// As CSV.
    pub csv: bool,
    /// For how many dates, each under a heading; if it is missing, for one date without a heading.
    pub days: Option<u16>,
    /// The lines of one direction alone.
    pub only: Option<Direction>,
}

/// Whether a byte is a digit.
fn is_digit(byte: u8) -> bool
    ensures { result ≡ is_digit byte }
{
    48 <= byte && byte <= 57
}

/// Whether each byte is a digit.
fn are_digits(text: &[u8]) -> bool
    ensures { result ≡ list_all is_digit text.now }
{
    let mut all = true;
    for byte in text {
        all &= is_digit(*byte);
    }
    all
}

/// The number that one to three digits are.
fn number_in(digits: &[u8]) -> u16
    requires { list_all is_digit digits.now ≡ true }
    ensures { result ≡ number_in digits.now }
{
    match digits {
        [a] => (*a - b'0') as u16,
        [a, b] => 10 * (*a - b'0') as u16 + (*b - b'0') as u16,
        [a, b, c] => 100 * (*a - b'0') as u16 + 10 * (*b - b'0') as u16 + (*c - b'0') as u16,
        _ => 0,
    }
}

/// The number of dates that the value of `--days` is.
fn days_in(word: &str) -> Option<u16>
    ensures { result ≡ days_in word.now }
{
    let digits = word.as_bytes();
    if !are_digits(digits) {
        return None;
    }
    let number = number_in(digits);
    if 1 <= number && number <= 366 {
        Some(number)
    } else {
        None
    }
}

/// Which lines `--departures` and `--arrivals` leave: not both.
fn only_of(departures: bool, arrivals: bool) -> Option<Option<Direction>>
    ensures { result ≡ only_of departures arrivals }
{
    match (departures, arrivals) {
        (false, false) => Some(None),
        (true, false) => Some(Some(Direction::Departures)),
        (false, true) => Some(Some(Direction::Arrivals)),
        (true, true) => None,
    }
}

/// Whether rows are printed, a number of dates, if `--days` is given, and the lines that are left.
fn form_with(csv: bool, days: Option<&str>, only: Option<Option<Direction>>) -> Option<BoardForm>
    ensures { result ≡ form_with csv (option_map (λ s. s.now) days.entry) only }
{
    let only = only?;
    match days {
        None => Some(BoardForm {
            csv,
            days: None,
            only,
        }),
        Some(word) => {
            let days = days_in(word)?;
            Some(BoardForm {
                csv,
                days: Some(days),
                only,
            })
        }
    }
}

/// How `board` prints.
pub(crate) fn board_form_of(inner: &ArgMatches<'_>) -> Option<BoardForm>
    ensures { result ≡ board_form_of (rows_of (found_of inner.now)) }
{
    let only = only_of(is_given(inner, "departures"), is_given(inner, "arrivals"));
    form_with(is_given(inner, "csv"), option_at(inner, "days"), only)
}

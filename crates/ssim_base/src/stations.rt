//! The UTC variations of stations, from a table of lines.

ghost use Rattle.std.specs.Prelude.{◌≡◌, ◌≤◌, ◌++◌, List, [], IfOk, IfErr, IfSome, IfNone, IsTrue, ◌↔◌, Ok, Some};
ghost use Rattle.ssim_text.specs.Left.{lines_left, numbered};
ghost use Rattle.ssim_text.specs.Lines.{day_in};
ghost use Rattle.ssim_base.specs.clauses.Stations.{GivesRows};
ghost use Rattle.ssim_base.specs.Stations.{NamesLine, Row, SpellsTable, covers};
ghost use Rattle.ssim_base.specs.Stations.{variation_at, variation_in};
ghost use Rattle.ssim_base.specs.internal.StationRows.{StopsAs, row_of, rows_of};

use crate::place::Place;
use ssim_text::{cut, first_word, read_station, without_end};
use ssim_values::{Day, Memory, Station, Variation};
use std::alloc::{AllocFailed, Global};
use std::marker::Model;
use thiserror::Error;

/// Why bytes are not a station table.
#[derive(Clone, Copy, Debug, Error, PartialEq, Eq)]
pub enum StationFault {
    /// 90: out of memory.
    #[error("out of memory")]
    Memory,

    /// 39: the line with this number, from 1, is not a row.
    #[error("line {0}: expected a station, a first day, a last day and a UTC variation")]
    Stations(u64),
}

impl StationFault {
    ghost use Rattle.ssim_base.specs.Fault.{station_fault_name, station_fault_place};
    ghost use Rattle.ssim_base.specs.Stations.{station_fault_number};

    /// The number by which the fault is known.
    pub fn number(self) -> u8
        ensures { result ≡ station_fault_number self }
    {
        match self {
            StationFault::Memory => 90,
            StationFault::Stations(_) => 39,
        }
    }

    /// The name by which the fault is known.
    pub fn name(self) -> &'static str
        ensures { result.now ≡ station_fault_name self }
    {
        match self {
            StationFault::Memory => "Memory",
            StationFault::Stations(_) => "Stations",
        }
    }

    /// The line that the fault names.
    pub fn place(self) -> Place
        ensures { result ≡ station_fault_place self }
    {
        match self {
            StationFault::Memory => Place::Nowhere,
            StationFault::Stations(line) => Place::Line(line),
        }
    }
}

impl<T: Drop> From<AllocFailed<T>> for StationFault {
    ghost use Rattle.ssim_base.specs.declared.stations.StationFault.TheVariants.{Memory};

    ghost from_gives = { λ _ e. e ≡ Memory };

    fn from(_refused: AllocFailed<T>) -> StationFault {
        StationFault::Memory
    }
}

/// A row of a station table: the variation that a station has from a first day to a last.
#[derive(Clone, Copy, Debug, PartialEq, Eq)]
pub struct StationRow {
    station: Station,
    first: Day,
    last: Day,
    variation: Variation,
}

impl Model for StationRow {
    ghost use Rattle.std.specs.Prelude.{◌≤◌};
    ghost use Rattle.ssim_base.specs.Stations.{Row};

    ghost Value = { Row };

    ghost view = { λ r. record {
      station = r.station;
      first = r.first;
      last = r.last;
      variation = r.variation;
    } };

    ghost invariant = { λ r. r.first ≤ r.last };

    ghost inverse = { λ v. record {
      station = v.station;
      first = v.first;
      last = v.last;
      variation = v.variation;
    } };
}

impl StationRow {
    /// The station.
    pub fn station(&self) -> Station
        ensures { result ≡ self.now.station }
    {
        self.station
    }

    /// The first day on which it has the variation.
    pub fn first(&self) -> Day
        ensures value { result ≡ self.now.first }
        ensures ordered { result ≤ self.now.last }
    {
        self.first
    }

    /// The last such day, not before the first.
    pub fn last(&self) -> Day
        ensures value { result ≡ self.now.last }
        ensures ordered { self.now.first ≤ result }
    {
        self.last
    }

    /// The variation.
    pub fn variation(&self) -> Variation
        ensures { result ≡ self.now.variation }
    {
        self.variation
    }

    /// Whether two rows are the same.
    fn same(&self, other: &StationRow) -> bool
        ensures { IsTrue result ↔ (self.now ≡ other.now) }
    {
        self.station == other.station
            && self.first == other.first
            && self.last == other.last
            && self.variation == other.variation
    }

    fn covers(&self, station: Station, day: Day) -> bool
        ensures { result ≡ covers self.now station day }
    {
        self.station == station && self.first <= day && day <= self.last
    }

    /// Reads a station, two days and a variation.
    #[tactic(auto, unfolding(crate::specs::internal::StationRows::row_of))]
    fn parse(line: &[u8]) -> Option<StationRow>
        ensures some { IfSome result (λ row. row_of line.now ≡ Some row) }
        ensures none { IfNone result (row_of line.now ≡ None) }
    {
        let (station, rest) = first_word(line);
        let (first, rest) = first_word(rest);
        let (last, variation) = first_word(rest);
        let station = read_station(station)?;
        let first = read_day(first)?;
        let last = read_day(last)?;
        let variation = read_variation(variation)?;
        if first <= last {
            Some(StationRow {
                station,
                first,
                last,
                variation,
            })
        } else {
            None
        }
    }
}

fn read_day(text: &[u8]) -> Option<Day>
    ensures some { IfSome result (λ day. day_in text.now ≡ Some day) }
    ensures none { IfNone result (day_in text.now ≡ None) }
{
    match text.as_array() {
        Some(date) => match Day::parse(date) {
            Ok(day) => Some(day),
            Err(_) => None,
        },
        None => None,
    }
}

fn read_variation(text: &[u8]) -> Option<Variation>
    ensures some { IfSome result (λ variation. variation_in text.now ≡ Some variation) }
    ensures none { IfNone result (variation_in text.now ≡ None) }
{
    match text.as_array() {
        Some(signed) => match Variation::parse(signed) {
            Ok(variation) => Some(variation),
            Err(_) => None,
        },
        None => None,
    }
}

/// A table of the UTC variations of stations, seen as its rows in order.
#[derive(Drop)]
pub struct Stations {
    rows: Vec<StationRow>,
}

impl Model for Stations {
    ghost use Rattle.std.specs.Prelude.{List};
    ghost use Rattle.ssim_base.specs.Stations.{Row};

    ghost Value = { List Row };

    ghost view = { λ s. s.rows.items };
}

impl Stations {
    /// A table without rows. It does not allocate.
    pub fn new(alloc: Global) -> Stations
        ensures { result ≡ [] }
    {
        Stations {
            rows: Vec::new(alloc),
        }
    }

    /// Reads a table. CR bytes and blanks at line ends are dropped, and then empty lines. Each line
    /// that is left is a station, a first day, a last day not before it and a variation, with one
    /// or more blanks between them.
    ///
    /// The error 39 `Stations` names the first line that is not spelled so, by its number among all
    /// lines, from 1.
    pub fn read(alloc: Global, text: &[u8]) -> Result<Stations, StationFault>
        ensures ok { IfOk result (λ rows. SpellsTable rows text.now) }
        ensures only { (rows : List Row) → SpellsTable rows text.now → GivesRows rows result }
        ensures err { IfErr result (λ fault. NamesLine (lines_left text.now) fault) }
    {
        match read_rows(alloc, text) {
            Ok(rows) => Ok(Stations { rows }),
            Err(fault) => Err(fault),
        }
    }

    /// The same table.
    pub fn copy(&self, alloc: Global) -> Result<Stations, Memory>
        ensures { IfOk result (λ copy. copy ≡ self.now) }
    {
        Ok(Stations {
            rows: Vec::from_slice(alloc, &self.rows)?,
        })
    }

    /// Whether two tables have the same rows.
    pub fn same(&self, other: &Stations) -> bool
        ensures { IsTrue result ↔ (self.now ≡ other.now) }
    {
        same_rows(&self.rows, &other.rows)
    }

    /// The rows in the order of their lines.
    pub fn rows(&self) -> &[StationRow]
        ensures { result.now ≡ self.now }
    {
        &self.rows
    }

    /// The variation of a station on a day, from the first row that covers both. Allocates nothing.
    pub fn at(&self, station: Station, day: Day) -> Option<Variation>
        ensures { result ≡ variation_at self.now station day }
    {
        variation_at(&self.rows, station, day)
    }
}

pub fn variation_at(rows: &[StationRow], station: Station, day: Day) -> Option<Variation>
    ensures { result ≡ variation_at rows.now station day }
{
    for row in rows {
        if row.covers(station, day) {
            return Some(row.variation);
        }
    }
    None
}

// The rows, and the row of one more line if the line is not empty.
fn with_row(
    rows: Vec<StationRow>,
    number: u64,
    line: &[u8],
) -> Result<Vec<StationRow>, StationFault>
    ensures ok { IfOk result (λ all. (more : List Row) × (all.items ≡ rows.items ++ more)
        × (rows_of (numbered number line.now []) ≡ Ok more)) }
    ensures err { IfErr result (λ fault. StopsAs (rows_of (numbered number line.now [])) fault) }
{
    let mut rows = rows;
    if line.is_empty() {
        return Ok(rows);
    }
    match StationRow::parse(line) {
        Some(row) => {
            rows.push(row)?;
            Ok(rows)
        }
        None => Err(StationFault::Stations(number)),
    }
}

fn read_rows(alloc: Global, text: &[u8]) -> Result<Vec<StationRow>, StationFault>
    ensures ok { IfOk result (λ rows. rows_of (lines_left text.now) ≡ Ok rows.items) }
    ensures err { IfErr result (λ fault. StopsAs (rows_of (lines_left text.now)) fault) }
{
    let mut rows = Vec::new(alloc);
    let mut rest = text;
    let mut number: u64 = 1;
    loop {
        let (line, tail) = cut(rest, b'\n');
        rows = with_row(rows, number, without_end(line))?;
        match tail {
            [_, next @ ..] => {
                rest = next;
                number += 1;
            }
            [] => return Ok(rows),
        }
    }
}

// Whether the two lists have the same rows.
fn same_rows(mine: &[StationRow], theirs: &[StationRow]) -> bool
    ensures { IsTrue result ↔ (mine.now ≡ theirs.now) }
{
    if mine.len() != theirs.len() {
        return false;
    }
    for (place, row) in mine.iter().enumerate() {
        if !row.same(&theirs[place]) {
            return false;
        }
    }
    true
}

//! The kind of a change of a flight date.

ghost use Rattle.std.specs.Prelude.{◌≡◌, IsTrue};
ghost use Rattle.std.specs.Str.{bytes_eq};
ghost use Rattle.ssim_columns.specs.Leg.{leg_columns};
ghost use Rattle.ssim_columns.specs.clauses.Leg.{is_own};
ghost use Rattle.ssim_difference.specs.Kinds.{changed_kind, each_alike, kind_name, kind_of};
ghost use Rattle.ssim_difference.specs.Kinds.{kind_place, same_equipment, same_stations, same_times};
ghost use Rattle.ssim_difference.specs.internal.KindCounts.{has_kind};

use crate::difference::Difference;
use ssim_columns::leg_fields::{
    AIRCRAFT_ARRIVAL, AIRCRAFT_DEPARTURE, AIRCRAFT_TYPE, ARRIVAL_STATION, BOOKING_DESIGNATORS,
    CONFIGURATION, DATE_VARIATIONS, DEPARTURE_STATION, PASSENGER_ARRIVAL, PASSENGER_DEPARTURE,
    SERVICE_TYPE,
};
use ssim_columns::{Field, LegColumns};
use ssim_schedule::PlacedLeg;

/// What has changed on a flight date: the first of these that fits.
#[derive(Clone, Copy, Debug, PartialEq, Eq)]
pub enum ChangeKind {
    /// The flight did not fly.
    Added,
    /// The flight does not fly.
    Cancelled,
    /// It flies between other stations.
    Rerouted,
    /// It flies at other times.
    Retimed,
    /// It has other equipment.
    Equipment,
    /// Something else is different.
    Other,
}

impl ChangeKind {
    /// The kind of the change from the old itinerary to the new one.
    pub fn of(difference: &Difference) -> ChangeKind
        ensures { result ≡ kind_of difference.now.old difference.now.new }
    {
        kind_between(difference.old.legs(), difference.new.legs())
    }

    /// Whether a difference is of this kind.
    pub(crate) fn has(self, difference: &Difference) -> bool
        ensures { result ≡ has_kind self difference.now }
    {
        ChangeKind::of(difference).place() == self.place()
    }

    /// Its word.
    pub fn name(self) -> &'static str
        ensures { result.now ≡ kind_name self }
    {
        match self {
            ChangeKind::Added => "added",
            ChangeKind::Cancelled => "cancelled",
            ChangeKind::Rerouted => "rerouted",
            ChangeKind::Retimed => "retimed",
            ChangeKind::Equipment => "equipment",
            ChangeKind::Other => "other",
        }
    }

    // Its place among all.
    fn place(self) -> u8
        ensures { result ≡ kind_place self }
    {
        match self {
            ChangeKind::Added => 0,
            ChangeKind::Cancelled => 1,
            ChangeKind::Rerouted => 2,
            ChangeKind::Retimed => 3,
            ChangeKind::Equipment => 4,
            ChangeKind::Other => 5,
        }
    }
}

// The kind of a change of legs.
fn kind_between(old: &[PlacedLeg], new: &[PlacedLeg]) -> ChangeKind
    ensures { result ≡ kind_of old.now new.now }
{
    match old.split_first() {
        None => ChangeKind::Added,
        Some(_) => match new.split_first() {
            None => ChangeKind::Cancelled,
            Some(_) => changed_kind(old, new),
        },
    }
}

// The kind of a change of the legs of a flight that flies before and after.
fn changed_kind(old: &[PlacedLeg], new: &[PlacedLeg]) -> ChangeKind
    ensures { result ≡ changed_kind old.now new.now }
{
    if !have_same_stations(old, new) {
        ChangeKind::Rerouted
    } else if !have_same_times(old, new) {
        ChangeKind::Retimed
    } else if !have_same_equipment(old, new) {
        ChangeKind::Equipment
    } else {
        ChangeKind::Other
    }
}

// Whether the legs are between the same stations, one by one.
fn have_same_stations(old: &[PlacedLeg], new: &[PlacedLeg]) -> bool
    ensures { result ≡ each_alike same_stations old.now new.now }
{
    match old.split_first() {
        None => new.is_empty(),
        Some((one, old)) => match new.split_first() {
            None => false,
            Some((other, new)) => same_stations(&one.columns(), &other.columns())
                && have_same_stations(old, new),
        },
    }
}

// Whether the legs have the same times, one by one.
fn have_same_times(old: &[PlacedLeg], new: &[PlacedLeg]) -> bool
    ensures { result ≡ each_alike same_times old.now new.now }
{
    match old.split_first() {
        None => new.is_empty(),
        Some((one, old)) => match new.split_first() {
            None => false,
            Some((other, new)) => same_times(&one.columns(), &other.columns())
                && have_same_times(old, new),
        },
    }
}

// Whether the legs have the same equipment, one by one.
fn have_same_equipment(old: &[PlacedLeg], new: &[PlacedLeg]) -> bool
    ensures { result ≡ each_alike same_equipment old.now new.now }
{
    match old.split_first() {
        None => new.is_empty(),
        Some((one, old)) => match new.split_first() {
            None => false,
            Some((other, new)) => same_equipment(&one.columns(), &other.columns())
                && have_same_equipment(old, new),
        },
    }
}

// Whether two legs are between the same stations.
#[tactic(auto, unfolding(crate::specs::Kinds::same_stations))]
fn same_stations(old: &LegColumns, new: &LegColumns) -> bool
    ensures { result ≡ same_stations old.now new.now }
{
    have_same(old, new, DEPARTURE_STATION) & have_same(old, new, ARRIVAL_STATION)
}

// Whether the times and the date variations of two legs are the same.
#[tactic(auto, unfolding(crate::specs::Kinds::same_times))]
fn same_times(old: &LegColumns, new: &LegColumns) -> bool
    ensures { result ≡ same_times old.now new.now }
{
    have_same(old, new, PASSENGER_DEPARTURE)
        & have_same(old, new, AIRCRAFT_DEPARTURE)
        & have_same(old, new, AIRCRAFT_ARRIVAL)
        & have_same(old, new, PASSENGER_ARRIVAL)
        & have_same(old, new, DATE_VARIATIONS)
}

// Whether two legs have the same equipment.
#[tactic(auto, unfolding(crate::specs::Kinds::same_equipment))]
fn same_equipment(old: &LegColumns, new: &LegColumns) -> bool
    ensures { result ≡ same_equipment old.now new.now }
{
    have_same(old, new, SERVICE_TYPE)
        & have_same(old, new, AIRCRAFT_TYPE)
        & have_same(old, new, BOOKING_DESIGNATORS)
        & have_same(old, new, CONFIGURATION)
}

// Whether two legs have the same text of a field.
fn have_same(old: &LegColumns, new: &LegColumns, field: Field) -> bool
    requires { IsTrue (is_own field) }
    ensures { result
        ≡ bytes_eq (leg_columns field.first field.last old.now)
        (leg_columns field.first field.last new.now) }
{
    old.text(field) == new.text(field)
}

//! Constant parts of a script. `make/schema.py` writes this file from the files of `schema/`.

/// The first line of a statement with rows of `timetable`.
pub(crate) const TIMETABLE_HEAD: &[u8] = b"\
INSERT INTO timetable (timetable, airline, season, time_mode, first_date, last_date, created, \
messages) VALUES
";

/// The first line of a statement with rows of `leg`.
pub(crate) const LEG_HEAD: &[u8] = b"\
INSERT INTO leg (timetable, flight, first_date, last_date, days, leg, departure_station, \
departure_local, departure_local_day, departure_utc, departure_utc_day, departure_passenger, \
departure_terminal, arrival_station, arrival_local, arrival_local_day, arrival_utc, \
arrival_utc_day, arrival_passenger, arrival_terminal, service, aircraft, bookings, \
configuration, columns_96_127, columns_129_172, doubtful) VALUES
";

/// The first line of a statement with rows of `segment`.
pub(crate) const SEGMENT_HEAD: &[u8] = b"\
INSERT INTO segment (timetable, flight, first_date, leg, place, points, identifier, stations, \
data) VALUES
";

/// The first line of a statement with rows of `station_row`.
pub(crate) const STATION_ROW_HEAD: &[u8] = b"\
INSERT INTO station_row (timetable, place, station, first_date, last_date, utc_variation) VALUES
";

/// The first line of a statement with rows of `message`.
pub(crate) const MESSAGE_HEAD: &[u8] = b"\
INSERT INTO message (timetable, reference, place, kind, date, originator, text) VALUES
";

/// The first line of a statement with rows of `sub_message`.
pub(crate) const SUB_MESSAGE_HEAD: &[u8] = b"\
INSERT INTO sub_message (timetable, reference, sub, action, flight, first_date, last_date, \
days, acted, absent, present, no_leg, no_station) VALUES
";

/// The first line of a statement with rows of `change`.
pub(crate) const CHANGE_HEAD: &[u8] = b"\
INSERT INTO change (timetable, flight, first_date, last_date, days, side, leg, \
departure_station, departure_local, departure_local_day, departure_utc, departure_utc_day, \
departure_passenger, departure_terminal, arrival_station, arrival_local, arrival_local_day, \
arrival_utc, arrival_utc_day, arrival_passenger, arrival_terminal, service, aircraft, bookings, \
configuration, columns_96_127, columns_129_172, doubtful) VALUES
";

/// The first line of a statement with rows of `day`.
pub(crate) const DAY_HEAD: &[u8] = b"\
INSERT INTO day (number, date, weekday) VALUES
";

//! Constant parts of a script. `make/schema.py` writes this file from the files of `schema/`.

/// Makes the tables and the indexes that are not there.
pub(crate) const TABLES: &[u8] = b"\
CREATE TABLE IF NOT EXISTS timetable (timetable VARCHAR(7) NOT NULL PRIMARY KEY, airline \
VARCHAR(3) NOT NULL, season VARCHAR(3) NOT NULL, time_mode CHAR(1) NOT NULL, first_date DATE \
NOT NULL, last_date DATE NOT NULL, created DATE NOT NULL, messages INTEGER);
CREATE TABLE IF NOT EXISTS day (number INTEGER NOT NULL PRIMARY KEY, date DATE NOT NULL, \
weekday CHAR(1) NOT NULL);
CREATE TABLE IF NOT EXISTS leg (timetable VARCHAR(7) NOT NULL, flight VARCHAR(8) NOT NULL, \
first_date DATE NOT NULL, last_date DATE NOT NULL, days VARCHAR(7) NOT NULL, leg INTEGER NOT \
NULL, departure_station CHAR(3) NOT NULL, departure_local CHAR(5) NOT NULL, departure_local_day \
INTEGER NOT NULL, departure_utc CHAR(5) NOT NULL, departure_utc_day INTEGER NOT NULL, \
departure_passenger CHAR(5), departure_terminal VARCHAR(4) NOT NULL, arrival_station CHAR(3) \
NOT NULL, arrival_local CHAR(5) NOT NULL, arrival_local_day INTEGER NOT NULL, arrival_utc \
CHAR(5) NOT NULL, arrival_utc_day INTEGER NOT NULL, arrival_passenger CHAR(5), arrival_terminal \
VARCHAR(4) NOT NULL, service VARCHAR(1) NOT NULL, aircraft VARCHAR(3) NOT NULL, bookings \
VARCHAR(20) NOT NULL, configuration VARCHAR(20) NOT NULL, columns_96_127 VARCHAR(32) NOT NULL, \
columns_129_172 VARCHAR(44) NOT NULL, doubtful INTEGER NOT NULL, PRIMARY KEY (timetable, \
flight, first_date, leg));
CREATE TABLE IF NOT EXISTS segment (timetable VARCHAR(7) NOT NULL, flight VARCHAR(8) NOT NULL, \
first_date DATE NOT NULL, leg INTEGER NOT NULL, place INTEGER NOT NULL, points VARCHAR(2) NOT \
NULL, identifier VARCHAR(3) NOT NULL, stations VARCHAR(6) NOT NULL, data VARCHAR(155) NOT NULL, \
PRIMARY KEY (timetable, flight, first_date, leg, place));
CREATE TABLE IF NOT EXISTS station_row (timetable VARCHAR(7) NOT NULL, place INTEGER NOT NULL, \
station CHAR(3) NOT NULL, first_date DATE NOT NULL, last_date DATE NOT NULL, utc_variation \
CHAR(5) NOT NULL, PRIMARY KEY (timetable, place));
CREATE TABLE IF NOT EXISTS message (timetable VARCHAR(7) NOT NULL, reference VARCHAR(32) NOT \
NULL, place INTEGER NOT NULL, kind CHAR(3) NOT NULL, date DATE NOT NULL, originator VARCHAR(7) \
NOT NULL, text TEXT NOT NULL, PRIMARY KEY (timetable, reference));
CREATE TABLE IF NOT EXISTS sub_message (timetable VARCHAR(7) NOT NULL, reference VARCHAR(32) \
NOT NULL, sub INTEGER NOT NULL, action CHAR(3) NOT NULL, flight VARCHAR(8) NOT NULL, first_date \
DATE NOT NULL, last_date DATE NOT NULL, days VARCHAR(7) NOT NULL, acted INTEGER NOT NULL, \
absent INTEGER NOT NULL, present INTEGER NOT NULL, no_leg INTEGER NOT NULL, no_station INTEGER \
NOT NULL, PRIMARY KEY (timetable, reference, sub));
CREATE TABLE IF NOT EXISTS change (timetable VARCHAR(7) NOT NULL, flight VARCHAR(8) NOT NULL, \
first_date DATE NOT NULL, last_date DATE NOT NULL, days VARCHAR(7) NOT NULL, side VARCHAR(3) \
NOT NULL, leg INTEGER NOT NULL, departure_station CHAR(3) NOT NULL, departure_local CHAR(5) NOT \
NULL, departure_local_day INTEGER NOT NULL, departure_utc CHAR(5) NOT NULL, departure_utc_day \
INTEGER NOT NULL, departure_passenger CHAR(5), departure_terminal VARCHAR(4) NOT NULL, \
arrival_station CHAR(3) NOT NULL, arrival_local CHAR(5) NOT NULL, arrival_local_day INTEGER NOT \
NULL, arrival_utc CHAR(5) NOT NULL, arrival_utc_day INTEGER NOT NULL, arrival_passenger \
CHAR(5), arrival_terminal VARCHAR(4) NOT NULL, service VARCHAR(1) NOT NULL, aircraft VARCHAR(3) \
NOT NULL, bookings VARCHAR(20) NOT NULL, configuration VARCHAR(20) NOT NULL, columns_96_127 \
VARCHAR(32) NOT NULL, columns_129_172 VARCHAR(44) NOT NULL, doubtful INTEGER NOT NULL, PRIMARY \
KEY (timetable, flight, first_date, side, leg));
";

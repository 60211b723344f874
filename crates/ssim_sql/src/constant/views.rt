//! Constant parts of a script. `make/schema.py` writes this file from the files of `schema/`.

/// Makes the views anew.
pub(crate) const VIEWS: &[u8] = b"\
CREATE INDEX IF NOT EXISTS day_date ON day (date);
CREATE INDEX IF NOT EXISTS leg_flight ON leg (flight, first_date);
CREATE INDEX IF NOT EXISTS leg_departure ON leg (departure_station, first_date);
CREATE INDEX IF NOT EXISTS leg_arrival ON leg (arrival_station, first_date);
CREATE INDEX IF NOT EXISTS sub_message_flight ON sub_message (flight);
DROP VIEW IF EXISTS flown;
DROP VIEW IF EXISTS departure;
DROP VIEW IF EXISTS arrival;
DROP VIEW IF EXISTS changed;
CREATE VIEW flown AS SELECT l.timetable, l.flight, d.date, l.leg, l.departure_station, p.date \
AS departure_date, l.departure_local AS departure_time, u.date AS departure_utc_date, \
l.departure_utc AS departure_utc_time, l.departure_terminal, l.arrival_station, a.date AS \
arrival_date, l.arrival_local AS arrival_time, v.date AS arrival_utc_date, l.arrival_utc AS \
arrival_utc_time, l.arrival_terminal, l.service, l.aircraft, l.bookings, l.configuration, \
l.doubtful FROM leg l JOIN day d ON d.date BETWEEN l.first_date AND l.last_date AND l.days LIKE \
'%' || d.weekday || '%' JOIN day p ON p.number = d.number + l.departure_local_day JOIN day a ON \
a.number = d.number + l.arrival_local_day JOIN day u ON u.number = d.number + \
l.departure_utc_day JOIN day v ON v.number = d.number + l.arrival_utc_day;
CREATE VIEW departure AS SELECT l.timetable, l.departure_station AS station, p.date AS day, \
l.departure_local AS time, l.flight, d.date, l.leg, l.aircraft, l.arrival_station AS \
to_station, a.date AS to_day, l.arrival_local AS to_time, l.doubtful FROM day p JOIN leg l ON \
l.first_date <= p.date JOIN day d ON d.number = p.number - l.departure_local_day AND d.date \
BETWEEN l.first_date AND l.last_date AND l.days LIKE '%' || d.weekday || '%' JOIN day a ON \
a.number = d.number + l.arrival_local_day;
CREATE VIEW arrival AS SELECT l.timetable, l.arrival_station AS station, p.date AS day, \
l.arrival_local AS time, l.flight, d.date, l.leg, l.aircraft, l.departure_station AS \
from_station, a.date AS from_day, l.departure_local AS from_time, l.doubtful FROM day p JOIN \
leg l ON l.first_date <= p.date JOIN day d ON d.number = p.number - l.arrival_local_day AND \
d.date BETWEEN l.first_date AND l.last_date AND l.days LIKE '%' || d.weekday || '%' JOIN day a \
ON a.number = d.number + l.departure_local_day;
CREATE VIEW changed AS SELECT c.timetable, c.flight, d.date, c.side, c.leg, \
c.departure_station, c.departure_local, c.arrival_station, c.arrival_local, c.service, \
c.aircraft FROM change c JOIN day d ON d.date BETWEEN c.first_date AND c.last_date AND c.days \
LIKE '%' || d.weekday || '%';
";

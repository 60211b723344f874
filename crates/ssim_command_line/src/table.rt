//! The table of the commands: a row has all that is told of a command, but the request that its
//! values make.

/// A word of a command, by the name that help shows.
#[derive(Clone, Copy)]
pub enum Word {
    /// The first value.
    First(&'static str),
    /// The second value.
    Second(&'static str),
    /// The third value.
    Third(&'static str),
    /// The fourth value.
    Fourth(&'static str),
    /// A second value that may be missing.
    Possible(&'static str),
    /// One or more values, after the others.
    Several(&'static str),
    /// Any number of values, after the others.
    Any(&'static str),
    /// An option of this name, with a value.
    Valued(&'static str, &'static str),
    /// An option of this name, with a value, that may come several times.
    Repeated(&'static str, &'static str),
    /// An option of this name, without a value.
    Flag(&'static str),
}

use Word::{Any, First, Flag, Fourth, Possible, Repeated, Second, Several, Third, Valued};

/// A row of the table.
pub struct CommandRow {
    /// The command's name.
    pub name: &'static str,
    /// Its values and options, in the order of help.
    pub words: &'static [Word],
}

/// The ids of the values of a command, in the order in which they are written.
pub const PLACES: [&str; 5] = ["first", "second", "third", "fourth", "texts"];

/// What the program is.
pub const ABOUT: &str = "A schedule desk for airline schedules in SSIM chapters 4, 5 and 7";

/// What help says after the lists of commands and options.
pub const EXAMPLES: &str = "\
A desk is a file: a data set, its station table, and the SSM and ASM texts that
it took.

Example:
  ssimdesk start season.ssim stations.txt fdh.desk
  ssimdesk take fdh.desk fdh.desk texts/01-holiday.ssm
  ssimdesk export fdh.desk > summer.ssim
The files of the examples are in samples/.

The commands by what they are for:
  each day:   receive, take, board, show, list, calendar, page, diff, history
  a desk:     start, texts, findings, withdraw, merge, carry, export, publish
  a data set: check, problems, tidy, select, convert, split
  also:       blame, info, stations, sql, explain, rehearse

For each file that is read, - is standard input.
With --explain before COMMAND, or if SSIMDESK_EXPLAIN is set and not empty, more
lines come after that of a refusal: the file or the word, and what to do.
Exit status: 0 if the command was done; 1 if it was refused, with a line
'refused', the number, the name and the place on standard error ('ssimdesk
explain NUMBER' says more); 2 if the words are no command; 3 if the command was
done with --status and found something.
'ssimdesk COMMAND --help' says more of a command.";

/// The table of the commands, in the order of help. A row has the command's name, its words, the
/// request that its values make, with the texts after the values and a field for its options, what
/// it does, and an example with what it prints and the exit status.
///
/// `commands!(rows of given)` is `rows!` of what is given and of all the rows. They are in two groups,
/// with a `;` between them: the help of all would be too long for one constant.
macro_rules! commands {
    ($rows:ident of $given:tt) => {
        $rows! { $given
        "check" [First("DATASET")] => Check(dataset)
        "Read a data set, and print its notes and a summary"
        "\
A note is a record serial or a check reference that is out of order.
Example:
  ssimdesk check season.ssim
prints, if nothing is wrong, the number of records, of flights and of notes:
  ok records 75 flights 41 notes 0
Exit status: 0, also with notes; 1 if the data set is refused or cannot be read."
        "problems" [First("DATASET"), Flag("csv"), Flag("status")]
            => Problems(dataset; form: problems_form_of)
        "Read a data set, and print every invalid record, not only the first"
        "\
Example:
  ssimdesk problems broken.ssim
prints what 'check' would refuse at each record if the invalid ones before it
were not there, and then the number of records and of problems:
  12 BadColumn record 7 column 37
  34 Overlap record 12
  records 75 problems 2
After an invalid header or carrier record, each record is checked by its own
columns only. With --csv it prints a row for each problem.
Exit status: 0, also with problems, but then 3 with --status; 1 if the data set
cannot be read."
        "tidy" [First("DATASET")] => Tidy(dataset)
        "Print a data set with its periods divided anew, in canonical form"
        "\
Example:
  ssimdesk tidy season.ssim > tidy.ssim
writes the same flights on the same dates, with serials from 000001 on.
Exit status: 0; 1 if the data set is refused, or a flight has more than 99
variations."
        "start" [First("DATASET"), Second("STATIONS"), Third("OUT"), Flag("notes")]
            => Start(dataset, stations, out; notes: notes_of)
        "Write the desk file of a data set and a station table"
        "\
Example:
  ssimdesk start season.ssim stations.txt fdh.desk
writes the file 'fdh.desk' and prints:
  held 0
With --notes it prints before that line a note for each station whose UTC
variation the table lacks ('missing') or contradicts ('other') on dates with a
leg, with the number of these dates, the first and the last of them:
  note Station ATH missing 86 04MAY27 29SEP27
Exit status: 0, also with notes; 1 if the data set or the table is refused, a
file cannot be read or written, another command holds OUT (92), or OUT is a file
of another kind (93)."
        "take" [First("DESK"), Second("OUT"), Several("TEXT"), Flag("effects")]
            => Take(desk, out; texts+; effects: effects_of)
        "Take SSM and ASM texts at a desk, if none of them is refused"
        "\
OUT may be the file DESK. Each TEXT is the file of one text. At the first that
is refused the command stops, and OUT is not written.
Example:
  ssimdesk take fdh.desk a.desk texts/01-holiday.ssm texts/09-holiday-again.ssm
prints the reference of each message, 'taken' if it is new and 'repeated' if it
was held:
  taken SSM 15MAR27 00001 001
  repeated SSM 15MAR27 00001 001
With --effects it then prints the lines of 'findings --not-acted OUT' that are
none of 'findings DESK', and the last line of 'diff DESK OUT':
  different flights 1 dates 1
Exit status: 0; 1 if the desk file or a text is refused, a file cannot be read
or written, another command holds OUT (92), or OUT is a file of another kind
(93)."
        "receive" [First("DESK"), Second("OUT"), Several("TEXT"), Valued("refused", "FILE"),
            Flag("csv"), Flag("status"), Flag("effects")]
            => Receive(desk, out; texts+; refused: refused_of; form?: receive_form_of)
        "Take all valid texts of mailbox files at a desk"
        "\
OUT may be the file DESK. A TEXT may have any number of texts, with their
envelopes and lines NNNN.
Example:
  ssimdesk receive fdh.desk new.desk mail.txt
prints the file and the line on which each text begins, with 'taken', 'repeated'
or its refusal, and the number of each:
  mail.txt:2 taken SSM 16MAR27 00003 001 MUCOPZ7
  mail.txt:11 refused 24 BadPeriod line 17
  taken 1 repeated 0 refused 1
With --csv it prints a row for each text instead. With --effects it then prints
what 'take --effects' prints; not with --csv.
Exit status: 0, also if texts were refused, but then 3 with --status; 1 if the
desk file is refused or cannot be read, a file cannot be written, another
command holds it (92), OUT is a file of another kind, or the file for refused
texts is not empty or is one of the others (93)."
        "merge" [First("DESK"), Second("OTHER"), Third("OUT"), Valued("since", "OLD"),
            Flag("effects")]
            => Merge(desk, other, out; since: since_of; effects: effects_of)
        "Write the desk file of a desk that holds the messages of two"
        "\
Both desks began from the same data set and station table. With --since OLD, the
desk file from which both came, a message that OLD holds and one of the two no
longer holds is left out: it was withdrawn there. OLD may be empty.
Example:
  ssimdesk merge fdh.desk ham.desk both.desk
writes the file 'both.desk' and prints the number of messages that it holds:
  held 3
With --effects it then prints what 'take --effects' prints.
Exit status: 0; 1 if a desk file is refused, the data sets or the tables differ
(61), the two hold different messages under one reference (60), a file cannot be
read or written, another command holds OUT (92), or OUT is a file of another
kind (93)."
        "carry" [First("DESK"), Second("OTHER"), Third("OUT"), Flag("effects")]
            => Carry(desk, other, out; effects: effects_of)
        "Write a desk with those messages of another that mean the same in it"
        "\
OUT may be the file DESK. OTHER may have begun from another data set of the same
airline and time mode. A message means the same if its reference has the same
year in both, and its dates are the same.
Example:
  ssimdesk carry new.desk old.desk new.desk
prints the reference of each message of OTHER, 'taken' if it means the same and
is new, 'repeated' if DESK holds it, and 'left' if it does not mean the same,
and then the number of messages in OUT:
  left SSM 15MAR27 00002 001
  taken SSM 05MAY27 00001 001
  held 1
With --effects it then prints what 'take --effects' prints.
Exit status: 0, also if messages are left; 1 if a desk file is refused, airline
or time mode differ (61), DESK holds another message under the reference of one
that means the same (60), a file cannot be read or written, another command
holds OUT (92), or OUT is a file of another kind (93)."
        "texts" [First("DESK"), Any("FLIGHT"), Flag("csv"), Valued("from", "DATE"),
            Valued("to", "DATE")]
            => Texts(desk; flights; csv: csv_of; span: span_of)
        "Print messages of a desk as texts: all, or of some flights or dates"
        "\
The texts are canonical, in order of reference. 'carry' brings messages to a
desk of another data set: there a text without a year may mean other dates.
Example:
  ssimdesk texts fdh.desk Z7103 Z7111
prints each text, with an empty line between two:
  SSM
  LT
  15MAR00001E001
  CNL
  Z7103
  24MAY27 24MAY27 1
With --from or --to it prints those of which a sub-message has one of these
dates; with flights, a sub-message of one of the flights. With --csv it prints a
row for each such sub-message: reference, number, action, flight and period.
Exit status: 0, also if no message is printed; 1 if the desk file is refused, a
word is no flight (6) or date (1), the airline is another one (41), or --from is
after --to (43)."
        "withdraw" [First("DESK"), Second("OUT"), Several("REFERENCE"), Flag("effects")]
            => Withdraw(desk, out; references+; effects: effects_of)
        "Write a desk file as if some of its messages had never come"
        "\
OUT may be the file DESK.
Example:
  ssimdesk withdraw fdh.desk fdh.desk 'SSM 15MAR27 00002 001'
prints each reference, after 'withdrawn', or 'not held' if the desk does not
hold it:
  withdrawn SSM 15MAR27 00002 001
With --effects it then prints what 'take --effects' prints.
A merge with a desk that still holds the message brings it back.
Exit status: 0, also if no message was held; 1 if the desk file is refused, a
word is no reference (21), a file cannot be read or written, another command
holds OUT (92), or OUT is a file of another kind (93)."
        "show" [First("FILE"), Second("FLIGHT"), Several("FLIGHT/DATE")]
            => Show(file, flight; words+)
        "Print the legs of flights on a date of origin"
        "\
Example:
  ssimdesk show fdh.desk Z7101 20MAY27
prints the flight and the date, then 'no flight' or a line for each leg: its
sequence; the departure station, passenger and aircraft time, and UTC variation;
the arrival station, aircraft and passenger time, and UTC variation; the date
variations; the service type and the aircraft type, with . for each blank:
  Z7101 20MAY27
  01 FDH 0630 0630 +0200 HAM 0755 0755 +0200 00 J E90
The date is the last word. Between two flights is an empty line.
Exit status: 0, also if there is no flight; 1 if FILE is neither a desk file nor
a data set (62), FLIGHT is no designator (6), DATE is no date (1), or another
airline is named (41)."
        "history" [First("FILE"), Second("FLIGHT"), Several("FLIGHT/DATE"), Flag("csv")]
            => History(file, flight; words+; csv: csv_of)
        "Print what each message of a desk did to flights on a date"
        "\
Example:
  ssimdesk history fdh.desk Z7103 24MAY27
prints the flight and the date, the legs in the data set, and a line for each
sub-message that names the flight and whose period holds the date: its
reference, its number, its action, and what it found (a word of 'findings').
After each that acted are the legs that it left, or 'no flight'; the last are
those of 'show'. A leg that was changed ends in ' *' if its line is that of one
before. A data set has no messages:
  Z7103 24MAY27
  data set
    01 FDH 1730 1730 +0200 HAM 1920 1920 +0200 00 J AT7
  SSM 15MAR27 00001 001 1 CNL acted
    no flight
The date is the last word. Between two flights is an empty line. With --csv it
prints rows, one for each leg, or without a leg.
Exit status: 0; 1 if FILE is neither a desk file nor a data set (62), FLIGHT is
no designator (6), DATE is no date (1), or the airline is another one (41)."
        "blame" [First("FILE"), Several("FLIGHT"), Flag("csv")]
            => Blame(file; flights+; csv: csv_of)
        "Print which message acted last on each date of flights"
        "\
Example:
  ssimdesk blame fdh.desk Z7401
prints for each period the flight, the first and the last date, the days of
operation, and the last sub-message that acted on these dates: its reference,
its number and its action, or 'data set' if none did:
  Z7401 30MAR27 11JUN27 .2..5.. data set
  Z7401 15JUN27 15JUN27 .2..... ASM 11JUN27 00001 001 1 NEW
  Z7401 18JUN27 29OCT27 .2..5.. data set
After a 'CNL' the flight does not fly. The line of a flight without dates is
'Z7999 no flight'. With --csv it prints a row for each period.
Exit status: 0, also if there is no flight; 1 if FILE is neither a desk file nor
a data set (62), a word is no flight (6), or the airline is another one (41)."
        "list" [First("FILE"), Any("FLIGHT"), Flag("csv"), Flag("dates"), Valued("from", "DATE"),
            Valued("to", "DATE"), Repeated("station", "STATION"), Repeated("aircraft", "TYPE")]
            => List(file; flights; form: form_of; choice = choice_of)
        "Print the periods of all flights, or of some, and their legs"
        "\
Example:
  ssimdesk list fdh.desk Z7341
prints for each period the flight, the first and the last date and the days of
operation, with . for a day without, and a line for each leg as in 'show':
  Z7341 28MAR27 02JUL27 1.3.567
    01 HAM 0540 0540 +0200 PMI 0825 0825 +0200 00 J 320
  ...
A leg that differs from another leg of the flight with the same line ends in
' *'. The periods are those of the export. The line of a flight without dates is
'Z7999 no flight'.
  ssimdesk list --dates fdh.desk Z7341
prints a line for each date and leg:
  Z7341 28MAR27 01 HAM 0540 0540 +0200 PMI 0825 0825 +0200 00 J 320
With --from, --to, --station or --aircraft it is the list of 'select'.
Exit status: 0; 1 if the file is refused, a word is no flight (6), station (3),
aircraft type (25) or date (1), the airline is another one (41), or --from is
after --to (43)."
        "board" [First("FILE"), Second("STATION"), Third("DATE"), Flag("csv"), Valued("days", "N"),
            Flag("departures"), Flag("arrivals")]
            => Board(file, station, date; form?: board_form_of)
        "Print the departures and arrivals at a station on a local date"
        "\
Example:
  ssimdesk board fdh.desk FDH 15JUN27
prints by local time, departures first: the time, 'dep' or 'arr', the flight,
its date of origin, the leg sequence and the aircraft type, with . for each
blank; the other station and its local time; and how many days its local date is
from DATE, if not 0:
  0630 dep Z7101    15JUN27 01 E90 HAM 0755
  ...
  2145 arr Z7104    15JUN27 01 AT7 HAM 1955
  2230 dep Z7401    15JUN27 01 320 DXB 0640 +1
Times are the aircraft's. A line ends in ' ?' if a date variation is neither a
digit nor blank, or in UTC mode a UTC variation is blank: both count as 0.
  ssimdesk board --days 7 --departures fdh.desk FDH 15JUN27
prints the departures of a week, each date under a heading of station and date.
Between two dates is an empty line. N is 1 to 366; no date is after 31DEC99.
With --csv it prints a row for each line, with the station and the date.
Exit status: 0, also with 'no flight'; 1 if the file is refused, STATION is no
station (3), or DATE is no date (1)."
        ;
        "calendar" [First("FILE"), Several("FLIGHT"), Valued("from", "DATE"), Valued("to", "DATE"),
            Repeated("station", "STATION"), Repeated("aircraft", "TYPE")]
            => Calendar(file; flights+; choice = choice_of)
        "Print the dates of flights as pictures, and where they change"
        "\
Example:
  ssimdesk calendar fdh.desk Z7341
prints the flight with its first and last date, the month and the day of each
Monday, a column for each week and a row for each weekday:
  Z7341 28MAR27 30OCT27
  ...
  6  AAAAAAAAAAAAABBBBBBBBBAAAAAAAAA
  7 AAAAAAAAAAAAAABBBB.............
A letter stands for the legs on the date, . for a date without the flight. Then
it prints for each letter the number of dates and the legs:
  A 129 01 HAM 0540 0540 +0200 PMI 0825 0825 +0200 00 J 320
  B  13 01 HAM 0540 0540 +0200 PMI 0825 0825 +0200 00 J 32N
Between two flights is an empty line. With --from, --to, --station or --aircraft
it is the calendar of 'select'.
Exit status: 0, also if there is no flight; 1 if the file is refused, a word is
no flight (6), station (3), aircraft type (25) or date (1), the airline is
another one (41), or --from is after --to (43)."
        "info" [First("FILE")] => Info(file)
        "Print what a desk or a data set is, and how much it has"
        "\
Example:
  ssimdesk info fdh.desk
prints lines such as
  flights 42
for: kind, airline, season, validity, mode, created and records; flights,
stations, dates, first and last; of a desk also rows, messages and latest.
Exit status: 0; 1 if the file is refused."
        "stations" [First("FILE")] => Stations(file)
        "Print the station table that the legs of a desk or a data set say"
        "\
Example:
  ssimdesk stations season.ssim > mine.txt
  ssimdesk start season.ssim mine.txt fdh.desk
Exit status: 0; 1 if the file is refused."
        "sql" [First("FILE")] => Sql(file)
        "Print a desk or a data set as an SQL script that fills a database"
        "\
Example:
  ssimdesk sql fdh.desk | sqlite3 -bail summer.db
  sqlite3 summer.db 'SELECT flight, time FROM departure'
makes the tables timetable, day, leg, segment, station_row, message, sub_message
and the views flown, departure and arrival. A second run brings the rows of this
airline and season up to date; those of others stay.
Exit status: 0; 1 if the file is refused."
        "diff" [First("FROM"), Second("TO"), Any("FLIGHT"), Flag("csv"), Flag("summary"),
            Flag("status"), Valued("from", "DATE"), Valued("to", "DATE"),
            Repeated("station", "STATION"), Repeated("aircraft", "TYPE")]
            => Diff(from, to; flights; form?: diff_form_of; choice = choice_of)
        "Print on which dates two timetables differ, and how"
        "\
Example:
  ssimdesk diff season.ssim fdh.desk
prints for each period on which a flight differs a line with the flight, the
first and the last date and the days of operation, and its legs by sequence: '-'
before a leg of FROM, '+' before one of TO, two blanks before a leg that both
have. The last line has the number of flights that differ and of their dates, or
is 'same':
  Z7341 03JUL27 31JUL27 .....67
  - 01 HAM 0540 0540 +0200 PMI 0825 0825 +0200 00 J 320
  + 01 HAM 0540 0540 +0200 PMI 0825 0825 +0200 00 J 32N
  ...
  different flights 13 dates 101
Legs of one sequence that differ although their lines are equal end in ' *'.
  ssimdesk diff --from 1jul27 --station PMI season.ssim fdh.desk 341
prints of these flights only the dates that 'list' chooses of FROM or of TO by
the same words, with the legs of both, and the last line counts these.
  ssimdesk diff --summary season.ssim planned.ssim
prints no periods, but how many flights and dates have each kind of change:
  added flights 1 dates 26
  cancelled flights 2 dates 8
  retimed flights 1 dates 60
  ...
The kinds are 'added', 'cancelled', 'rerouted', 'retimed', 'equipment' and
'other'. Each date has the first that fits; a flight counts in each that it has.
With --csv it prints a row for each leg, with the kind and the side: 'old',
'new' or 'both'.
Exit status: 0, also if they differ, but then 3 with --status; 1 if a file is
refused, the airline (41) or the time mode (40) of TO is another one, a word is
no flight (6), station (3), aircraft type (25) or date (1), the airline of a
flight is another one (41), or --from is after --to (43)."
        "publish" [First("FROM"), Second("TO"), Third("REFERENCE"), Fourth("OUT")]
            => Publish(from, to, reference, out)
        "Write the SSM texts that lead one timetable to another"
        "\
A desk that holds what FROM holds takes them, and has the timetable of TO.
Example:
  ssimdesk publish monday.desk friday.desk 05JUN00001E001 change.ssm
writes the file 'change.ssm', which 'receive' takes, and prints for each text
its reference and the number of its sub-messages, then each period of dates that
no message can say, with the reason, and the numbers of all:
  text SSM 05JUN27 00001 001 subs 12
  unsaid Z7501 04SEP27 30OCT27 .....6. 01 53-54
  texts 1 subs 12 unsaid dates 9
From text to text the group serial of the reference, 00001, rises by one.
Exit status: 0, also if dates are unsaid; 1 if a file is refused, the airline
(41) or the time mode (40) of TO is another one, REFERENCE is no reference (21),
has no date (42), or does not come after all messages of FROM (64), the group
serial would pass 99999 (65), OUT cannot be written or is held by another
command (92), or OUT is a desk file or a data set (93)."
        "page" [First("FILE"), Possible("TO")] => Page(from?, file)
        "Print a timetable as one page of HTML, for a browser"
        "\
Of two files it is the page of TO, with its changes from FILE.
Example:
  ssimdesk page fdh.desk > fdh.html
writes a page that needs no other file: the timetable as a line for each flight
with its weeks, the departures and arrivals of a day, what changed from the data
set, the messages with what each of them found, and the network.
  ssimdesk page monday.desk friday.desk > friday.html
writes the page of 'friday.desk' with what changed from 'monday.desk', as in
'diff'.
Exit status: 0; 1 if a file is refused or cannot be read, or of two files the
airline (41) or the time mode (40) of TO is another one."
        "findings" [First("DESK"), Any("FLIGHT"), Flag("csv"), Flag("not-acted"),
            Valued("from", "DATE"), Valued("to", "DATE")]
            => Findings(desk; flights; form: findings_form_of; span: span_of)
        "Print on how many dates each message acted, and why not on others"
        "\
Example:
  ssimdesk findings fdh.desk
prints the reference, the number of the sub-message, its action and flight, and
the dates:
  SSM 15MAR27 00001 001 1 CNL Z7103 acted 1 absent 0 present 0 leg 0 station 0
With --not-acted it prints only the sub-messages that did not act on a date of
their period, or have none. With --from or --to it counts only these dates, and
leaves out a sub-message without one. With --csv it prints a row for each
sub-message.
Exit status: 0; 1 if the desk file is refused or cannot be read, a word is no
flight (6) or date (1), the airline is another one (41), or --from is after --to
(43)."
        "export" [First("DESK")] => Export(desk)
        "Print the timetable of a desk as a data set, in canonical form"
        "\
Example:
  ssimdesk export fdh.desk > summer.ssim
Exit status: 0; 1 if the desk file is refused, or a flight has more than 99
variations."
        "select" [First("FILE"), Any("FLIGHT"), Valued("from", "DATE"), Valued("to", "DATE"),
            Repeated("station", "STATION"), Repeated("aircraft", "TYPE")]
            => Select(file; flights; choice = choice_of)
        "Print a data set with some flights, stations and dates alone"
        "\
A flight date is in it, whole, if the flight is a FLIGHT, a leg departs from a
STATION or arrives there, a leg has an aircraft TYPE, and the date of origin is
from --from to --to. Where none is named, all are. --station and --aircraft may
come several times.
Example:
  ssimdesk select --station KEF --from 1jul27 --to 31jul27 fdh.desk > kef.ssim
writes a data set that has the header and the validity of the whole. Do not send
it to a system that takes a file for all flights of its validity.
Exit status: 0, also if nothing is chosen; 1 if the file is refused, a word is
no flight (6), station (3), aircraft type (25) or date (1), the airline is
another one (41), --from is after --to (43), or a flight has more than 99
variations."
        "convert" [First("MODE"), Second("FILE"), Third("OUT")] => Convert(mode: mode_of, file, out)
        "Write the data set of a timetable in UTC or in local time"
        "\
MODE is 'utc' or 'local'. A UTC variation that is blank in FILE is taken from
the station table of a desk.
Example:
  ssimdesk convert utc season.ssim utc.ssim
writes the file 'utc.ssim' and prints the number of flight dates in it, how many
of them have another date of origin than before, and how many are left out:
  dates 4645 moved 43 left 0
Before that line it prints the periods of the flight dates that have no place in
a data set of the other mode, each with the reason:
  left Z7801 31OCT27 31OCT27 ......7 date
The reason is 'station' or 'letter' with the sequence of a leg: no UTC variation
for its station and date, or a date variation that is no digit; 'calendar': the
date is before 01JAN00 or after 31DEC99; 'days' with the sequence of a leg: it
arrives on the day before the date of origin, or more than 9 days after it;
'date': an earlier date has come to the same new date.
Texts then name the new dates. A data set holds no message: start a desk of it.
Exit status: 0, also if dates are left; 1 if FILE is refused or cannot be read,
a flight has more than 99 variations, OUT cannot be written or is held by
another command (92), or OUT is a file of another kind (93)."
        "split" [First("DATASET"), Second("PREFIX")] => Split(dataset, prefix)
        "Write a data set for each carrier of a data set of several carriers"
        "\
Example:
  ssimdesk split world.ssim new-
writes the files 'new-Z7.ssim' and 'new-Z7-2.ssim', and prints what becomes of
each carrier:
  Z7 kept new-Z7.ssim records 74 flights 41 notes 0
  LX refused 37 Frequency record 96
  Z7 kept new-Z7-2.ssim records 76 flights 42 notes 0
  carriers 3 kept 2 refused 1
The number of records is without fill and without the header. Before the line of
a carrier are its notes, as 'check' prints them. 'note Continuation' has the
number of a trailer whose end code is C and no carrier follows, or E and one
does. The airline is '?' if the carrier record is invalid.
A file 'new-LX.ssim' of another day stays if LX is refused. PREFIX may end with
a folder, as 'new/'.
Exit status: 0, also if carriers are refused; 1 if the data set does not begin
with a header and a carrier record, or cannot be read to its end, or a file
cannot be written, is held by another command (92) or is of another kind (93).
The files before that one are written."
        "rehearse" [First("DATASET"), Second("STATIONS"), Third("SCRIPT")]
            => Rehearse(dataset, stations, script)
        "Run a script of takes and merges on several desks: do they agree?"
        "\
The first line of a script is 'DESKS n', n from 1 to 9. Each other line is
'TAKE d NAME', desk d takes the text in the file NAME, or 'MERGE d e', desk d
takes what desk e holds.
Example:
  ssimdesk rehearse season.ssim stations.txt rehearsal.txt
prints a line for each step and each desk, and then whether all desks are the
same:
  1 taken SSM 15MAR27 00001 001
  ...
  desk 3 held 6 bytes 20100
  same
Exit status: 0, also if the desks differ or a step is refused; 1 if the data
set, the table or the script (63) is refused, or a file cannot be read."
        "explain" [First("WORD"), Flag("status")] => Explain(word; status: status_of)
        "Print what a refusal means, or what is invalid in a file"
        "\
Example:
  ssimdesk explain 12
prints an example of the line, what it means, and what to do:
  refused 12 BadColumn record 3 column 37
  BadColumn: the field that begins there is invalid
  what to do: compare it with the field's row in docs/FORMATS.md
So does 'explain BadColumn'; of a line that was printed it prints that line.
  ssimdesk explain texts/14-no-such-date.ssm
prints the refusal of the file and the line, or 'valid' and what it is. A data
set begins with a digit, a desk file with SSIMDESK, a script with DESKS, a text
with a line of one part; any other file is a station table. Of a file of another
program, such as gzip, it prints what to do.
Exit status: 0, also if no refusal has the number; with --status 3 if the file
is invalid, or a text of a mailbox is; 1 if the file cannot be read."
        }
    };
}

pub(crate) use commands;

macro_rules! rows {
    (() $($($name:literal [$($word:expr),+] => $request:ident $fields:tt
        $about:literal $example:literal)+);+) => {
        &[$($(CommandRow { name: $name, words: &[$($word),+] }),+),+]
    };
}

/// The rows of the table.
pub const COMMANDS: &[CommandRow] = commands!(rows of ());

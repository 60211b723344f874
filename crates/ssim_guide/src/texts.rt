//! The texts on each refusal, in the order of their numbers. `docs/REFUSALS.md` is written from
//! them.

ghost use Rattle.std.specs.Prelude.{◌≡◌, map};
ghost use Rattle.ssim_guide.specs.Words.{refusal_numbers};

use crate::explanation::Explanation;

const MESSAGE: &str = "correct the line, or ask the originator for the message again";

const WHOLE: &str = "ask for the whole data set; the end of a file is often lost in a transfer";

const ONE_AIRLINE: &str = "split the file: a data set has one airline";

const UNSUPPORTED: &str = "not supported: split the flight's periods, or write weekly periods";

const TOO_LARGE: &str =
    "a chapter 7 data set cannot say it: combine the flight's single dates, or select parts of it";

const TABLE: [Explanation; 43] = [
    Explanation {
        number: 1,
        meaning: "the date is not spelled as 05JUN27 or 2027-06-05, or no day of the calendar",
        remedy: "correct the word",
    },
    Explanation {
        number: 3,
        meaning: "the station is not three letters",
        remedy: "correct the word",
    },
    Explanation {
        number: 6,
        meaning: "the flight is no flight number, with an airline before it or without",
        remedy: "correct the word",
    },
    Explanation {
        number: 10,
        meaning: "the data set ends within the record",
        remedy: "look for a line that was cut or a blank that was lost at the record's end",
    },
    Explanation {
        number: 11,
        meaning: "column 1 is not 1 to 5, or a record of this type is invalid in this place",
        remedy: "check the order: header, carrier, legs and segments, trailer",
    },
    Explanation {
        number: 12,
        meaning: "the field that begins there is invalid",
        remedy: "compare it with the field's row in docs/FORMATS.md",
    },
    Explanation {
        number: 20,
        meaning: "a text begins with SSM or ASM, or with an originator line and then these",
        remedy: MESSAGE,
    },
    Explanation {
        number: 21,
        meaning: "a reference line was expected, or a word that is a reference as it is printed",
        remedy: MESSAGE,
    },
    Explanation {
        number: 22,
        meaning: "an action was expected: NEW, CNL, RPL, EQT or TIM",
        remedy: MESSAGE,
    },
    Explanation {
        number: 23,
        meaning: "a flight was expected, with a date in an ASM",
        remedy: MESSAGE,
    },
    Explanation {
        number: 24,
        meaning: "a first date, a last date and days of operation were expected",
        remedy: MESSAGE,
    },
    Explanation {
        number: 25,
        meaning: "service type and aircraft type were expected, or a word that is an aircraft type",
        remedy: MESSAGE,
    },
    Explanation {
        number: 26,
        meaning: "a leg line was expected, or a segment line whose points are on the way",
        remedy: MESSAGE,
    },
    Explanation {
        number: 27,
        meaning: "there is a line too many after CNL or EQT",
        remedy: MESSAGE,
    },
    Explanation {
        number: 28,
        meaning: "the 251st sub-message, the 21st leg line or the 100th segment line; at line 1 a text of more than 65,536 bytes",
        remedy: MESSAGE,
    },
    Explanation {
        number: 29,
        meaning: "the line has a byte outside 32 to 126",
        remedy: MESSAGE,
    },
    Explanation {
        number: 30,
        meaning: "the first record is no header",
        remedy: WHOLE,
    },
    Explanation {
        number: 31,
        meaning: "the second is no carrier record",
        remedy: WHOLE,
    },
    Explanation {
        number: 32,
        meaning: "there is no trailer; the number is the one that it would have",
        remedy: WHOLE,
    },
    Explanation {
        number: 33,
        meaning: "another airline than the carrier record's",
        remedy: ONE_AIRLINE,
    },
    Explanation {
        number: 34,
        meaning: "an earlier record has the same flight and leg sequence on one of its dates",
        remedy: "correct the periods or the days of operation of one of them",
    },
    Explanation {
        number: 35,
        meaning: "no earlier leg record has this flight, variation and sequence",
        remedy: "put the segment after its leg, or correct these columns",
    },
    Explanation {
        number: 36,
        meaning: "the itinerary variation overflows",
        remedy: UNSUPPORTED,
    },
    Explanation {
        number: 37,
        meaning: "a frequency rate other than weekly",
        remedy: UNSUPPORTED,
    },
    Explanation {
        number: 38,
        meaning: "another carrier is to follow",
        remedy: ONE_AIRLINE,
    },
    Explanation {
        number: 39,
        meaning: "the line of the station table is no row",
        remedy: "a row is ZRH 30MAR25 25OCT25 +0200",
    },
    Explanation {
        number: 40,
        meaning: "the text has the other time mode than the data set. For publish and diff TO has the other one than FROM",
        remedy: "convert the data set, or ask for the message in its time mode",
    },
    Explanation {
        number: 41,
        meaning: "the flight is another airline's; 0 for the flight of a command. For publish and diff TO is another airline's than FROM",
        remedy: "send the message to that airline's desk",
    },
    Explanation {
        number: 42,
        meaning: "a date without a year does not come before the end of 2099; 0 for the date of the reference",
        remedy: "correct the date",
    },
    Explanation {
        number: 43,
        meaning: "the first day of the period is after the last; 0 for the dates of a command",
        remedy: "correct the date",
    },
    Explanation {
        number: 50,
        meaning: "the flight needs more than 99 itinerary variations",
        remedy: TOO_LARGE,
    },
    Explanation {
        number: 51,
        meaning: "the export needs more than 999,999 records",
        remedy: TOO_LARGE,
    },
    Explanation {
        number: 52,
        meaning: "standard output failed, or took nothing; it may have taken a prefix of what was to be written",
        remedy: "free the disk, or mend the pipe, and run the command again",
    },
    Explanation {
        number: 60,
        meaning: "the desk holds another message under this reference. For merge and carry it is the first such reference",
        remedy: "one of the two was sent under a wrong reference: ask the originator",
    },
    Explanation {
        number: 61,
        meaning: "the two desks have different data sets or station tables. For carry they have different airlines or time modes",
        remedy: "merge desks of one season; to a desk of another data set messages are brought by carry",
    },
    Explanation {
        number: 62,
        meaning: "the element at this offset is invalid",
        remedy: "take the desk file from a backup, or start again and take the messages again",
    },
    Explanation {
        number: 63,
        meaning: "the line of the script is invalid",
        remedy: "a script is DESKS n, then lines TAKE d FILE and MERGE d e",
    },
    Explanation {
        number: 64,
        meaning: "FROM holds this message, and the reference of publish does not come after it",
        remedy: "choose a later reference",
    },
    Explanation {
        number: 65,
        meaning: "the messages are too many: the group serial would pass 99999",
        remedy: "choose a lower group serial, of a later date",
    },
    Explanation {
        number: 90,
        meaning: "there was not enough memory",
        remedy: "give the program more memory; nothing was changed",
    },
    Explanation {
        number: 91,
        meaning: "the file was not read, has more than 268,435,456 bytes, or was not written",
        remedy: "check the name, the permission and the disk",
    },
    Explanation {
        number: 92,
        meaning: "another command holds the file, or the file changed after it was read",
        remedy: "run the command again; a job can wait by flock on another file than this one",
    },
    Explanation {
        number: 93,
        meaning: "the file is of another kind than what is to be written there, or the command reads it",
        remedy: "see whether OUT was left out; write to another file, or remove this one if nobody needs it",
    },
];

/// The rows of the table.
pub(crate) fn explanations() -> &'static [Explanation]
    ensures { map (λ e. e.number) result.now ≡ refusal_numbers }
{
    &TABLE
}

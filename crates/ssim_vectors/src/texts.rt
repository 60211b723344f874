//! A station table, texts and desk scripts.

/// The UTC variations of ZRH and LHR in summer 2025, and in the winter after it.
pub const STATIONS: &[u8] = b"\
ZRH 30MAR25 25OCT25 +0200\n\
LHR 30MAR25 25OCT25 +0100\n\
ZRH 26OCT25 28MAR26 +0100\n\
LHR 26OCT25 28MAR26 +0000\n\
";

/// Cancels LX544 on 01JUL25, a Tuesday.
pub const ONE_DATE_CANCELLED: &[u8] = b"SSM\nUTC\n01JUN00001E001\nCNL\nLX544\n01JUL25 07JUL25 2\n";

/// Cancels LX544 on the Wednesdays of summer 2025.
pub const ONE_WEEKDAY_CANCELLED: &[u8] =
    b"SSM\nUTC\n01JUN00002E001\nCNL\nLX544\n30MAR25 25OCT25 3\n";

/// Changes the times of LX544 on the Mondays of July 2025.
pub const TIMES_CHANGED_ON_MONDAYS: &[u8] =
    b"SSM\nUTC\n01JUN00003E001\nTIM\nLX544\n01JUL25 31JUL25 1\nZRH0600 LHR0715\n";

/// A text with every part that a message may have.
pub const EVERY_PART: &[u8] = b"\
ASM\n\
LT\n\
23MAY00144E003/REF 123\n\
RPL\n\
SWR7A/01JUL\n\
J 320 .C12Y138\n\
ZRH2350 LHR0020/1/0025\n\
//\n\
SI FREE TEXT\n\
";

/// Its canonical text.
pub const EVERY_PART_WRITTEN: &[u8] = b"\
ASM\n\
LT\n\
23MAY00144E003/REF 123\n\
RPL\n\
SWR007A/01JUL\n\
J 320 .C12Y138\n\
ZRH2350 LHR0020/1/0025\n\
//\n\
SI FREE TEXT\n\
";

/// Two desks take two texts in different orders. The texts are in files of these names.
pub const TWO_DESKS: &[u8] = b"\
DESKS 2\n\
TAKE 1 one_date_cancelled\n\
TAKE 1 one_weekday_cancelled\n\
TAKE 2 one_weekday_cancelled\n\
TAKE 2 one_date_cancelled\n\
TAKE 2 one_date_cancelled\n\
";

/// Three desks take a text each, and are merged into one another.
pub const THREE_DESKS: &[u8] = b"\
DESKS 3\n\
TAKE 1 one_date_cancelled\n\
TAKE 2 times_changed_on_mondays\n\
TAKE 3 one_weekday_cancelled\n\
MERGE 1 2\n\
MERGE 1 3\n\
MERGE 2 3\n\
MERGE 2 1\n\
MERGE 3 1\n\
";

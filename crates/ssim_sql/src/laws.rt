//! What is true of any script.

ghost use Rattle.ssim_sql.specs.Keys.{NoKeyTwice};
ghost use Rattle.ssim_sql.specs.LegRows.{RowsAreItineraries};
ghost use Rattle.ssim_sql.specs.Literal.{ReadsBack};
// The worked examples, which are computed: a false one is an error in this file.
ghost use Rattle.ssim_sql.specs.examples.Changes;

/// A text of SQL is read back as its characters, whatever its bytes are.
pub fn texts_read_back()
    ensures { ReadsBack }
{}

/// No two rows of a table have one key, so a database refuses no row of a script for its key.
pub fn no_two_rows_have_one_key()
    ensures { NoKeyTwice }
{}

/// The rows of `leg` are the timetable: those of a flight whose periods hold a date are, in their
/// order, the legs of the flight on this date.
pub fn rows_of_legs_are_the_timetable()
    ensures { RowsAreItineraries }
{}

//! Runs the program on the cases of its standard input, and prints what each run wrote.
//!
//! A line of the cases begins with a word:
//!
//! - `#`: a remark; `case TITLE`: a new case, with no file and no bytes. The line is printed.
//! - `let NAME TEXT`: the name of a line. It lasts to the end of the input.
//! - `| TEXT`, `= NAME`: a line is added to the bytes, shown or named; a worked vector
//!   has a name, too, for its lines. `times COUNT NAME` adds them COUNT times. `^ COLUMN
//!   TEXT` writes over the last one from a column on.
//! - `at OFFSET TEXT` writes over the bytes from an offset on; `cut COUNT`: the last bytes go.
//! - `out`: what the last run printed is added to the bytes; `load NAME`: the bytes of a file are.
//! - `file NAME`: the bytes become a file.
//! - `fails out COUNT`: in the next run the standard output takes this many bytes and then fails;
//!   `fails err COUNT`: so does the standard error; `fails flush always`: no flush of the standard
//!   output works; `stops out COUNT`: the standard output takes this many bytes and then none of
//!   each call; `fails store memory`, `fails store always`: the store is out of memory, or gives
//!   no file; `fails keep memory`, `fails keep always`: so it is only if a file is to be kept;
//!   `fails file COUNT`: a file gives this many bytes and then fails.
//! - `desks COUNT DATASET STATIONS`: new desks over the base of two files, numbered from 1; `more`
//!   adds desks over another base; `copy DESK` adds one over a copy of the base of a desk.
//! - `take DESK FILE`, `merge DESK DESK`: what it returns is printed. `same`: whether all desks
//!   have equal exports.
//! - `save DESK NAME`: its desk file becomes a file; `open NAME LIMIT`: adds the desk of a file of
//!   at most LIMIT bytes.
//! - `held DESK`, `findings DESK`, `export DESK` (the number of bytes), `again DESK` (whether the
//!   export, read and exported, is the same); `pieces DESK FLIGHT`, `tails DESK FLIGHT`, with the
//!   flight as columns 3-9 have it: columns 15-35, 40-43, 48-52, 58-61, 66-70 and 73-75 of its leg
//!   records, 12-13 and 29-53 of its segment records.
//! - `cuts DESK FLIGHT DAY ..`: its cuts that are not listed; `applied DESK LEAST MOST`: whether
//!   the count is within.
//! - `read DATASET STATIONS`: reads a base, and prints how many records it has; `start DATASET
//!   STATIONS`: adds a desk over a base.
//! - `decode FILE`, `encode FILE`: the canonical text of a message, as it was kept or as it is
//!   written; `resolve DESK FILE`: its reference, and flights and dates of its sub-messages, in the
//!   base of a desk.
//! - `steps FILE`: tries the lines of a file, as `TAKE 1 FILE` and `MERGE 1 2`, in one call, and
//!   prints the result of each.
//! - `guard FIRST LAST FLIGHT ..`: from here on, when a call on desks, texts or bases runs out of
//!   memory (90, or 52 of `save` and `export`), all desks have to be as before, and it is made
//!   again. Compared are what the desks hold, their findings, files and exports, and the
//!   itineraries of these flights from the first to the last day, which are numbers.
//! - `cancels FLIGHT DAY STEP COUNT`: sub-messages are added to the bytes, which each cancel the
//!   flight on one date.
//! - `run WORD ..`: the program runs on its name and these words. A word with blanks is between two
//!   `'`. The file `-` is its standard input.
//! - `history FILE`: the program runs on its name and the words of each line of the file, one command
//!   after another.
//! - `show NAME`, `size NAME`: the bytes of a file, or their number; `equal NAME NAME`: whether two
//!   files have the same bytes.
//! - `prefixes NAME WORD ..`: runs the program for each prefix of a file, which then has the name
//!   `prefix`, and prints the results. Neighbouring lengths with the same result are printed
//!   together.
//!
//! - `opens HOW STEP FILE`, `reads HOW STEP DATASET STATIONS`, `saves HOW STEP DESK`, `exports HOW
//!   STEP DESK`, `puts HOW STEP FILE`: a desk file is opened, a base is read, a desk is saved or
//!   exported, the bytes of a file are put in one call, each with a reader or writer of std that
//!   moves a number of bytes and then fails (`fail`) or moves none (`stop`), for each number
//!   from 0 on in steps, up to all of them. Finding the end counts as a byte.
//!
//! In a text `<17>` is seventeen blanks, `<200*0>` two hundred zeros, `<x3C>` a byte by its
//! hexadecimal digits. The transcript shows bytes in the same way, a line of them after `| `; `<>`
//! at the end of a line says that no LF follows.
//!
//! The status is 0 at the end of the cases; 1 at a line that is not understood; 2 if memory was
//! refused to the program itself; 3 if a guarded call that ran out of memory changed a desk.
#![tactic(auto)]

mod answer;
mod case;
mod desk_view;
mod desks;
mod devices;
mod extents;
mod fault;
mod guard;
mod history;
mod memory_file;
mod memory_store;
mod pure;
mod transcript;

use case::Case;
use fault::Fault;
use std::io;
use std::io::{ErrorKind, Write};
use std::process::ExitCode;

/// Follows the cases of the standard input, and prints the transcript.
fn follow_input(rt: &HostRuntime) -> io::Result<Result<(), Fault>> {
    let cases = io::read_to_string(rt.alloc(), rt.reader())?;
    let mut case = Case::new(rt.alloc());
    let followed = case.follow_all(cases.as_str());
    rt.stdout().write_all(case.transcript())?;
    Ok(followed)
}

fn main(rt: HostRuntime) -> ExitCode {
    ExitCode::from(match follow_input(&rt) {
        Ok(Ok(())) => 0,
        Ok(Err(Fault::Line)) => 1,
        Ok(Err(Fault::Memory)) => 2,
        Ok(Err(Fault::Changed)) => 3,
        Err(error) if error.kind() == ErrorKind::OutOfMemory => 2,
        Err(_) => 1,
    })
}

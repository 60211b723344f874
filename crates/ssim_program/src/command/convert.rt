//! The command `convert`: the timetable of a file in a time mode, kept as a data set.

ghost use Rattle.std.specs.Prelude.{◌≡◌, Err, IfErr, IfOk, IsTrue, Ok};
ghost use Rattle.ssim_base.specs.Base.{airline_of};
ghost use Rattle.ssim_program.specs.Answers.{convert};
ghost use Rattle.ssim_program.specs.Converting.{converted, in_other_mode, in_own_mode, mode_named};
ghost use Rattle.ssim_program.specs.Exports.{ReadsAsItself};
ghost use Rattle.ssim_program.specs.internal.Program.{MakesOr};
ghost use Rattle.ssim_program.specs.declared.refusal.Refusal.TheVariants as refused;

use crate::content_kind::ContentKind;
use crate::export::export_bytes;
use crate::hold::hold;
use crate::made::{Contents, Kept, Made};
use crate::refusal::Refusal;
use crate::store::Store;
use crate::timetable_file::{carrier_of, open_timetable};
use ssim_command_line::ModeWord;
use ssim_desk::Holdings;
use ssim_parts::{conversion_lines, unconverted_lines};
use ssim_schedule::{ExportFault, Schedule};
use ssim_values::TimeMode;
use std::alloc::Global;

/// The data set of a timetable in a time mode; and a line for each period that has no place in it, and
/// the numbers of all flight dates.
pub(crate) fn convert<'n, S: Store>(
    alloc: Global,
    mode: ModeWord,
    file: &str,
    out: &str,
    store: &mut S,
) -> Result<Made<'n, S::Hold>, Refusal>
    requires fresh { IsTrue (S.is_fresh store.now) }
    ensures answer { MakesOr S.Hold.file (S.files store.old)
        (convert (S.files store.old) mode file.now out.now) result }
    ensures same { S.files store.new ≡ S.files store.old }
    ensures counted { S.failures store.new ≡ S.failures store.old }
{
    let place = hold(alloc, out, ContentKind::DataSet, store)?;
    let desk = open_timetable(alloc, file, store)?;
    let airline = desk.data_set().airline();
    let (bytes, lines) = match converted(alloc, mode_named(mode), desk) {
        Ok(made) => made,
        Err(fault) => return Err(Refusal::Export { airline, fault }),
    };
    let contents = Contents::Bytes(bytes);
    let kept = Kept { place, contents };
    Ok(Made::Kept { kept, lines })
}

/// The time mode of a word.
fn mode_named(word: ModeWord) -> TimeMode
    ensures { result ≡ mode_named word }
{
    match word {
        ModeWord::Utc => TimeMode::Utc,
        ModeWord::Local => TimeMode::Local,
    }
}

/// The data set of a desk in a time mode, and what is printed.
fn converted(
    alloc: Global,
    mode: TimeMode,
    desk: Holdings,
) -> Result<(Vec<u8>, Vec<u8>), ExportFault>
    ensures ok { IfOk result (λ made. converted mode desk (Ok (made.0.items, made.1.items))) }
    ensures err { IfErr result (λ fault.
        converted mode desk (Err (refused.Export (airline_of desk.base.records) fault))) }
    ensures again { IfOk result (λ made. ReadsAsItself made.0.items) }
{
    if carrier_of(&desk).time_mode() == mode {
        in_own_mode(alloc, desk)
    } else {
        in_other_mode(alloc, mode, desk)
    }
}

/// The export of a desk, and how many flight dates it has.
fn in_own_mode(alloc: Global, desk: Holdings) -> Result<(Vec<u8>, Vec<u8>), ExportFault>
    ensures ok { IfOk result (λ made. in_own_mode desk (Ok (made.0.items, made.1.items))) }
    ensures err { IfErr result (λ fault.
        in_own_mode desk (Err (refused.Export (airline_of desk.base.records) fault))) }
    ensures again { IfOk result (λ made. ReadsAsItself made.0.items) }
{
    let frame = desk.base().frame().copy();
    let schedule = desk.schedule()?;
    drop(desk);
    let lines = unconverted_lines(alloc, schedule.copy()?)?;
    let bytes = export_bytes(alloc, schedule, &frame)?;
    Ok((bytes, lines))
}

/// The data set of a desk in the other time mode, which is this one, and what is left.
fn in_other_mode(
    alloc: Global,
    mode: TimeMode,
    desk: Holdings,
) -> Result<(Vec<u8>, Vec<u8>), ExportFault>
    ensures ok { IfOk result (λ made. in_other_mode mode desk (Ok (made.0.items, made.1.items))) }
    ensures err { IfErr result (λ fault.
        in_other_mode mode desk (Err (refused.Export (airline_of desk.base.records) fault))) }
    ensures again { IfOk result (λ made. ReadsAsItself made.0.items) }
{
    let airline = desk.data_set().airline();
    let frame = desk.base().frame().with_time_mode(mode);
    let old = desk.schedule()?;
    let none = Schedule::of_flights(desk.data_set(), &[])?;
    let made = ssim_parts::convert(alloc, desk.base().rows(), mode, &old, none)?;
    drop(old);
    drop(desk);
    let lines = conversion_lines(alloc, airline, &made.fates)?;
    let bytes = export_bytes(alloc, made.schedule, &frame)?;
    Ok((bytes, lines))
}

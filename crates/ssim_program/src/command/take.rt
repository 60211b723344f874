//! The command `take`: a desk takes texts, one after another.

ghost use Rattle.std.specs.Prelude.{◌≡◌, Bool, [], IfErr, IfOk, IsTrue, map};
ghost use Rattle.ssim_held.specs.Entries.{DeskSeen, state_of};
ghost use Rattle.ssim_desk.specs.Steps.{RefusesText};
ghost use Rattle.ssim_program.specs.Answers.{take, take_each};
ghost use Rattle.ssim_program.specs.Desks.{IsTaken, took_printed};
ghost use Rattle.ssim_program.specs.World.{Does, world};
ghost use Rattle.ssim_program.specs.internal.Effects.{IsAsked};
ghost use Rattle.ssim_program.specs.internal.Program.{MakesOr};
ghost use Rattle.ssim_program.specs.internal.Take.{TakesOrRefuses};

use crate::content_kind::ContentKind;
use crate::data_set::load_file;
use crate::desk_file::open_holdings;
use crate::effects::{Before, before_if, effects};
use crate::hold::{hold, keep_content};
use crate::made::Made;
use crate::print::printed_line::{PrintedLine, line_of};
use crate::print::printer::{Printer, print_all};
use crate::refusal::Refusal;
use crate::store::Store;
use ssim_desk::{DeskFault, Holdings, Intake, Took};
use ssim_text::Reference;
use std::alloc::Global;
use std::io::Write;

/// The files of texts that a desk takes, whether the effects are printed, and the place of the desk.
#[derive(Clone, Copy)]
pub(crate) struct Taking<'a, H> {
    pub names: &'a [&'a str],
    pub effects: bool,
    pub place: &'a H,
}

/// The files of texts that the desk in a file is to take. The files are not read yet.
pub(crate) fn take<'n, S: Store>(
    alloc: Global,
    effects: bool,
    file: &str,
    out: &str,
    names: &'n [&'n str],
    store: &mut S,
) -> Result<Made<'n, S::Hold>, Refusal>
    requires fresh { IsTrue (S.is_fresh store.now) }
    ensures answer { MakesOr S.Hold.file (S.files store.old)
        (take (S.files store.old) effects file.now out.now (map (λ t. t.now) names.entry.now))
        result }
    ensures same { S.files store.new ≡ S.files store.old }
    ensures counted { S.failures store.new ≡ S.failures store.old }
{
    let place = hold(alloc, out, ContentKind::DeskFile, store)?;
    let desk = open_holdings(alloc, file, store)?;
    Ok(Made::Texts {
        place,
        desk,
        names,
        effects,
    })
}

/// Takes the texts in these files one after another, prints what became of each and, if the words ask
/// for them, the effects, and at last keeps the desk file. At the first refusal it stops, and keeps
/// nothing.
pub(crate) fn take_texts<S: Store, W: Write>(
    alloc: Global,
    taking: &Taking<'_, S::Hold>,
    desk: Holdings,
    store: &mut S,
    out: &mut Printer<'_, W>,
) -> Result<(), Refusal>
    ensures { Does (take_each (S.files store.old) taking.now.effects desk
        (S.Hold.file taking.now.place.now) (map (λ t. t.now) taking.now.names.now) desk)
        (world (S.files store.old) (S.failures store.old) out.old)
        (world (S.files store.new) (S.failures store.new) out.new) result }
{
    let before = before_if(alloc, taking.effects, &desk)?;
    let mut intake = Intake::of(desk)?;
    for name in taking.names {
        let line = match take_text(alloc, &mut intake, *name, store) {
            Ok(line) => line,
            Err(refusal) => return Err(refusal),
        };
        print_all(out, &line)?;
    }
    let after = intake.finish()?;
    end_texts(alloc, &before, &after, taking.place, store, out)
}

/// Prints the effects, if something is kept of the desk before, and keeps the desk file.
fn end_texts<S: Store, W: Write>(
    alloc: Global,
    before: &Option<Before>,
    desk: &Holdings,
    place: &S::Hold,
    store: &mut S,
    out: &mut Printer<'_, W>,
) -> Result<(), Refusal>
    ensures { (effects : Bool) (first : DeskSeen) → IsAsked effects first before.now
        → first.base ≡ desk.now.base
        → Does (take_each (S.files store.old) effects first (S.Hold.file place.now) [] desk.now)
        (world (S.files store.old) (S.failures store.old) out.old)
        (world (S.files store.new) (S.failures store.new) out.new) result }
{
    // No effect at run time. The proof reads from this use that the messages are in order.
    let _ = desk.held();
    match before {
        None => keep_content(alloc, desk, place, store),
        Some(before) => {
            let lines = effects(alloc, before, desk)?;
            print_all(out, &lines)?;
            keep_content(alloc, desk, place, store)
        }
    }
}

/// Takes the text in this file. Returns the line that says what became of it.
fn take_text<S: Store>(
    alloc: Global,
    desk: &mut Intake,
    name: &str,
    store: &mut S,
) -> Result<Vec<u8>, Refusal>
    ensures text { TakesOrRefuses (S.files store.old) name.now desk.old desk.new result }
    ensures same { S.files store.new ≡ S.files store.old }
    ensures counted { S.failures store.new ≡ S.failures store.old }
{
    let text = load_file(alloc, name, store)?;
    let (took, reference) = take_one(desk, &text)?;
    let line = line_of(alloc, &printed(took, reference))?;
    Ok(line)
}

/// Takes a text. Returns what became of it, with the reference of its message.
fn take_one(desk: &mut Intake, text: &[u8]) -> Result<(Took, Reference), DeskFault>
    ensures done { IfOk result (λ r. IsTaken desk.old text.now r.0 r.1 desk.new) }
    ensures refused { IfErr result (RefusesText (state_of desk.old) text.now) }
{
    desk.take(text)
}

/// What became of a text, as it is printed.
pub(crate) fn printed(took: Took, reference: Reference) -> PrintedLine
    ensures { result ≡ took_printed took reference }
{
    match took {
        Took::Taken => PrintedLine::Taken { reference },
        Took::Repeated => PrintedLine::Repeated { reference },
    }
}

//! The command `carry`: a desk with those messages of another desk that mean the same in it.

ghost use Rattle.std.specs.Prelude.{◌≡◌, ◌↔◌, All, Err, IfErr, IfOk, IsTrue};
ghost use Rattle.ssim_base.specs.BaseSeen.{BaseSeen};
ghost use Rattle.ssim_base.specs.ReadBack.{HasFrame};
ghost use Rattle.ssim_held.specs.Entries.{IsEntry};
ghost use Rattle.ssim_program.specs.Answers.{carry};
ghost use Rattle.ssim_program.specs.Carrying.{AreOfOneAirline, MeansTheSame, carried};
ghost use Rattle.ssim_program.specs.internal.Carry.{Carries, CarriesEach, HasCarried};
ghost use Rattle.ssim_program.specs.internal.Carry.{RefusesAny, RefusesOne};
ghost use Rattle.ssim_program.specs.internal.Program.{MakesOr};

use crate::command::take::printed;
use crate::content_kind::ContentKind;
use crate::desk_file::open_holdings;
use crate::effects::{before_if, push_effects};
use crate::hold::hold;
use crate::made::{Contents, Kept, Made};
use crate::print::printed_line::{PrintedLine, add_line};
use crate::refusal::Refusal;
use crate::store::Store;
use crate::timetable_file::carrier_of;
use ssim_base::{BaseFrame, ResolveFault, ResolvedText};
use ssim_desk::{DeskFault, Held, Holdings, Intake};
use ssim_text::Reference;
use ssim_values::Memory;
use std::alloc::Global;
use std::cmp::Ordering;

/// A desk with those messages of another desk that mean the same in it, a line for each message of
/// the other desk, the line with the number of its messages, and the effects, if the words ask for
/// them.
pub(crate) fn carry<'n, S: Store>(
    alloc: Global,
    effects: bool,
    mine: &str,
    theirs: &str,
    out: &str,
    store: &mut S,
) -> Result<Made<'n, S::Hold>, Refusal>
    requires fresh { IsTrue (S.is_fresh store.now) }
    ensures answer { MakesOr S.Hold.file (S.files store.old)
        (carry (S.files store.old) effects mine.now theirs.now out.now) result }
    ensures same { S.files store.new ≡ S.files store.old }
    ensures counted { S.failures store.new ≡ S.failures store.old }
{
    let place = hold(alloc, out, ContentKind::DeskFile, store)?;
    let desk = open_holdings(alloc, mine, store)?;
    let other = open_holdings(alloc, theirs, store)?;
    if !are_of_one_airline(&desk, &other) {
        return Err(Refusal::from(DeskFault::OtherBase));
    }
    let before = before_if(alloc, effects, &desk)?;
    let (after, mut lines) = match carried(alloc, desk, &other) {
        Ok(made) => made,
        Err(refusal) => return Err(refusal),
    };
    push_effects(alloc, &mut lines, &before, &after)?;
    let contents = Contents::DeskFile(after);
    let kept = Kept { place, contents };
    Ok(Made::Kept { kept, lines })
}

/// Whether the data sets of two desks are of one airline and one time mode.
fn are_of_one_airline(desk: &Holdings, other: &Holdings) -> bool
    ensures { IsTrue result ↔ AreOfOneAirline desk.now other.now }
{
    let mine = carrier_of(desk);
    let theirs = carrier_of(other);
    theirs.airline() == mine.airline() && theirs.time_mode() == mine.time_mode()
}

/// The desk with those messages of the other that mean the same in it, and all that is printed.
fn carried(alloc: Global, mine: Holdings, other: &Holdings) -> Result<(Holdings, Vec<u8>), Refusal>
    ensures done { IfOk result (λ made. HasCarried mine other.now made.0 made.1.items) }
    ensures why { IfErr result (λ why. carried mine other.now (Err why)) }
{
    let frame = mine.data_set().frame().copy();
    let mut desk = Intake::of(mine)?;
    let mut lines = carry_each(alloc, &frame, &mut desk, other.held())?;
    let after = desk.finish()?;
    let total = PrintedLine::Held {
        messages: after.held().len(),
    };
    add_line(&mut lines, &total)?;
    Ok((after, lines))
}

/// Carries messages of another desk, one after another, to a desk whose base has the frame. Returns
/// the line of each.
fn carry_each(
    alloc: Global,
    frame: &BaseFrame,
    desk: &mut Intake,
    messages: &[Held],
) -> Result<Vec<u8>, DeskFault>
    requires { HasFrame frame.now desk.old.base.records }
    ensures done { (theirs : BaseSeen) → All (IsEntry theirs.records) messages.now → IfOk result
        (λ lines. CarriesEach theirs desk.old messages.now desk.new lines.items) }
    ensures why { (theirs : BaseSeen) → All (IsEntry theirs.records) messages.now
        → IfErr result (RefusesAny theirs desk.old messages.now) }
{
    let mut lines = Vec::new(alloc);
    for held in messages {
        let line = carry_one(frame, desk, held)?;
        add_line(&mut lines, &line)?;
    }
    Ok(lines)
}

/// Takes a message of another desk if it means the same over the base of this one, which has the
/// frame. Returns what became of it.
fn carry_one(frame: &BaseFrame, desk: &mut Intake, held: &Held) -> Result<PrintedLine, DeskFault>
    requires { HasFrame frame.now desk.old.base.records }
    ensures done { (theirs : BaseSeen) → IsEntry theirs.records held.now
        → IfOk result (λ line. Carries theirs desk.old held.now line desk.new) }
    ensures why { (theirs : BaseSeen) → IsEntry theirs.records held.now
        → IfErr result (RefusesOne theirs desk.old held.now) }
    ensures base { desk.new.base ≡ desk.old.base }
{
    if means_the_same(frame, held)? {
        let (took, reference) = desk.take(held.message().text())?;
        Ok(printed(took, reference))
    } else {
        Ok(PrintedLine::Left {
            reference: held.reference(),
        })
    }
}

/// Whether a message that is held over another base means the same over a base with this frame.
fn means_the_same(frame: &BaseFrame, held: &Held) -> Result<bool, Memory>
    ensures { (base theirs : BaseSeen) → HasFrame frame.now base.records
        → IsEntry theirs.records held.now
        → IfOk result (λ same. IsTrue same ↔ MeansTheSame base theirs held.now.message) }
{
    match frame.resolve(held.message()) {
        Ok(text) => Ok(is_same(&text, held)),
        Err(fault) => match fault {
            ResolveFault::Memory => Err(Memory),
            _ => Ok(false),
        },
    }
}

/// Whether a message that was resolved has the reference and the dates with which it is held.
fn is_same(text: &ResolvedText, held: &Held) -> bool
    ensures { IsTrue result ↔ ((text.now.reference ≡ held.now.reference)
        × (text.now.subs.items ≡ held.now.dates)) }
{
    is_reference(&text.reference, &held.reference()) && text.subs.as_slice() == held.dates()
}

/// Whether two references are the same.
fn is_reference(one: &Reference, other: &Reference) -> bool
    ensures { IsTrue result ↔ (one.now ≡ other.now) }
{
    match one.order(other) {
        Ordering::Equal => true,
        _ => false,
    }
}

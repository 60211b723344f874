//! The command `merge --since`: a desk that holds what two desks hold, without what one of them has
//! withdrawn since an older desk.

ghost use Rattle.std.specs.Prelude.{◌≡◌, ◌↔◌, IfOk, IsTrue, false, option_map, true};
ghost use Rattle.ssim_held.specs.Entries.{AreRising};
ghost use Rattle.ssim_program.specs.Answers.{merge_either, merge_since};
ghost use Rattle.ssim_program.specs.MergingSince.{IsOver, IsWithoutWithdrawn, held_by, merged_since};
ghost use Rattle.ssim_program.specs.MergingSince.{older_in};
ghost use Rattle.ssim_program.specs.internal.MergingSince.{IsAmong};
ghost use Rattle.ssim_program.specs.internal.Program.{MakesOr};

use crate::command::merge::{MergeWords, merge, merge_desks};
use crate::command::start::held_line;
use crate::content_kind::ContentKind;
use crate::data_set::load_file;
use crate::desk_file::{open_holdings, read_desk};
use crate::effects::{before_if, push_effects};
use crate::hold::hold;
use crate::made::{Contents, Kept, Made};
use crate::refusal::Refusal;
use crate::store::Store;
use ssim_desk::{DeskFault, Held, Holdings, Intake};
use ssim_held::{LookUp, look};
use ssim_values::Memory;
use std::alloc::Global;

/// A desk that holds what two desks hold, without the messages that one of them has withdrawn since
/// the older desk in the file `since`, the line with the number of its messages, and the effects on the
/// first desk, if the words ask for them. If that file is empty, nothing was withdrawn.
pub(crate) fn merge_since<'n, S: Store>(
    alloc: Global,
    since: &str,
    words: &MergeWords<'_>,
    out: &str,
    store: &mut S,
) -> Result<Made<'n, S::Hold>, Refusal>
    requires fresh { IsTrue (S.is_fresh store.now) }
    ensures answer { MakesOr S.Hold.file (S.files store.old)
        (merge_since (S.files store.old) words.now.effects since.now words.now.desk.now
        words.now.other.now out.now) result }
    ensures same { S.files store.new ≡ S.files store.old }
    ensures counted { S.failures store.new ≡ S.failures store.old }
{
    let place = hold(alloc, out, ContentKind::DeskFile, store)?;
    let old = open_older(alloc, since, store)?;
    let desk = open_holdings(alloc, words.desk, store)?;
    let other = open_holdings(alloc, words.other, store)?;
    if !is_over(&old, &desk) {
        return Err(Refusal::from(DeskFault::OtherBase));
    }
    let after = match merge_left(alloc, &old, &desk, &other) {
        Ok(after) => after,
        Err(refusal) => return Err(refusal),
    };
    let mut lines = held_line(alloc, after.held().len())?;
    let before = before_if(alloc, words.effects, &desk)?;
    push_effects(alloc, &mut lines, &before, &after)?;
    let contents = Contents::DeskFile(after);
    let kept = Kept { place, contents };
    Ok(Made::Kept { kept, lines })
}

/// The desk of `merge`, or that of `merge_since` if an older desk is named.
pub(crate) fn merge_either<'n, S: Store>(
    alloc: Global,
    since: Option<&str>,
    words: &MergeWords<'_>,
    out: &str,
    store: &mut S,
) -> Result<Made<'n, S::Hold>, Refusal>
    requires fresh { IsTrue (S.is_fresh store.now) }
    ensures answer { MakesOr S.Hold.file (S.files store.old)
        (merge_either (S.files store.old) words.now.effects (option_map (λ s. s.now) since.entry)
        words.now.desk.now words.now.other.now out.now) result }
    ensures same { S.files store.new ≡ S.files store.old }
    ensures counted { S.failures store.new ≡ S.failures store.old }
{
    match since {
        None => merge(alloc, words, out, store),
        Some(older) => merge_since(alloc, older, words, out, store),
    }
}

/// What the older desk in the file of this name holds, or nothing if the file is empty. Returns 91 if
/// there is no such file within the limit.
fn open_older<S: Store>(
    alloc: Global,
    name: &str,
    store: &mut S,
) -> Result<Option<Holdings>, Refusal>
    ensures answer { older_in (S.files store.old) name.now result }
    ensures same { S.files store.new ≡ S.files store.old }
    ensures counted { S.failures store.new ≡ S.failures store.old }
{
    let bytes = load_file(alloc, name, store)?;
    if bytes.is_empty() {
        return Ok(None);
    }
    match read_desk(alloc, name, bytes.as_slice()) {
        Ok(desk) => Ok(Some(desk)),
        Err(refusal) => Err(refusal),
    }
}

/// Whether the older desk has the base of this one.
fn is_over(old: &Option<Holdings>, desk: &Holdings) -> bool
    ensures { IsTrue result ↔ IsOver old.now desk.now }
{
    match old {
        None => true,
        Some(older) => older.base().same(desk.base()),
    }
}

/// Merges two desks, each without what the other has withdrawn since the older one.
fn merge_left(
    alloc: Global,
    old: &Option<Holdings>,
    mine: &Holdings,
    theirs: &Holdings,
) -> Result<Holdings, Refusal>
    ensures { merged_since old.now mine.now theirs.now result }
{
    let before = held_by(old);
    let mut left = without_withdrawn(before, theirs, mine)?;
    let brought = without_withdrawn(before, mine, theirs)?;
    match merge_desks(&mut left, &brought) {
        Ok(()) => Ok(left),
        Err(refusal) => Err(refusal),
    }
}

/// What an older desk holds.
fn held_by(old: &Option<Holdings>) -> &[Held]
    ensures value { result.now ≡ held_by old.now }
    ensures rising { AreRising result.now }
{
    match old {
        None => &[],
        Some(older) => older.held(),
    }
}

/// The desk without those messages that were held before and that the other does not hold.
fn without_withdrawn(before: &[Held], other: &Holdings, desk: &Holdings) -> Result<Holdings, Memory>
    requires { AreRising before.now }
    ensures { IfOk result (IsWithoutWithdrawn before.now other.now desk.now) }
{
    let mut left = Intake::of(desk.copy()?)?;
    for held in before {
        if is_withdrawn(held, other.held(), desk.held()) {
            left.withdraw(&held.reference());
        }
    }
    left.finish()
}

/// Whether a desk with these messages holds one that the other does not hold.
fn is_withdrawn(held: &Held, other: &[Held], desk: &[Held]) -> bool
    requires other { AreRising other.now }
    requires desk { AreRising desk.now }
    ensures yes { result ≡ true
        → IsAmong desk.now held.now × (IsAmong other.now held.now → ⊥) }
    ensures no { result ≡ false → IsAmong desk.now held.now → IsAmong other.now held.now }
{
    is_held(desk, held) && !is_held(other, held)
}

/// Whether a message is among these, which are in order of reference.
fn is_held(messages: &[Held], held: &Held) -> bool
    requires { AreRising messages.now }
    ensures { IsTrue result ↔ IsAmong messages.now held.now }
{
    match look(messages, &held.reference(), held.message()) {
        LookUp::Same => true,
        _ => false,
    }
}

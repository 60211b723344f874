//! The command `publish`: the messages that lead the timetable of one file to another file's.

ghost use Rattle.std.specs.Prelude.{◌≡◌, IfErr, IfOk, IsTrue};
ghost use Rattle.ssim_outbox.specs.Publication.{Publishes};
ghost use Rattle.ssim_program.specs.Answers.{publish, published};
ghost use Rattle.ssim_program.specs.internal.Program.{MakesOr};

use crate::content_kind::ContentKind;
use crate::hold::hold;
use crate::made::{Contents, Kept, Made};
use crate::refusal::Refusal;
use crate::store::Store;
use crate::timetable_file::open_timetable;
use ssim_outbox::Published;
use std::alloc::Global;

/// A line for each message that leads the timetable of one file to another file's, the dates that no
/// message says, and the numbers of all; and then the messages.
pub(crate) fn publish<'n, S: Store>(
    alloc: Global,
    from: &str,
    to: &str,
    reference: &str,
    out: &str,
    store: &mut S,
) -> Result<Made<'n, S::Hold>, Refusal>
    requires fresh { IsTrue (S.is_fresh store.now) }
    ensures answer { MakesOr S.Hold.file (S.files store.old)
        (publish (S.files store.old) from.now to.now reference.now out.now) result }
    ensures same { S.files store.new ≡ S.files store.old }
    ensures counted { S.failures store.new ≡ S.failures store.old }
{
    let place = hold(alloc, out, ContentKind::Messages, store)?;
    let old = open_timetable(alloc, from, store)?;
    let new = open_timetable(alloc, to, store)?;
    let made = match ssim_outbox::publish(alloc, &old, &new, reference) {
        Ok(made) => made,
        Err(fault) => return Err(Refusal::from(fault)),
    };
    let Published { lines, mail, .. } = made;
    let contents = Contents::Bytes(mail);
    let kept = Kept { place, contents };
    Ok(Made::Printed {
        found: false,
        lines,
        refused: None,
        kept,
    })
}

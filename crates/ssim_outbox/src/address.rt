//! Under which heading and from which reference on messages are sent.

ghost use Rattle.std.specs.Prelude.{◌≡◌, ◌∷◌, [], List, IfErr, IfOk, OnOk};
ghost use Rattle.ssim_base.specs.ReadBack.{HasFrame};
ghost use Rattle.ssim_records.specs.declared.record.Record.{Record};
ghost use Rattle.ssim_outbox.specs.Publication.{RefusesPublication};
ghost use Rattle.ssim_outbox.specs.internal.Addressed.{HasReference, IsAddressed};
ghost use Rattle.ssim_outbox.specs.Comparable.{RefusesCarriers};
ghost use Rattle.ssim_outbox.specs.internal.Addressed.{RefusesDate};
ghost use Rattle.ssim_outbox.specs.internal.Addressed.{date_refused};
ghost use Rattle.ssim_outbox.specs.internal.Headings.{cancellation};

use crate::fault::OutboxFault;
use crate::heading::heading_of;
use crate::order::follows;
use ssim_base::{BaseFrame, ResolveFault};
use ssim_desk::Holdings;
use ssim_records::Carrier;
use ssim_text::{Message, Reference};
use std::alloc::Global;

/// The heading of messages, and the reference of the first of them.
#[derive(Drop)]
pub(crate) struct Address {
    pub heading: Message,
    pub reference: Reference,
}

/// The heading that a word names, and the reference that it means to the first desk, which follows
/// all that the desk holds. The other desk is of the same airline and the same time mode.
pub(crate) fn address_of(
    alloc: Global,
    from: &Holdings,
    to: &Holdings,
    word: &str,
) -> Result<Address, OutboxFault>
    ensures ok { IfOk result (λ address.
        IsAddressed from.now to.now word.now address.heading address.reference) }
    ensures err { IfErr result (RefusesPublication from.now to.now word.now) }
{
    let frame = from.base().frame();
    let (_, mine, _) = frame.records();
    let (_, theirs, _) = to.base().frame().records();
    compare(mine, theirs)?;
    let heading = heading_of(alloc, mine, word.as_bytes())?;
    let reference = reference_of(frame, &heading)?;
    match follows(&reference, from.held()) {
        Ok(()) => Ok(Address { heading, reference }),
        Err(last) => Err(OutboxFault::Order(last)),
    }
}

/// Whether two carrier records have the same airline (else 41) and the same time mode (else 40). Only
/// the timetables of such data sets are compared.
pub fn compare(mine: &Carrier, theirs: &Carrier) -> Result<(), OutboxFault>
    ensures airline { OnOk result (theirs.now.airline ≡ mine.now.airline) }
    ensures mode { OnOk result (theirs.now.time_mode ≡ mine.now.time_mode) }
    ensures err { IfErr result (RefusesCarriers mine.now theirs.now) }
{
    if theirs.airline() != mine.airline() {
        return Err(OutboxFault::OtherAirline);
    }
    if theirs.time_mode() != mine.time_mode() {
        return Err(OutboxFault::OtherMode);
    }
    Ok(())
}

// The reference that a heading means to a base with this frame.
fn reference_of(frame: &BaseFrame, heading: &Message) -> Result<Reference, OutboxFault>
    requires mode { heading.now.mode ≡ frame.now.carrier.time_mode }
    requires subs { heading.now.subs ≡ cancellation frame.now.carrier.airline ∷ [] }
    ensures ok { (records : List Record) → HasFrame frame.now records
        → IfOk result (HasReference frame.now.carrier heading.now) }
    ensures err { (records : List Record) → HasFrame frame.now records
        → IfErr result (RefusesDate frame.now.carrier heading.now) }
{
    match frame.resolve(heading) {
        Ok(text) => Ok(text.reference),
        Err(fault) => Err(date_refused(fault)),
    }
}

// The fault of a heading that does not resolve: only its date can be refused.
fn date_refused(fault: ResolveFault) -> OutboxFault
    ensures { result ≡ date_refused fault }
{
    match fault {
        ResolveFault::Memory => OutboxFault::Memory,
        _ => OutboxFault::Date,
    }
}

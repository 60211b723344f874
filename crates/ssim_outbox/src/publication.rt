//! What is published of the way from the timetable of one desk to another desk's.

ghost use Rattle.std.specs.Prelude.{◌≡◌, ℕ, List, IfErr, IfOk, OnOk};
ghost use Rattle.std.specs.List.{AllByRecursion};
ghost use Rattle.ssim_base.specs.Resolve.{AreResolved};
ghost use Rattle.ssim_records.specs.Carrier.{CarrierFields};
ghost use Rattle.ssim_text.specs.declared.kind.Kind.TheVariants.{Ssm};
ghost use Rattle.ssim_held.specs.Entries.{DeskSeen};
ghost use Rattle.ssim_outbox.specs.Reach.{IsSaid};
ghost use Rattle.ssim_outbox.specs.Messages.{Send};
ghost use Rattle.ssim_outbox.specs.Publication.{Publishes, RefusesPublication, dates_of_plan};
ghost use Rattle.ssim_outbox.specs.Publication.{subs_of_plan};
ghost use Rattle.ssim_outbox.specs.internal.Addressed.{HasPlan, IsAddressed, RefusesMessages};

use crate::address::{Address, address_of};
use crate::fault::OutboxFault;
use crate::mail_file::mail_file_of;
use crate::messages::messages_of;
use crate::plan::Plan;
use crate::plan_subs::{plan_between, subs_of_plan};
use crate::planned_sub::PlannedSub;
use crate::publication_lines::publication_lines;
use ssim_desk::Holdings;
use ssim_text::Message;
use ssim_values::Airline;
use std::alloc::Global;

/// What is published: the lines that say so, and the file of the messages.
#[derive(Drop)]
pub struct Published {
    pub lines: Vec<u8>,
    pub mail: Vec<u8>,
}

/// Leads the timetable of a desk, `from`, towards another desk's, `to`, by messages. The word
/// names the reference of the first of them, as `01JUN00001E001`, and perhaps their originator, as
/// `.ZRHRMLX/01JUN00001E001`. The group serial rises by one from message to message.
///
/// A desk that holds what `from` holds takes each message as new. It then has on each date what
/// `to` has, if messages can make it, and else what `from` has. The sub-messages come by flight, and
/// those of one flight by first day. The lines say which messages there are, and what they leave
/// unsaid.
///
/// The error is the first of these: 41 `Airline` if `to` has another airline; 40 `TimeMode` if it
/// has the other time mode; 21 `BadReference` if the word is no reference line, with or without an
/// originator before it; 42 `NoSuchDate` if the reference has no date up to 2099; 64 `Order` if
/// `from` holds a message whose reference is not before the first one; 65 `References` if the group
/// serial would pass 99999. 90 can come at any time.
pub fn publish(
    alloc: Global,
    from: &Holdings,
    to: &Holdings,
    word: &str,
) -> Result<Published, OutboxFault>
    ensures ok { IfOk result (λ published. Publishes from.now to.now word.now
        published.lines.items published.mail.items) }
    ensures err { IfErr result (RefusesPublication from.now to.now word.now) }
{
    let address = address_of(alloc, from, to, word)?;
    let plan = plan_between(alloc, from, to)?;
    publish_plan(alloc, from, address, plan)
}

// What is published of a plan.
fn publish_plan(
    alloc: Global,
    from: &Holdings,
    address: Address,
    plan: Plan,
) -> Result<Published, OutboxFault>
    requires ssm { address.heading.kind ≡ Ssm }
    requires said { AllByRecursion (λ sub. IsSaid sub.action) plan.subs.items }
    ensures ok { (to : DeskSeen) (word : List ℕ)
        → IsAddressed from.now to word address.heading address.reference
        → HasPlan from.now to plan.subs.items plan.unsaid.items
        → IfOk result (λ published. Publishes from.now to word
        published.lines.items published.mail.items) }
    ensures err { (to : DeskSeen) (word : List ℕ)
        → IsAddressed from.now to word address.heading address.reference
        → HasPlan from.now to plan.subs.items plan.unsaid.items
        → IfErr result (RefusesPublication from.now to word) }
{
    let Address { heading, reference } = address;
    let Plan { subs, unsaid, .. } = plan;
    let count = subs.len();
    let airline = from.base().airline();
    let messages = sent(alloc, &heading, airline, subs)?;
    let rows = from.base().rows();
    let lines = publication_lines(alloc, airline, rows, &reference, &messages, count, &unsaid)?;
    let mail = mail_file_of(alloc, &messages)?;
    Ok(Published { lines, mail })
}

// The messages that send the sub-messages of a plan.
fn sent(
    alloc: Global,
    heading: &Message,
    airline: Airline,
    plan: Vec<PlannedSub>,
) -> Result<Vec<Message>, OutboxFault>
    requires ssm { heading.now.kind ≡ Ssm }
    requires said { AllByRecursion (λ sub. IsSaid sub.action) plan.items }
    ensures ok { IfOk result (λ messages. Send heading.now heading.now.reference.group
        (subs_of_plan airline plan.items) messages.items) }
    ensures resolved { (carrier : CarrierFields) → airline ≡ carrier.airline → OnOk result
        (AreResolved carrier (subs_of_plan airline plan.items) (dates_of_plan plan.items)) }
    ensures err { IfErr result (RefusesMessages heading.now (subs_of_plan airline plan.items)) }
{
    let subs = subs_of_plan(alloc, heading, airline, plan)?;
    Ok(messages_of(alloc, heading, &subs)?)
}

//! What messages can make of an itinerary, what holds of messages that send sub-messages, and of the
//! way from one desk to another.

ghost use Rattle.ssim_outbox.specs.Sayable.{MessagesReach};
ghost use Rattle.ssim_outbox.specs.MailFile.{JoinedTextsRead, MailboxesRead, SentAreMail};
ghost use Rattle.ssim_outbox.specs.Received.{PublishedIsReceived};
ghost use Rattle.ssim_outbox.specs.SameBase.{AllIsReached, NothingIsUnsaid};
ghost use Rattle.ssim_outbox.specs.SendLaws.{FullDatesResolve, SerialsRise, SubsAreJoined};
// The worked examples, which are computed: a false one is an error in this file.
ghost use Rattle.ssim_outbox.specs.examples.Dates;
ghost use Rattle.ssim_outbox.specs.examples.Plans;
ghost use Rattle.ssim_outbox.specs.examples.Texts;

use ssim_difference::laws::equal_timetables_have_no_difference;

/// Some list of sub-messages makes the new itinerary of a date of the old one if and only if the
/// new one is none, a whole new one with the UTC variations of the date, or the old one with other
/// equipment and other times.
pub fn messages_reach()
    ensures { MessagesReach }
{}

/// The messages have the sub-messages that they send, each once and in order. Each message has the
/// heading, and the next group serial after the message before.
pub fn messages_send_each_once()
    ensures joined { SubsAreJoined }
    ensures rise { SerialsRise }
{}

/// A sub-message with full dates resolves against any base of its airline, to these dates.
pub fn full_dates_resolve()
    ensures { FullDatesResolve }
{}

/// A mailbox with the bytes of the file of messages has their canonical texts and no others, in
/// order, if a text can have each message and no line of free text is `NNNN`, `SSM` or `ASM` or
/// begins with a dot. So has one with their canonical texts and an empty line between two. Messages
/// that send sub-messages are so: they have no free text.
pub fn mailboxes_read()
    ensures read { MailboxesRead }
    ensures joined { JoinedTextsRead }
    ensures sent { SentAreMail }
{}

/// A desk with the base and the messages of the first desk of a publication takes each text that a
/// mailbox has in the mail of the publication as new, unless memory runs out. It then holds what the
/// publication says, and has on each date what the publication says.
pub fn published_is_received()
    ensures { PublishedIsReceived }
{}

/// If two desks have one base, and the second holds each message that the first holds, then on each
/// date messages can make of the first desk's itinerary the second desk's. So a plan from the first
/// timetable to the second leaves nothing unsaid. The second may hold more
/// messages, with any references.
pub fn nothing_is_unsaid()
    ensures reached { AllIsReached }
    ensures unsaid { NothingIsUnsaid }
{
    equal_timetables_have_no_difference();
}

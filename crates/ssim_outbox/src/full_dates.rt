//! Sub-messages with full dates.

ghost use Rattle.std.specs.Prelude.{◌≡◌};
ghost use Rattle.ssim_base.specs.Resolve.{IsResolved};
ghost use Rattle.ssim_records.specs.Carrier.{CarrierFields};
ghost use Rattle.ssim_values.specs.Designator.{SpellsDesignator, designator_text};
ghost use Rattle.ssim_text.specs.declared.kind.Kind.TheVariants.{Ssm};
ghost use Rattle.ssim_outbox.specs.DatedSub.{dated};
ghost use Rattle.ssim_outbox.specs.clauses.Messages.{IsAlone};
ghost use Rattle.ssim_outbox.specs.Reach.{IsSaid};

use ssim_text::{Action, Dates, GivenDate, GivenEnd, GivenPeriod, Message, Sub};
use ssim_values::{Designator, Period};

/// The sub-message with an action for a flight on the days of a period. Its dates have their years,
/// so they mean the same whatever the validity of a data set: it resolves to the flight and the
/// period against any base of its airline. A text with the heading of an SSM can have it.
pub fn dated_sub(heading: &Message, designator: Designator, period: Period, action: Action) -> Sub
    requires ssm { heading.now.kind ≡ Ssm }
    requires said { IsSaid action }
    ensures value { result ≡ dated designator period action }
    ensures alone { IsAlone heading.now result }
    ensures resolves { (carrier : CarrierFields) → designator.airline ≡ carrier.airline
        → IsResolved carrier result (record { flight = designator.flight; period = period }) }
{
    // No effect at run time. The proof reads from these that texts spell the heading and the
    // flight.
    let _ = heading.text();
    spells(&designator);
    Sub {
        designator,
        dates: Dates::Period(GivenPeriod {
            first: GivenDate::Full(period.first()),
            last: GivenEnd::Until(GivenDate::Full(period.last())),
            days: period.mask(),
        }),
        action,
    }
}

// The written line of a flight spells it.
fn spells(designator: &Designator)
    ensures { SpellsDesignator designator.now (designator_text designator.now) }
{
    let _ = designator.write();
}

//! Sub-messages and their actions.
ghost use Rattle.std.specs.Prelude.{◌≡◌, true, IfSome, IfNone, IfOk};
ghost use Rattle.ssim_text.specs.Grammar.{IsNewLegs, identifier_of};
ghost use Rattle.ssim_text.specs.Lines.{SpellsDatedFlight};
ghost use Rattle.ssim_text.specs.Values.{EquipmentValue};
ghost use Rattle.ssim_values.specs.Designator.{SpellsDesignator};

use crate::bytes::{cut, first_bytes};
use crate::dates::{Dates, GivenDate, date};
use crate::equipment::Equipment;
use crate::kind::ActionIdentifier;
use crate::leg::{LegLine, Legs, fly_all};
use crate::segment::{SegmentLine, Segments};
use ssim_values::Designator;
use std::alloc::{AllocError, Global};

/// The new equipment, legs and segment data of `NEW` and `RPL`.
#[derive(Clone, Drop)]
pub struct NewLegs {
    pub equipment: Equipment,
    pub legs: Legs,
    pub segments: Segments,
}

impl NewLegs {
    /// New legs with an equipment, leg lines and segment lines, if the grammar allows them: 1 to 20
    /// leg lines, and up to 99 segment lines, whose pairs of points the legs fly.
    pub fn new(
        alloc: Global,
        equipment: Equipment,
        legs: &[LegLine],
        segments: Vec<SegmentLine>,
    ) -> Result<Option<NewLegs>, AllocError>
        ensures value { IfOk result (λ made. IfSome made (λ new. new ≡ record {
          equipment = equipment;
          legs = legs.now;
          segments = segments.items;
        })) }
        ensures some { IfOk result (λ made. IfSome made IsNewLegs) }
        ensures none { IfOk result (λ made. IfNone made (IsNewLegs (record {
          equipment = equipment;
          legs = legs.now;
          segments = segments.items;
        }) → ⊥)) }
    {
        if !are_allowed(legs, &segments) {
            return Ok(None);
        }
        let legs = Legs::of(alloc, legs)?;
        Ok(Some(NewLegs {
            equipment,
            legs,
            segments: Segments::of(segments),
        }))
    }
}

// Whether new legs can have these lines.
fn are_allowed(legs: &[LegLine], segments: &[SegmentLine]) -> bool
    ensures yes { result ≡ true → (equipment : EquipmentValue) → IsNewLegs (record {
      equipment = equipment;
      legs = legs.now;
      segments = segments.now;
    }) }
    ensures only { (equipment : EquipmentValue) → IsNewLegs (record {
      equipment = equipment;
      legs = legs.now;
      segments = segments.now;
    }) → result ≡ true }
{
    !legs.is_empty() && legs.len() <= 20 && segments.len() <= 99 && fly_all(legs, segments)
}

/// What a sub-message does to each of its dates, by the action identifiers of SSIM.
#[derive(Clone, Drop)]
pub enum Action {
    /// A new flight.
    New(NewLegs),
    /// The flight is cancelled.
    Cnl,
    /// The flight is replaced.
    Rpl(NewLegs),
    /// Other equipment.
    Eqt(Equipment),
    /// Other times for the legs between the named stations.
    Tim(Legs),
}

impl Action {
    /// The action identifier.
    pub fn identifier(&self) -> ActionIdentifier
        ensures { result ≡ identifier_of self.now }
    {
        match self {
            Action::New(_) => ActionIdentifier::New,
            Action::Cnl => ActionIdentifier::Cnl,
            Action::Rpl(_) => ActionIdentifier::Rpl,
            Action::Eqt(_) => ActionIdentifier::Eqt,
            Action::Tim(_) => ActionIdentifier::Tim,
        }
    }

    fn copy(&self) -> Result<Action, AllocError>
        ensures { IfOk result (λ copy. copy ≡ self.now) }
    {
        self.clone()
    }
}

/// One action on one flight over its dates.
#[derive(Drop)]
pub struct Sub {
    pub designator: Designator,
    pub dates: Dates,
    pub action: Action,
}

impl Clone for Sub {
    ghost is_clone = { λ sub copy. copy ≡ sub };

    fn clone(&self) -> Result<Sub, AllocError> {
        Ok(Sub {
            designator: self.designator,
            dates: self.dates,
            action: self.action.copy()?,
        })
    }
}

pub(crate) fn flight(line: &[u8]) -> Option<Designator>
    ensures some { IfSome result (λ d. SpellsDesignator d line.now) }
    ensures none { IfNone result ((d : Designator) → ¬ (SpellsDesignator d line.now)) }
{
    match Designator::parse(line) {
        Ok(designator) => Some(designator),
        Err(_) => None,
    }
}

pub(crate) fn dated_flight(line: &[u8]) -> Option<(Designator, GivenDate)>
    ensures some { IfSome result (λ f. SpellsDatedFlight f.0 f.1 line.now) }
    ensures none { IfNone result
        ((d : Designator) → (date : GivenDate) → ¬ (SpellsDatedFlight d date line.now)) }
{
    let (designator, rest) = cut(line, b'/');
    let (_solidus, text) = first_bytes(rest, 1);
    let designator = flight(designator)?;
    let date = date(text)?;
    Some((designator, date))
}

//! The equipment of a flight.
ghost use Rattle.std.specs.Prelude.{◌≡◌, ◌≤◌, length, IfSome, IfNone};
ghost use Rattle.ssim_text.specs.Grammar.{IsEquipment};
ghost use Rattle.ssim_text.specs.Lines.{service_of, aircraft_of, designators_of, configuration_of};
ghost use Rattle.ssim_text.specs.Lines.{equipment_of};
ghost use Rattle.ssim_text.specs.internal.Made.{equipment_with, layout_of};

use crate::bytes::{all_alphanumeric, all_letters, cut, first_word};
use arrayvec::ArrayVec;
use std::marker::Model;

/// The equipment line of a sub-message.
#[derive(Clone, Drop)]
pub struct Equipment {
    service: u8,
    aircraft: [u8; 3],
    designators: ArrayVec<u8, 20>,
    configuration: ArrayVec<u8, 20>,
}

impl Model for Equipment {
    ghost use Rattle.ssim_text.specs.Values.{EquipmentValue};

    ghost Value = { EquipmentValue };

    ghost view = { λ e. record {
      service = e.service;
      aircraft = e.aircraft;
      designators = e.designators.items;
      configuration = e.configuration.items;
    } };
}

impl Equipment {
    /// The equipment with a service type, an aircraft type, booking designators and a
    /// configuration, if a line of a text can spell it.
    pub fn new(
        service: u8,
        aircraft: [u8; 3],
        designators: &[u8],
        configuration: &[u8],
    ) -> Option<Equipment>
        ensures value { IfSome result (λ e. e ≡ record {
          service = service;
          aircraft = aircraft;
          designators = designators.now;
          configuration = configuration.now;
        }) }
        ensures some { IfSome result IsEquipment }
        ensures none { IfNone result (IsEquipment (record {
          service = service;
          aircraft = aircraft;
          designators = designators.now;
          configuration = configuration.now;
        }) → ⊥) }
    {
        Equipment::of_parts(&[service], &aircraft, designators, configuration)
    }

    /// The service type, a letter.
    pub fn service(&self) -> u8
        ensures { result ≡ self.now.service }
    {
        self.service
    }

    /// The aircraft type, three letters or digits.
    pub fn aircraft(&self) -> [u8; 3]
        ensures { result ≡ self.now.aircraft }
    {
        self.aircraft
    }

    /// The booking designators, up to twenty letters.
    pub fn designators(&self) -> &[u8]
        ensures { result.now ≡ self.now.designators }
    {
        &self.designators
    }

    /// The aircraft configuration, up to twenty letters or digits.
    pub fn configuration(&self) -> &[u8]
        ensures { result.now ≡ self.now.configuration }
    {
        &self.configuration
    }
}

#[tactic(auto, unfolding(crate::specs::internal::Made::equipment_with))]
impl Equipment {
    // The equipment with these parts, if each is within its bounds.
    fn of_parts(
        service: &[u8],
        aircraft: &[u8],
        designators: &[u8],
        configuration: &[u8],
    ) -> Option<Equipment>
        ensures some { IfSome result (λ e. equipment_with service.now aircraft.now designators.now
            configuration.now ≡ Some e) }
        ensures none { IfNone result (equipment_with service.now aircraft.now designators.now
            configuration.now ≡ None) }
    {
        Some(Equipment {
            service: service_in(service)?,
            aircraft: *aircraft_in(aircraft)?,
            designators: designators_in(designators)?,
            configuration: layout_in(configuration)?,
        })
    }
}

#[tactic(auto, unfolding(crate::specs::Lines::equipment_of))]
impl Equipment {
    /// Reads a service type, an aircraft type and perhaps a third part.
    pub(crate) fn parse(line: &[u8]) -> Option<Equipment>
        ensures some { IfSome result (λ e. equipment_of line.now ≡ Some e) }
        ensures none { IfNone result (equipment_of line.now ≡ None) }
    {
        let (service, rest) = first_word(line);
        let (aircraft, third) = first_word(rest);
        let (designators, configuration) = cut(third, b'.');
        Some(Equipment {
            service: service_in(service)?,
            aircraft: *aircraft_in(aircraft)?,
            designators: designators_in(designators)?,
            configuration: configuration_in(configuration)?,
        })
    }
}

fn service_in(text: &[u8]) -> Option<u8>
    ensures some { IfSome result (λ s. service_of text.now ≡ Some s) }
    ensures none { IfNone result (service_of text.now ≡ None) }
{
    match text {
        [b @ b'A'..=b'Z'] => Some(*b),
        _ => None,
    }
}

fn aircraft_in(text: &[u8]) -> Option<&[u8; 3]>
    ensures some { IfSome result (λ a. aircraft_of text.now ≡ Some a.now) }
    ensures none { IfNone result (aircraft_of text.now ≡ None) }
{
    if all_alphanumeric(text) {
        text.as_array()
    } else {
        None
    }
}

fn designators_in(text: &[u8]) -> Option<ArrayVec<u8, 20>>
    ensures some { IfSome result (λ d. designators_of text.now ≡ Some d.items) }
    ensures none { IfNone result (designators_of text.now ≡ None) }
{
    if text.len() <= 20 && all_letters(text) {
        Some(kept(text))
    } else {
        None
    }
}

fn layout_in(text: &[u8]) -> Option<ArrayVec<u8, 20>>
    ensures some { IfSome result (λ c. layout_of text.now ≡ Some c.items) }
    ensures none { IfNone result (layout_of text.now ≡ None) }
{
    if text.len() <= 20 && all_alphanumeric(text) {
        Some(kept(text))
    } else {
        None
    }
}

fn configuration_in(text: &[u8]) -> Option<ArrayVec<u8, 20>>
    ensures some { IfSome result (λ c. configuration_of text.now ≡ Some c.items) }
    ensures none { IfNone result (configuration_of text.now ≡ None) }
{
    match text {
        [] => Some(kept(text)),
        [b'.', text @ ..] => {
            if !text.is_empty() && text.len() <= 20 && all_alphanumeric(text) {
                Some(kept(text))
            } else {
                None
            }
        }
        _ => None,
    }
}

fn kept(text: &[u8]) -> ArrayVec<u8, 20>
    requires { length text.now ≤ 20 }
    ensures { result.items ≡ text.now }
{
    let mut bytes = ArrayVec::new();
    for byte in text {
        bytes.push(*byte);
    }
    bytes
}

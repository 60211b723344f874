//! Why nothing is published.

ghost use Rattle.std.specs.Prelude.{◌≡◌};

use crate::send_fault::SendFault;
use ssim_base::Place;
use ssim_text::Reference;
use thiserror::Error;

/// Why nothing is published.
#[derive(Clone, Copy, Debug, Error, PartialEq, Eq)]
pub enum OutboxFault {
    /// 90: out of memory.
    #[error("out of memory")]
    Memory,
    /// 41: the second data set has another airline.
    #[error("the second data set has another airline")]
    OtherAirline,
    /// 40: the second data set has the other time mode.
    #[error("the second data set has the other time mode")]
    OtherMode,
    /// 21: the word is no reference line, with or without an originator before it.
    #[error("expected a reference")]
    Reference,
    /// 42: the reference has no date up to 2099.
    #[error("there is no such date up to 2099")]
    Date,
    /// 64: a message is held whose reference is not before the first one. The greatest reference of
    /// a held message.
    #[error("the message {0} is held, which the reference does not come after")]
    Order(Reference),
    /// 65: the group serial would pass 99999.
    #[error("the message group serial would pass 99999")]
    References,
}

impl OutboxFault {
    ghost use Rattle.ssim_outbox.specs.Fault.{outbox_fault_name, outbox_fault_number};
    ghost use Rattle.ssim_outbox.specs.Fault.{outbox_fault_place};

    /// The number by which the fault is known.
    pub fn number(self) -> u8
        ensures { result ≡ outbox_fault_number self }
    {
        match self {
            OutboxFault::Memory => 90,
            OutboxFault::OtherAirline => 41,
            OutboxFault::OtherMode => 40,
            OutboxFault::Reference => 21,
            OutboxFault::Date => 42,
            OutboxFault::Order(_) => 64,
            OutboxFault::References => 65,
        }
    }

    /// The name by which the fault is known.
    pub fn name(self) -> &'static str
        ensures { result.now ≡ outbox_fault_name self }
    {
        match self {
            OutboxFault::Memory => "Memory",
            OutboxFault::OtherAirline => "Airline",
            OutboxFault::OtherMode => "TimeMode",
            OutboxFault::Reference => "BadReference",
            OutboxFault::Date => "NoSuchDate",
            OutboxFault::Order(_) => "Order",
            OutboxFault::References => "References",
        }
    }

    /// What the fault names: the messages as a whole, or the message that is held.
    pub fn place(self) -> Place
        ensures { result ≡ outbox_fault_place self }
    {
        match self {
            OutboxFault::Memory | OutboxFault::Reference | OutboxFault::References => {
                Place::Nowhere
            }
            OutboxFault::OtherAirline | OutboxFault::OtherMode | OutboxFault::Date => {
                Place::SubMessage(0)
            }
            OutboxFault::Order(reference) => Place::Message(reference),
        }
    }
}

impl From<ssim_values::Memory> for OutboxFault {
    ghost use Rattle.ssim_outbox.specs.declared.fault.OutboxFault.TheVariants.{Memory};

    ghost from_gives = { λ _ e. e ≡ Memory };

    fn from(_refused: ssim_values::Memory) -> OutboxFault {
        OutboxFault::Memory
    }
}

impl From<SendFault> for OutboxFault {
    ghost use Rattle.ssim_outbox.specs.clauses.Fault.{not_sent};

    ghost from_gives = { λ fault e. e ≡ not_sent fault };

    fn from(fault: SendFault) -> OutboxFault {
        match fault {
            SendFault::Memory => OutboxFault::Memory,
            SendFault::References => OutboxFault::References,
        }
    }
}

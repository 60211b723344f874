//! The words of a text: its kind, its time mode, its actions.
ghost use Rattle.std.specs.Prelude.{◌≡◌, IfSome, IfNone, Some};
ghost use Rattle.ssim_text.specs.Lines.{kind_text, mode_text, identifier_text};
ghost use Rattle.ssim_text.specs.internal.PrintedReference.{kind_in};

use ssim_values::TimeMode;
use std::fmt;

/// Whether a message is a Standard Schedules Message (chapter 4) or an Ad hoc Schedules Message
/// (chapter 5). It is displayed as its name.
#[derive(Clone, Copy, Debug, PartialEq, Eq, PartialOrd, Ord)]
pub enum Kind {
    Ssm,
    Asm,
}

impl Kind {
    /// `SSM` or `ASM`.
    pub fn name(self) -> &'static str
        ensures { result.now ≡ kind_text self }
    {
        match self {
            Kind::Ssm => "SSM",
            Kind::Asm => "ASM",
        }
    }

    pub(crate) fn parse(line: &[u8]) -> Option<Kind>
        ensures some { IfSome result (λ kind. line.now ≡ kind_text kind) }
        ensures none { IfNone result ((kind : Kind) → ¬ (line.now ≡ kind_text kind)) }
        ensures value { kind_in line.now ≡ result }
    {
        match line {
            b"SSM" => Some(Kind::Ssm),
            b"ASM" => Some(Kind::Asm),
            _ => None,
        }
    }
}

impl fmt::Display for Kind {
    ghost output = { λ kind. Some (kind_text kind) };

    fn fmt<W: fmt::Write>(&self, f: &mut fmt::Formatter<W>) -> fmt::Result {
        let name = self.name();
        write!(f, "{name}")
    }
}

/// The time mode of a line: `UTC` or `LT`.
pub(crate) fn mode_of(line: &[u8]) -> Option<TimeMode>
    ensures some { IfSome result (λ mode. line.now ≡ mode_text mode) }
    ensures none { IfNone result ((mode : TimeMode) → ¬ (line.now ≡ mode_text mode)) }
{
    match line {
        b"UTC" => Some(TimeMode::Utc),
        b"LT" => Some(TimeMode::Local),
        _ => None,
    }
}

/// The action identifier of a sub-message. It is displayed as its name.
#[derive(Clone, Copy, Debug, PartialEq, Eq)]
pub enum ActionIdentifier {
    New,
    Cnl,
    Rpl,
    Eqt,
    Tim,
}

impl ActionIdentifier {
    /// `NEW`, `CNL`, `RPL`, `EQT` or `TIM`.
    pub fn name(self) -> &'static str
        ensures { result.now ≡ identifier_text self }
    {
        match self {
            ActionIdentifier::New => "NEW",
            ActionIdentifier::Cnl => "CNL",
            ActionIdentifier::Rpl => "RPL",
            ActionIdentifier::Eqt => "EQT",
            ActionIdentifier::Tim => "TIM",
        }
    }

    pub(crate) fn parse(line: &[u8]) -> Option<ActionIdentifier>
        ensures some { IfSome result (λ identifier. line.now ≡ identifier_text identifier) }
        ensures none { IfNone result
            ((identifier : ActionIdentifier) → ¬ (line.now ≡ identifier_text identifier)) }
    {
        match line {
            b"NEW" => Some(ActionIdentifier::New),
            b"CNL" => Some(ActionIdentifier::Cnl),
            b"RPL" => Some(ActionIdentifier::Rpl),
            b"EQT" => Some(ActionIdentifier::Eqt),
            b"TIM" => Some(ActionIdentifier::Tim),
            _ => None,
        }
    }
}

impl fmt::Display for ActionIdentifier {
    ghost output = { λ identifier. Some (identifier_text identifier) };

    fn fmt<W: fmt::Write>(&self, f: &mut fmt::Formatter<W>) -> fmt::Result {
        let name = self.name();
        write!(f, "{name}")
    }
}

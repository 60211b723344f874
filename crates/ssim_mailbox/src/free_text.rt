//! Where the free text of a text begins and ends.
ghost use Rattle.std.specs.Prelude.{◌≡◌};
ghost use Rattle.ssim_mailbox.specs.FreeTexts.{ahead_of, begins_free, ends_text, free_after};
ghost use Rattle.ssim_mailbox.specs.FreeTexts.{is_divider};

/// The free text of a text of which some lines are read.
#[derive(Clone, Copy)]
pub(crate) enum FreeText {
    /// It has not begun, and the last line that is not empty is not `//`.
    Ahead,
    /// It has not begun, and the last line that is not empty is `//`.
    Divided,
    /// It has begun.
    Begun,
}

fn is_divider(line: &[u8]) -> bool
    ensures { result ≡ is_divider line.now }
{
    line == b"//".as_slice()
}

fn begins_free(line: &[u8]) -> bool
    ensures { result ≡ begins_free line.now }
{
    matches!(line, [b'S', b'I', ..])
}

/// What a line says of the free text that does not begin with it.
fn ahead_of(line: &[u8]) -> FreeText
    ensures { result ≡ ahead_of line.now }
{
    if is_divider(line) {
        FreeText::Divided
    } else {
        FreeText::Ahead
    }
}

impl FreeText {
    /// The free text after one more line.
    pub(crate) fn after(self, line: &[u8]) -> FreeText
        ensures { result ≡ free_after self line.now }
    {
        match self {
            FreeText::Ahead => ahead_of(line),
            FreeText::Divided if line.is_empty() => FreeText::Divided,
            FreeText::Divided if begins_free(line) => FreeText::Begun,
            FreeText::Divided => ahead_of(line),
            FreeText::Begun => FreeText::Begun,
        }
    }

    /// Whether a line ends the text: an empty line in the free text.
    pub(crate) fn is_ended_by(self, line: &[u8]) -> bool
        ensures { result ≡ ends_text self line.now }
    {
        matches!(self, FreeText::Begun) && line.is_empty()
    }
}

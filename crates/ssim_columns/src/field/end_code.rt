//! The end code of a trailer, and its column.

ghost use Rattle.std.specs.Prelude.{◌≡◌};
ghost use Rattle.ssim_columns.specs.Columns.{end_code_of, end_code_text};

/// Whether another carrier follows in the data set.
#[derive(Clone, Copy, Debug, PartialEq, Eq)]
pub enum EndCode {
    /// `C`.
    Continuation,
    /// `E`.
    End,
}

/// The code in a column.
#[tactic(auto, unfolding(crate::specs::Columns::end_code_of))]
pub fn end_code_of(text: &[u8]) -> Option<EndCode>
    ensures { result ≡ end_code_of text.now }
{
    if text == b"C".as_slice() {
        return Some(EndCode::Continuation);
    }
    if text == b"E".as_slice() {
        return Some(EndCode::End);
    }
    None
}

/// The column of a code.
pub fn end_code_text(code: EndCode) -> [u8; 1]
    ensures { result ≡ end_code_text code }
{
    match code {
        EndCode::Continuation => *b"C",
        EndCode::End => *b"E",
    }
}

//! Segment lines.
ghost use Rattle.std.specs.Prelude.{◌≡◌, ◌<◌, ◌≤◌, ◌++◌, ◌∷◌, [], length, true, IfSome, IfNone, IfOk};
ghost use Rattle.std.specs.Prelude.{IsTrue, OnOk};
ghost use Rattle.ssim_values.specs.Station.{is_station};
ghost use Rattle.ssim_text.specs.Grammar.{IsSegmentLine};
ghost use Rattle.ssim_text.specs.Lines.{points_of, segment_text_of, segment_of};
ghost use Rattle.ssim_text.specs.internal.Made.{IsSegmentWithin, are_all_points};

use crate::bytes::{cut, first_bytes, first_word};
use crate::leg::read_station;
use crate::lines::is_text_line;
use crate::reference::digits;
use ssim_values::Station;
use std::alloc::{AllocError, Global};
use std::marker::Model;

/// Data for one pair of points of a flight.
#[derive(Clone, Debug, Drop)]
pub struct SegmentLine {
    pub board: Station,
    pub off: Station,
    /// The data element identifier, up to 999.
    pub identifier: u16,
    pub text: SegmentText,
}

/// The data of a segment line: 1 to 155 bytes from 32 to 126, the last of them no blank.
#[derive(Clone, Debug, Drop)]
pub struct SegmentText {
    bytes: Vec<u8>,
}

impl Model for SegmentText {
    ghost use Rattle.std.specs.Prelude.{List, ℕ};

    ghost Value = { List ℕ };

    ghost view = { λ t. t.bytes.items };
}

impl SegmentText {
    /// The bytes of the text.
    pub fn bytes(&self) -> &[u8]
        ensures { result.now ≡ self.now }
    {
        &self.bytes
    }
}

/// The board and the off point, if the word is not `QQQQQQ`.
fn points(word: &[u8]) -> Option<(Station, Station)>
    ensures some { IfSome result (λ p. points_of word.now ≡ Some (p.0, p.1)) }
    ensures none { IfNone result (points_of word.now ≡ None) }
{
    if word == b"QQQQQQ".as_slice() {
        return None;
    }
    let (board, off) = first_bytes(word, 3);
    Some((read_station(board)?, read_station(off)?))
}

fn text_in(text: &[u8]) -> Option<&[u8]>
    ensures some { IfSome result (λ t. segment_text_of text.now ≡ Some t.now) }
    ensures none { IfNone result (segment_text_of text.now ≡ None) }
{
    match text {
        [b'/', text @ ..] => {
            if text.is_empty() || text.len() > 155 {
                None
            } else {
                Some(text)
            }
        }
        _ => None,
    }
}

impl SegmentLine {
    /// The segment line with a board point, an off point, an identifier and a text, if a line of a
    /// text can spell it; none if it cannot.
    pub fn new(
        alloc: Global,
        board: Station,
        off: Station,
        identifier: u16,
        text: &[u8],
    ) -> Result<Option<SegmentLine>, AllocError>
        ensures value { IfOk result (λ made. IfSome made (λ segment. segment ≡ record {
          board = board;
          off = off;
          identifier = identifier;
          text = text.now;
        })) }
        ensures some { IfOk result (λ made. IfSome made IsSegmentLine) }
        ensures none { IfOk result (λ made. IfNone made (IsSegmentLine (record {
          board = board;
          off = off;
          identifier = identifier;
          text = text.now;
        }) → ⊥)) }
    {
        if !can_stand(board, off, identifier, text) {
            return Ok(None);
        }
        let bytes = Vec::from_slice(alloc, text)?;
        Ok(Some(SegmentLine {
            board,
            off,
            identifier,
            text: SegmentText { bytes },
        }))
    }
}

// Whether the parts of a segment line are within their bounds.
fn can_stand(board: Station, off: Station, identifier: u16, text: &[u8]) -> bool
    ensures yes { result ≡ true → IsSegmentWithin (record {
      board = board;
      off = off;
      identifier = identifier;
      text = text.now;
    }) }
    ensures only { IsSegmentWithin (record {
      board = board;
      off = off;
      identifier = identifier;
      text = text.now;
    }) → result ≡ true }
{
    !are_all_points(board, off) && identifier <= 999 && text.len() <= 155 && is_text_line(text)
}

// Whether both points are `QQQ`, which stands for all points.
fn are_all_points(board: Station, off: Station) -> bool
    ensures value { result ≡ are_all_points board off }
    ensures board { IsTrue (is_station board) }
    ensures off { IsTrue (is_station off) }
{
    let board = board.write();
    let off = off.write();
    board.as_slice() == b"QQQ".as_slice() && off.as_slice() == b"QQQ".as_slice()
}

#[tactic(auto, unfolding(crate::specs::Lines::segment_of))]
impl SegmentLine {
    /// Reads two stations in one word, an identifier, and a text.
    pub(crate) fn parse(alloc: Global, line: &[u8]) -> Result<Option<SegmentLine>, AllocError>
        ensures { IfOk result (λ read. segment_of line.now ≡ read) }
    {
        let (pair, rest) = first_word(line);
        let (number, text) = cut(rest, b'/');
        let Some((board, off)) = points(pair) else {
            return Ok(None);
        };
        let Some(identifier) = digits(1, 3, number) else {
            return Ok(None);
        };
        let Some(text) = text_in(text) else {
            return Ok(None);
        };
        let bytes = Vec::from_slice(alloc, text)?;
        Ok(Some(SegmentLine {
            board,
            off,
            identifier: identifier as u16,
            text: SegmentText { bytes },
        }))
    }
}

/// Up to 99 segment lines.
#[derive(Clone, Debug, Drop)]
pub struct Segments {
    lines: Vec<SegmentLine>,
}

impl Model for Segments {
    ghost use Rattle.std.specs.Prelude.{List, length, ◌≤◌};
    ghost use Rattle.ssim_text.specs.declared.segment.SegmentLine.{SegmentLine};

    ghost Value = { List SegmentLine };

    ghost view = { λ s. s.lines.items };

    ghost invariant = { λ s. length s.lines.items ≤ 99 };
}

impl Segments {
    pub(crate) fn new(alloc: Global) -> Segments
        ensures { result ≡ [] }
    {
        Segments {
            lines: Vec::new(alloc),
        }
    }

    /// These lines.
    pub(crate) fn of(lines: Vec<SegmentLine>) -> Segments
        requires { length lines.items ≤ 99 }
        ensures { result ≡ lines.items }
    {
        Segments { lines }
    }

    /// The lines, in their order.
    pub fn lines(&self) -> &[SegmentLine]
        ensures value { result.now ≡ self.now }
        ensures few { length self.now ≤ 99 }
    {
        &self.lines
    }

    /// A further line.
    pub(crate) fn push(&mut self, line: SegmentLine) -> Result<(), AllocError>
        requires { length self.old < 99 }
        ensures { OnOk result (self.new ≡ self.old ++ line ∷ []) }
    {
        self.lines.push(line)?;
        Ok(())
    }
}

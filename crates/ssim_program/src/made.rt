//! What a command has made, before it is printed and kept.

ghost use Rattle.std.specs.Prelude.{◌≡◌};
ghost use Rattle.ssim_program.specs.internal.Program.{bytes_of};

use crate::content::Content;
use crate::store::Hold;
use ssim_base::{DataSet, WriteFault};
use ssim_desk::Holdings;
use ssim_parts::Choice;
use ssim_records::Sink;

/// What is kept in a file.
#[derive(Drop)]
pub(crate) enum Contents {
    /// The desk file of what a desk holds.
    DeskFile(Holdings),
    /// Bytes as they are.
    Bytes(Vec<u8>),
}

impl Content for Contents {
    ghost bytes = { bytes_of };

    fn put<W: Sink>(&self, out: &mut W) -> Result<(), WriteFault> {
        match self {
            Contents::DeskFile(desk) => desk.put(out),
            Contents::Bytes(bytes) => bytes.put(out),
        }
    }
}

/// What is kept, and the place that is held for it.
#[derive(Drop)]
pub(crate) struct Kept<H: Hold + Drop> {
    pub(crate) place: H,
    pub(crate) contents: Contents,
}

/// Lines to be printed, and whether they are of something found.
#[derive(Drop)]
pub(crate) struct Report {
    pub(crate) lines: Vec<u8>,
    pub(crate) found: bool,
}

/// What a command has made.
#[derive(Drop)]
pub(crate) enum Made<'n, H: Hold + Drop> {
    /// Lines to be printed.
    Lines(Vec<u8>),
    /// A file to be kept, and then lines to be printed.
    Kept {
        kept: Kept<H>,
        lines: Vec<u8>,
    },
    /// Lines to be printed, and then files to be kept: the refused texts of `receive`, if there is a
    /// place for them, and a desk or messages. The status may be to say that something was found.
    Printed {
        found: bool,
        lines: Vec<u8>,
        refused: Option<Kept<H>>,
        kept: Kept<H>,
    },
    /// A data set to be exported.
    DataSet(DataSet),
    /// A desk to be exported.
    Desk(Holdings),
    /// The chosen part of what a desk has, to be exported.
    Part {
        desk: Holdings,
        choice: Choice,
    },
    /// The files of texts that a desk is to take, and the place of the desk. The effects may be to
    /// be printed.
    Texts {
        place: H,
        desk: Holdings,
        names: &'n [&'n str],
        effects: bool,
    },
    /// The file of a data set of several carriers, which is to be split, and what the names of the
    /// kept files begin with.
    Sections {
        dataset: &'n str,
        prefix: &'n str,
    },
    /// Lines to be printed, and whether the status is to say that something was found.
    Reported {
        found: bool,
        lines: Vec<u8>,
    },
}

//! Printers: writers of std whose failed calls are counted.

ghost use Rattle.std.specs.Prelude.{◌≡◌, false, []};
ghost use Rattle.std.specs.List.{flat_map};
ghost use Rattle.ssim_program.specs.print.Paper.{Paper, PrintsOrFails, writer_of};
ghost use Rattle.ssim_program.specs.internal.Print.{Prints, PrintsPart};

use crate::refusal::Refusal;
use ssim_base::put_all;
use ssim_records::{DeviceFault, Sink, put_counted};
use std::io::Write;
use std::marker::Model;

/// A printer over a writer of std. Contracts see it as what it has printed: its bytes are known if
/// those of the writer are.
#[derive(Drop)]
pub struct Printer<'w, W: Write> {
    pub(crate) writer: &'w mut W,
    /// How many calls failed, or took no byte of some. It wraps at 2^64.
    pub(crate) failures: u64,
    /// Whether the latest call was a flush that did not fail.
    pub(crate) flushed: bool,
}

impl<'w, W: Write> Model for Printer<'w, W> {
    ghost Value = { Paper };

    ghost view = { λ p. record {
      taken = W.contents p.writer.now;
      failures = p.failures;
      flushed = p.flushed;
      device = p.writer.ghost_name;
    } };
}

impl<'w, W: Write> Printer<'w, W> {
    /// A printer that has counted no failure.
    pub fn new(writer: &'w mut W) -> Printer<'w, W>
        ensures { result ≡ record {
          taken = W.contents writer.old;
          failures = 0;
          flushed = false;
          device = writer.entry.ghost_name;
        } }
    {
        Printer {
            writer,
            failures: 0,
            flushed: false,
        }
    }

    /// Writes on what the writer still holds. Returns 52 if that fails.
    pub(crate) fn flush(&mut self) -> Result<(), Refusal>
        ensures { Prints [] self.old self.new result }
    {
        match self.writer.flush() {
            Ok(()) => {
                self.flushed = true;
                Ok(())
            }
            Err(_) => {
                self.flushed = false;
                self.failures = self.failures.wrapping_add(1);
                Err(Refusal::WriteFault)
            }
        }
    }
}

impl<W: Write> Sink for Printer<'_, W> {
    ghost state = { writer_of };

    fn put(&mut self, bytes: &[u8]) -> Result<usize, DeviceFault> {
        self.flushed = false;
        put_counted(self.writer, &mut self.failures, bytes)
    }
}

/// Prints all of the bytes, however many the writer takes at a time, without a flush. Returns 52 if
/// the writer failed, or took no byte of some.
fn put_part<W: Write>(out: &mut Printer<'_, W>, bytes: &[u8]) -> Result<(), Refusal>
    ensures { PrintsPart bytes.now out.old out.new result }
{
    match put_all(out, bytes) {
        Ok(()) => Ok(()),
        Err(_) => Err(Refusal::WriteFault),
    }
}

/// Prints the parts of a text one after another, without a flush. Returns 52 as [`print_all`] does,
/// and then prints no further part.
pub(crate) fn put_parts<W: Write>(out: &mut Printer<'_, W>, parts: &[&[u8]]) -> Result<(), Refusal>
    ensures { PrintsPart (flat_map (λ part. part.now) parts.now) out.old out.new result }
{
    for part in parts {
        put_part(out, part)?;
    }
    Ok(())
}

/// Prints all of the bytes, however many the writer takes at a time, and flushes it. Returns 52 if
/// the writer failed, or took no byte of some.
pub(crate) fn print_all<W: Write>(out: &mut Printer<'_, W>, bytes: &[u8]) -> Result<(), Refusal>
    ensures { Prints bytes.now out.old out.new result }
{
    put_part(out, bytes)?;
    out.flush()
}

/// Prints a line. A failure is counted, and changes nothing else.
pub(crate) fn print_line<W: Write>(line: &[u8], err: &mut Printer<'_, W>)
    ensures { PrintsOrFails line.now err.old err.new }
{
    let _ = print_all(err, line);
}

//! What is kept in files.

ghost use Rattle.std.specs.Prelude.{List, ℕ};
ghost use Rattle.ssim_base.specs.clauses.Sinks.{Puts};
ghost use Rattle.ssim_held.specs.File.{desk_file};

use ssim_base::{OutputBuffer, WriteFault, flush, put_bytes};
use ssim_desk::Holdings;
use ssim_records::Sink;

/// What can be kept in a file. A store writes it straight to the file, so that its bytes need not
/// be in memory at once.
pub trait Content {
    /// The bytes of the file.
    ghost bytes: { Self → List ℕ };

    /// Puts the bytes into the sink. Fails only if the sink fails, which then has a prefix of them.
    fn put<W: Sink>(&self, out: &mut W) -> Result<(), WriteFault>
        ensures { Puts (bytes self.now) (W.state out.old) (W.state out.new) result };
}

/// Bytes are kept as they are.
impl Content for Vec<u8> {
    ghost bytes = { λ v. v.items };

    fn put<W: Sink>(&self, out: &mut W) -> Result<(), WriteFault> {
        let mut block = OutputBuffer::new();
        put_bytes(out, &mut block, self)?;
        flush(out, &mut block)
    }
}

/// What a desk holds is kept as its desk file.
impl Content for Holdings {
    ghost bytes = { λ holdings. desk_file holdings.base holdings.held };

    fn put<W: Sink>(&self, out: &mut W) -> Result<(), WriteFault> {
        self.save(out)
    }
}

//! Two desks take the same texts in different orders, and export the same data set. The data set is
//! the standard input.
#![tactic(auto)]

use ssim_base::{Base, Stations};
use ssim_desk::Desk;
use ssim_records::Bytes;
use std::alloc::Global;
use std::io::Read;

const CANCELLED: &[u8] = b"SSM\n01JUN00001E001\nCNL\nLX544\n01JUL25 31JUL25 1\n";

const RETIMED: &[u8] = b"SSM\n01JUN00002E001\nTIM\nLX544\n30MAR25 25OCT25 1\nZRH0600 LHR0715\n";

/// What a desk of this base exports after it took two texts.
fn exported(alloc: Global, base: Base, first: &[u8], second: &[u8]) -> anyhow::Result<Bytes> {
    let mut desk = Desk::start(alloc, base)?;
    desk.take(first)?;
    desk.take(second)?;
    let mut out = Bytes::new(alloc);
    desk.export(&mut out)?;
    Ok(out)
}

fn main(rt: HostRuntime) -> anyhow::Result<()> {
    let alloc = rt.alloc();
    let mut data = Vec::new(alloc);
    rt.reader().read_to_end(&mut data)?;
    let stations = Stations::read(alloc, b"")?;
    let base = Base::read(alloc, &mut data.as_slice(), stations, 268_435_456)?.base;
    let zurich = exported(alloc, base.copy()?, CANCELLED, RETIMED)?;
    let london = exported(alloc, base, RETIMED, CANCELLED)?;
    println!(rt;
        "{} bytes, the same: {}",
        zurich.bytes().len(),
        zurich.bytes() == london.bytes()
    )?;
    Ok(())
}

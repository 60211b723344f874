//! The frame of a base: its header, its carrier record and its trailer.

ghost use Rattle.std.specs.Prelude.{◌≡◌, List, IfErr, IfOk};
ghost use Rattle.ssim_records.specs.declared.record.Record.{Record};
ghost use Rattle.ssim_base.specs.Base.{airline_of};
ghost use Rattle.ssim_base.specs.internal.Reading.{AreOfFrame};
ghost use Rattle.ssim_base.specs.Export.{Frame};
ghost use Rattle.ssim_base.specs.clauses.Export.{frame_from};
ghost use Rattle.ssim_base.specs.ReadBack.{HasFrame, IsFrame, IsWritableFrame};
ghost use Rattle.ssim_base.specs.Resolve.{IsRefusedIn, ResolvesIn};

use crate::resolution::{ResolveFault, ResolvedText, resolve_by};
use ssim_records::{Carrier, Header, Record, Trailer};
use ssim_text::Message;
use ssim_values::{Airline, TimeMode};
use std::alloc::Global;
use std::marker::Model;

/// The header, the carrier record and the trailer of a base. Messages resolve by its carrier
/// record, and a timetable is exported between its records.
#[derive(Drop)]
pub struct BaseFrame {
    pub(crate) header: Header,
    pub(crate) carrier: Carrier,
    pub(crate) trailer: Trailer,
    /// The allocator of timetables and of plans of exports.
    pub(crate) alloc: Global,
}

impl Model for BaseFrame {
    ghost use Rattle.ssim_base.specs.Export.{Frame};
    ghost use Rattle.ssim_base.specs.clauses.Export.{frame_from};
    ghost use Rattle.ssim_base.specs.ReadBack.{IsFrame, IsWritableFrame};

    ghost Value = { Frame };

    ghost view = { λ f. frame_from f.header f.carrier f.trailer };

    ghost invariant = { λ f. let frame = frame_from f.header f.carrier f.trailer
        in IsFrame frame × IsWritableFrame frame };
}

impl BaseFrame {
    /// The frame of these records: the first, the second and the last of a base.
    pub(crate) fn of(alloc: Global, first: &Record, second: &Record, last: &Record) -> BaseFrame
        requires { (frame : Frame) × AreOfFrame frame first.now second.now last.now × IsFrame frame
            × IsWritableFrame frame }
        ensures { (frame : Frame) → AreOfFrame frame first.now second.now last.now
            → result ≡ frame }
    {
        let Record::Header(header) = first else {
            unreachable!();
        };
        let Record::Carrier(carrier) = second else {
            unreachable!();
        };
        let Record::Trailer(trailer) = last else {
            unreachable!();
        };
        BaseFrame {
            header: *header,
            carrier: *carrier,
            trailer: *trailer,
            alloc,
        }
    }

    /// The same frame.
    pub fn copy(&self) -> BaseFrame
        ensures { result ≡ self.now }
    {
        BaseFrame {
            header: self.header,
            carrier: self.carrier,
            trailer: self.trailer,
            alloc: self.alloc,
        }
    }

    /// The same frame, whose carrier record has another time mode.
    pub fn with_time_mode(&self, time_mode: TimeMode) -> BaseFrame
        ensures { result
            ≡ record self.now { carrier = record self.now.carrier { time_mode = time_mode } } }
    {
        BaseFrame {
            header: self.header,
            carrier: self.carrier.with_time_mode(time_mode),
            trailer: self.trailer,
            alloc: self.alloc,
        }
    }

    /// The header, the carrier record and the trailer.
    pub fn records(&self) -> (&Header, &Carrier, &Trailer)
        ensures value { frame_from result.0.now result.1.now result.2.now ≡ self.now }
        ensures frame { IsFrame self.now }
        ensures writable { IsWritableFrame self.now }
    {
        (&self.header, &self.carrier, &self.trailer)
    }

    /// The allocator of timetables and of plans of exports.
    pub fn allocator(&self) -> Global {
        self.alloc
    }

    /// The airline of the flights.
    pub(crate) fn airline(&self) -> Airline
        ensures { (records : List Record) → HasFrame self.now records
            → result ≡ airline_of records }
    {
        self.carrier.airline()
    }

    /// Resolves a message against a base with this frame, as `resolve` does.
    pub fn resolve(&self, message: &Message) -> Result<ResolvedText, ResolveFault>
        ensures ok { (records : List Record) → HasFrame self.now records
            → IfOk result (ResolvesIn records message.now) }
        ensures err { (records : List Record) → HasFrame self.now records
            → IfErr result (IsRefusedIn records message.now) }
    {
        resolve_by(self.alloc, &self.carrier, message)
    }
}

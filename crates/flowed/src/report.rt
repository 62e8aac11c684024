// What is reported of a body that was carried.
ghost use Rattle.std.specs.Prelude.{◌≡◌, length};
ghost use Rattle.fault.specs.Kinds.{own_fault, layer_fault};
ghost use Rattle.carry.specs.Trip.{error_meant, trip_meant};
ghost use Rattle.line_ends.specs.LineEnds.{line_feeds, leading_dots};
ghost use Rattle.flowed.specs.Came.{came};

use carry::carried::Carried;
use carry::stop::Stop;
use carry::trip::{Trip, TripError};
use fault::fault::Fault;
use fault::layer_fault::LayerFault;
use fault::own_fault::OwnFault;
use fault::refusal::Refusal;
use line_ends::count::{count_leading_dots, count_lines};
use std::fmt;

#[derive(Clone, Copy)]
pub struct Report {
    body: usize,
    lines: usize,
    dots: usize,
    wire: usize,
    trip: Trip<Fault, Fault, Fault>,
}

fn with_faults(error: TripError<LayerFault, OwnFault, OwnFault>) -> TripError<Fault, Fault, Fault>
    ensures { result ≡ error_meant layer_fault own_fault own_fault error }
{
    match error {
        TripError::Refused(f) => TripError::Refused(f.fault()),
        TripError::Stopped(Stop::Undoing(f)) => TripError::Stopped(Stop::Undoing(f.fault())),
        TripError::Stopped(Stop::Sink(f)) => TripError::Stopped(Stop::Sink(f.fault())),
    }
}

impl Report {
    pub fn new(body: &[u8], carried: &Carried) -> Report
        ensures body { result.body ≡ length body.now }
        ensures lines { result.lines ≡ line_feeds body.now }
        ensures dots { result.dots ≡ leading_dots 10 body.now }
        ensures wire { result.wire ≡ carried.now.wire.len }
        ensures trip { result.trip ≡ trip_meant layer_fault own_fault own_fault carried.now.trip }
    {
        Report {
            body: body.len(),
            lines: count_lines(body),
            dots: count_leading_dots(body),
            wire: carried.wire.bytes().len(),
            trip: carried.trip.map_err(with_faults),
        }
    }

    pub fn came_back(&self) -> bool
        ensures { result ≡ came self.now.trip }
    {
        self.trip.is_ok()
    }
}

impl fmt::Display for Report {
    fn fmt<W: fmt::Write>(&self, f: &mut fmt::Formatter<W>) -> fmt::Result {
        let Report {
            body,
            lines,
            dots,
            wire,
            trip,
        } = *self;
        writeln!(f, "bytes in           {body}")?;
        writeln!(f, "lines              {lines}")?;
        match trip {
            Ok(n) => {
                writeln!(f, "bytes on the wire  {wire}, end mark included")?;
                writeln!(f, "dots doubled       {dots}")?;
                writeln!(f, "bytes come back    {n}, each as it was sent")
            }
            Err(TripError::Refused(fault)) => {
                writeln!(f, "bytes on the wire  {wire}")?;
                writeln!(f, "refused            {fault}")
            }
            // No body comes to this: what was sent is proved to come back.
            Err(TripError::Stopped(Stop::Undoing(fault) | Stop::Sink(fault))) => {
                writeln!(f, "stopped            {fault}")
            }
        }
    }
}

// From the stop of a call to that of a dump.
ghost use Rattle.std.specs.Prelude.{◌≡◌};
ghost use Rattle.px_load.specs.Dumping.{of_stop};
ghost use Rattle.px_load.specs.declared.stops.DumpStop.TheVariants.{Sink as SinkFailed};

use crate::stops::DumpStop;
use px_core::{Failed, Stop};

impl From<Stop> for DumpStop {
    ghost from_gives = { λ stop end. end ≡ of_stop stop };

    // No call on a disk here is beyond the limits of its data.
    fn from(stop: Stop) -> DumpStop {
        match stop {
            Stop::Graph => DumpStop::Graph,
            Stop::Scratch | Stop::Beyond => DumpStop::Scratch,
        }
    }
}

impl From<Failed> for DumpStop {
    ghost from_gives = { λ failed end. end ≡ SinkFailed };

    // Of what fails so, a dump calls sinks alone.
    fn from(_failed: Failed) -> DumpStop {
        DumpStop::Sink
    }
}

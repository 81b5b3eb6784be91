// Why a load or a dump stopped.
ghost use Rattle.std.specs.Prelude.{◌≡◌};
ghost use Rattle.px_load.specs.Stops.{of_text, of_disk};

use px_core::Stop;
use px_graph_text::{Kind, TextStop};
use thiserror::Error;

/// Why a text was not loaded.
#[derive(Clone, Copy, Debug, PartialEq, Eq, Error)]
pub enum LoadStop {
    /// The source failed, and counted that among its faults.
    #[error("the source failed")]
    Source,
    /// The text is refused on this line, counted from 1.
    #[error("line {line}: {kind}")]
    Bad { line: u64, kind: Kind },
    /// No line is refused, and this vid, the least such, stands on two lines.
    #[error("vertex {vid} stands on two lines")]
    Twice { vid: u64 },
    /// The disk of the graph failed.
    #[error("the graph disk failed")]
    Graph,
    /// The disk of scratch files failed.
    #[error("the scratch disk failed")]
    Scratch,
}

/// Why a text was not written.
#[derive(Clone, Copy, Debug, PartialEq, Eq, Error)]
pub enum DumpStop {
    /// The disk of the graph failed.
    #[error("the graph disk failed")]
    Graph,
    /// The disk of scratch files failed.
    #[error("the scratch disk failed")]
    Scratch,
    /// The sink failed, and counted that among its faults.
    #[error("the sink failed")]
    Sink,
}

impl From<TextStop> for LoadStop {
    ghost from_gives = { λ stop end. end ≡ of_text stop };

    fn from(stop: TextStop) -> LoadStop {
        match stop {
            TextStop::Source => LoadStop::Source,
            TextStop::Bad { line, kind } => LoadStop::Bad { line, kind },
        }
    }
}

impl From<Stop> for LoadStop {
    ghost from_gives = { λ stop end. end ≡ of_disk stop };

    // No call on a disk here is beyond the limits of its data.
    fn from(stop: Stop) -> LoadStop {
        match stop {
            Stop::Graph => LoadStop::Graph,
            Stop::Scratch | Stop::Beyond => LoadStop::Scratch,
        }
    }
}

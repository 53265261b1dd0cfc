//! Steps, as the history shows them, and the calls that make them.

mod claims;
mod deliveries;
mod flights;
mod in_flight;
mod opening;
mod passing;
mod recording;

pub use claims::Claimed;
pub use deliveries::Taken;
use dh_record::Kind;
pub(crate) use flights::{Name, flight_at};
pub(crate) use in_flight::{flies, is_same_digest, job_of};
pub use opening::OpenFault;
pub(crate) use passing::is_open_value;

/// A step of the table.
#[derive(Clone, Copy, Debug, PartialEq, Eq)]
pub enum Step {
    Claim {
        worker: u32,
        kind: Kind,
        serial: u64,
    },
    Release {
        serial: u64,
    },
    Fetched {
        serial: u64,
    },
    Looked {
        serial: u64,
    },
    Finished {
        serial: u64,
    },
    /// News that came too late.
    Late {
        serial: u64,
    },
    /// A loop, marked at the key of this number.
    Cycled {
        key: u32,
    },
}

/// The task of a key, by its number.
#[derive(Clone, Copy, Debug)]
pub struct Job {
    pub kind: Kind,
    pub key: u32,
}

/// A task in flight.
#[derive(Clone, Copy, Debug)]
pub struct Flight {
    pub serial: u64,
    pub job: Job,
}

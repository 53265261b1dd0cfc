//! What was found at the locations that were fetched.

use dh_ports::Got;
use dh_syntax::{Bytes, Loc};
use dh_watch_files::OrderedLoc;
use std::alloc::{AllocError, Global};
use std::cell::RefCell;
use std::collections::BTreeMap;

/// What was found, by the locations: the bytes, unless there were none.
pub(crate) type Seen = BTreeMap<OrderedLoc, Option<Bytes>>;

/// What was found at each location when it was last fetched. It is shared by the files that are fetched from and by who looks at them.
#[derive(Drop)]
pub struct Sightings {
    seen: RefCell<Seen>,
}

/// The bytes that were found.
fn found_bytes(alloc: Global, got: &Got) -> Result<Option<Bytes>, AllocError> {
    match got {
        Got::Found(found) => Ok(Some(found.bytes.copied(alloc)?)),
        Got::Absent | Got::Broken(_) => Ok(None),
    }
}

/// Whether just these bytes are found; or none, where there are none.
pub(crate) fn is_found(bytes: Option<&Bytes>, got: &Got) -> bool {
    match (bytes, got) {
        (Some(bytes), Got::Found(found)) => bytes.as_slice() == found.bytes.as_slice(),
        (None, Got::Absent | Got::Broken(_)) => true,
        (Some(_), Got::Absent | Got::Broken(_)) | (None, Got::Found(_)) => false,
    }
}

impl Sightings {
    /// Nothing was found yet. It takes no memory.
    pub fn new(alloc: Global) -> Sightings {
        Sightings {
            seen: RefCell::new(BTreeMap::new(alloc)),
        }
    }

    /// Notes what is found at a location, in the place of what was found there before.
    pub(crate) fn note(&self, alloc: Global, loc: &Loc, got: &Got) -> Result<(), AllocError> {
        let place = OrderedLoc::copied(alloc, loc)?;
        let bytes = found_bytes(alloc, got)?;
        match self.seen.try_borrow_mut() {
            Ok(mut seen) => {
                let _before = seen.insert(place, bytes)?;
                Ok(())
            }
            Err(_) => Err(AllocError),
        }
    }

    /// Takes all sightings out. It takes no memory.
    pub(crate) fn take(&self, alloc: Global) -> Result<Seen, AllocError> {
        self.replace(BTreeMap::new(alloc))
    }

    /// Puts sightings back that were taken out. It takes no memory.
    pub(crate) fn put_back(&self, seen: Seen) -> Result<(), AllocError> {
        let _none = self.replace(seen)?;
        Ok(())
    }

    // Puts these in the place of the others. None of the calls above borrows the cell while another is made.
    fn replace(&self, seen: Seen) -> Result<Seen, AllocError> {
        match self.seen.try_replace(seen) {
            Ok(before) => Ok(before),
            Err(_) => Err(AllocError),
        }
    }
}

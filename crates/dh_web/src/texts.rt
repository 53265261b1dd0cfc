//! The text at a URL.

ghost use Rattle.std.specs.Prelude.{◌≡◌, IfOk};
ghost use Rattle.dh_ports.specs.Desks.{IsShort};

use crate::connections::{PATIENCE_SECONDS, dial};
use crate::streams::StreamLink;
use dh_http::{GetError, get};
use dh_ports::{DeskError, Got};
use dh_syntax::Url;
use std::alloc::Global;
use std::net::Net;
use std::time::Duration;

/// The text at a URL, over a connection of its own; of the network a clause can say only that the text is short. It fails where the
/// host has no address, where none of them answers, where the connection breaks, and where the peer is silent for
/// [`PATIENCE_SECONDS`].
pub fn web_text<R: Net>(rt: &R, alloc: Global, url: &Url) -> Result<Got, DeskError>
    ensures short { IfOk result IsShort }
{
    web_text_within(rt, alloc, url, Duration::from_secs(PATIENCE_SECONDS))
}

/// The text at a URL, over a connection of its own, where the peer may be silent for this long. It fails as [`web_text`] does.
pub fn web_text_within<R: Net>(
    rt: &R,
    alloc: Global,
    url: &Url,
    patience: Duration,
) -> Result<Got, DeskError>
    ensures short { IfOk result IsShort }
{
    let mut link = StreamLink::new(dial(rt, url.host.as_str(), patience)?);
    match get(alloc, &mut link, url) {
        Ok(got) => Ok(got),
        Err(GetError::Failed) => Err(DeskError::Failed),
        Err(GetError::Memory) => Err(DeskError::Memory),
    }
}

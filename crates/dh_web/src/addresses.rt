//! Where a host is dialled.

ghost use Rattle.std.specs.Prelude.{◌≡◌, IfSome, IsNone};
ghost use Rattle.std.specs.List.{before_first, after_first};
ghost use Rattle.dh_web.specs.Addresses.{is_colon, IsPort, HasNoPort};

/// The port that these digits name: 80 where there are none. `None` where there is no such port.
fn port_of(digits: &str) -> Option<u16>
    ensures some { IfSome result (IsPort digits.now) }
    ensures none { IsNone result → HasNoPort digits.now }
{
    match digits.as_bytes() {
        [] => Some(80),
        // The system library reads a number behind a plus.
        [b'+', ..] => None,
        _ => match digits.parse::<u16>() {
            Ok(port) => Some(port),
            Err(_) => None,
        },
    }
}

/// The name and the port of a host, which stands after a colon. `None` where there is no such port.
pub(crate) fn address_of(host: &str) -> Option<(&str, u16)>
    ensures name { IfSome result (λ a. a.0.now ≡ before_first is_colon host.now) }
    ensures port { IfSome result (λ a. IsPort (after_first is_colon host.now) a.1) }
    ensures none { IsNone result → HasNoPort (after_first is_colon host.now) }
{
    match host.split_once(':') {
        Some((name, digits)) => match port_of(digits) {
            Some(port) => Some((name, port)),
            None => None,
        },
        None => Some((host, 80)),
    }
}

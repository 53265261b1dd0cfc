//! The texts of the locations of orders, which are made before the first ask, so that each line can be told whatever memory there is.

ghost use Rattle.std.specs.Prelude.{◌≡◌, IfOk, map};
ghost use Rattle.dh_script.specs.Orders.{location_of};
ghost use Rattle.dh_syntax.specs.Imports.Locations.{loc_text};

use dh_paths::loc_text;
use dh_script::Order;
use dh_syntax::Piece;
use std::alloc::{AllocError, Global};

/// The text of the location of each order.
pub(crate) fn places_of(alloc: Global, orders: &[Order]) -> Result<Vec<Piece>, AllocError>
    ensures { IfOk result (λ places. places.items ≡ map (λ o. loc_text (location_of o)) orders.now) }
{
    let mut places = Vec::new(alloc);
    for order in orders {
        places.push(loc_text(alloc, order.location())?)?;
    }
    Ok(places)
}

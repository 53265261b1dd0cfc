//! The rows of arrays: what an array is by its first number and how many items come after it.
ghost use Rattle.std.specs.Prelude.{◌≡◌, [], option_map};
ghost use Rattle.dh_binary.specs.Machine as machine;
ghost use Rattle.dh_binary.specs.Machine.{when, operands};
ghost use Rattle.dh_decode.specs.Inside.Forms.{op_of};
ghost use Rattle.dh_decode.specs.Inside.Rows.{row_at, quantified, scheme_fits, lets_fit};
ghost use Rattle.dh_decode.specs.Inside.Views.{place_of};

use crate::places::{Form, OpenItem, RowKind};
use dh_syntax::Many;
use std::alloc::Global;

/// The place, if the row has so many items.
#[inline(always)]
pub fn when(fits: bool, place: OpenItem<'_>) -> Option<OpenItem<'_>>
    ensures { option_map place_of result ≡ when fits (place_of place.entry) }
{
    if fits { Some(place) } else { None }
}

/// A node of expressions only.
#[inline(always)]
fn operands<'a>(alloc: Global, fits: bool, form: Form) -> Option<OpenItem<'a>>
    ensures { option_map place_of result ≡ when fits (operands (op_of form) []) }
{
    if fits {
        Some(OpenItem::Operands(form, Many::new(alloc)))
    } else {
        None
    }
}

/// A function or the type of functions: its name is not written where that is `_`.
#[inline(always)]
fn quantified<'a>(form: Form, items: u128) -> Option<OpenItem<'a>>
    ensures { option_map place_of result ≡ quantified (op_of form) items }
{
    match items {
        2 => Some(OpenItem::Quantify(form, "_", None)),
        3 => Some(OpenItem::Binder(form)),
        _ => None,
    }
}

/// Whether so many items make bindings and a body.
fn lets_fit(items: u128) -> bool
    ensures { result ≡ lets_fit items }
{
    items >= 4 && items % 3 == 1
}

/// The row of an array, by its first number and how many items come after it.
fn row_of<'a>(alloc: Global, code: u64, items: u128) -> Option<OpenItem<'a>>
    ensures { option_map place_of result ≡ row_at code items }
{
    match code {
        0 => when(items >= 2, OpenItem::Applying(None)),
        1 => quantified(Form::Lam, items),
        2 => quantified(Form::Pi, items),
        3 => when(items == 3, OpenItem::Operating),
        4 if items == 1 => Some(OpenItem::Emptied),
        4 => when(items >= 2, OpenItem::Skipping(Form::List)),
        5 => when(items == 2, OpenItem::Skipping(Form::Some)),
        6 if items == 2 => operands(alloc, true, Form::Merge(false)),
        6 => operands(alloc, items == 3, Form::Merge(true)),
        7 => when(items == 1, OpenItem::Rowing(RowKind::Types)),
        8 => when(items == 1, OpenItem::Rowing(RowKind::Values)),
        9 => when(items == 2, OpenItem::Selecting),
        10 => when(items >= 1, OpenItem::Projecting),
        11 => when(items == 1, OpenItem::Rowing(RowKind::Alternatives)),
        14 => operands(alloc, items == 3, Form::If),
        15 => when(items == 1, OpenItem::Numeral),
        16 => when(items == 1, OpenItem::SignedNumeral),
        18 => when(
            items % 2 == 1,
            OpenItem::Piece(Many::new(alloc), Many::new(alloc)),
        ),
        19 => operands(alloc, items == 1, Form::Assert),
        24 => when(items >= 3, OpenItem::Importing),
        25 => when(lets_fit(items), OpenItem::LetName(Many::new(alloc))),
        26 => operands(alloc, items == 2, Form::Annot),
        27 if items == 1 => operands(alloc, true, Form::ToMap(false)),
        27 => operands(alloc, items == 2, Form::ToMap(true)),
        28 => operands(alloc, items == 1, Form::EmptyList),
        29 => when(items == 3, OpenItem::Updating),
        _ => None,
    }
}

/// What an array is, by its first number and how many items come after it.
pub fn row_at<'a>(alloc: Global, code: u64, items: u128) -> Option<OpenItem<'a>>
    ensures { option_map place_of result ≡ machine.row_at code items }
{
    row_of(alloc, code, items)
}

fn fits(scheme: u64, items: u128) -> bool
    ensures { result ≡ scheme_fits scheme items }
{
    match scheme {
        0 | 1 => items >= 4,
        2..=5 => items >= 1,
        6 => items == 1,
        7 => items == 0,
        _ => false,
    }
}

/// Whether a location of this scheme has so many items behind it.
pub fn scheme_fits(scheme: u64, items: u128) -> bool
    ensures { result ≡ machine.scheme_fits scheme items }
{
    fits(scheme, items)
}

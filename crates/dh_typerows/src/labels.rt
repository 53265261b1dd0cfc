//! Labels of handlers and of alternatives.

ghost use Rattle.std.specs.Prelude.{◌≡◌};
ghost use Rattle.dh_syntax.specs.Expressions.Arity.{alt_labels};
ghost use Rattle.dh_syntax.specs.Expressions.Numbers.{bytes_eq};
ghost use Rattle.dh_syntax.specs.Expressions.SameTree.{list_eq};
ghost use Rattle.dh_typerows.specs.Entries.{optional_labels};

use dh_syntax::{Alt, Label};
use dh_terms::is_same_label;

/// Whether these are the labels of the alternatives.
pub(crate) fn are_labels(labels: &[Label], alts: &[Alt]) -> bool
    ensures { result ≡ list_eq bytes_eq labels.now (alt_labels alts.now) }
{
    if labels.len() != alts.len() {
        return false;
    }
    for i in 0..labels.len() {
        if !is_same_label(&labels[i], &alts[i].label) {
            return false;
        }
    }
    true
}

/// Whether a label is this text.
pub(crate) fn is_text(label: &Label, text: &str) -> bool
    ensures { result ≡ bytes_eq label.now text.now }
{
    label.as_str() == text
}

/// Whether these are the labels `None` and `Some`.
pub(crate) fn are_optional_labels(labels: &[Label]) -> bool
    ensures { result ≡ list_eq bytes_eq labels.now optional_labels }
{
    match labels {
        [none, some] => is_text(none, "None") && is_text(some, "Some"),
        [] => false,
        [_none] => false,
        [_none, _some, _other, ..] => false,
    }
}

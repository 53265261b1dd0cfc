//! Laws of the order of labels.
ghost use Rattle.dh_laws.specs.LabelOrder.{Irreflexive, Transitive, Total};

/// No label comes before itself, a label that comes before another comes before all that come after that one, and of
/// two different labels one comes before the other.
pub fn label_order_is_total()
    ensures irreflexive { Irreflexive }
    ensures transitive { Transitive }
    ensures total { Total }
{}

//! Laws of the order of keys.
ghost use Rattle.dh_laws.specs.KeyOrder.{KeysTotal, KeysTransitive, KeysAntisymmetric};

/// Of two keys one comes before the other or is it; the order is transitive, and keys that come before each other are equal.
pub fn key_order_is_total()
    ensures total { KeysTotal }
    ensures transitive { KeysTransitive }
    ensures antisymmetric { KeysAntisymmetric }
{}

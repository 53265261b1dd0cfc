//! Laws of the reading of the binary form.
ghost use Rattle.dh_laws.specs.Decoding.{OneExpression, OneDecoding};

/// Bytes are read as at most one expression.
pub fn one_expression()
    ensures { OneExpression }
{}

/// Bytes have at most one answer, an expression or a fault at one place.
pub fn one_decoding()
    ensures { OneDecoding }
{}

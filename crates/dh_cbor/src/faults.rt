//! Why no head can be read.

/// Why no head can be read at a place, with the offset of that place in the bytes (RFC 7049 §2.1).
#[derive(Clone, Copy, Debug, PartialEq, Eq)]
pub enum CborFault {
    /// The bytes end within the head, or within its string.
    Cut(u32),
    /// No length is given.
    Indefinite(u32),
    /// A floating-point number.
    Float(u32),
    /// A tag other than those of bignums, 2 and 3, and that of CBOR itself, 55799.
    Tag(u32),
    /// A number of more than 64 bits.
    Wide(u32),
}

//! The items of CBOR that the binary form is made of, each in its shortest form.

ghost use Rattle.std.specs.Prelude.{◌≡◌, ◌++◌, ◌∷◌, [], ◌^◌, ◌<◌, OnOk};
ghost use Rattle.dh_syntax.specs.Bytes.Cbor.{head, array, bytes, text, null, truth, without_zeros, fewest_bytes, natural, below_zero};
ghost use Rattle.dh_syntax.specs.Bytes.Binary.{integer};

use std::alloc::{AllocError, Global};
use std::marker::Model;

/// Bytes to which items are added, seen as the list of these bytes.
#[derive(Debug, Drop)]
pub(crate) struct Writer {
    bytes: Vec<u8>,
}

impl Model for Writer {
    ghost use Rattle.std.specs.Prelude.{List, ℕ};

    ghost Value = { List ℕ };

    ghost view = { λ w. w.bytes.items };
}

impl Writer {
    pub(crate) fn new(alloc: Global) -> Writer
        ensures { result ≡ [] }
    {
        Writer {
            bytes: Vec::new(alloc),
        }
    }

    pub(crate) fn into_bytes(self) -> Vec<u8>
        ensures { result.items ≡ self }
    {
        let Writer { bytes } = self;
        bytes
    }

    /// A head in its shortest form (RFC 7049 §2.1).
    pub(crate) fn push_head(&mut self, major: u8, n: u64) -> Result<(), AllocError>
        requires { major < 8 }
        ensures { OnOk result (self.new ≡ self.old ++ head major n) }
    {
        let high = major * 32;
        if n < 24 {
            self.bytes.push(high + n as u8)?;
        } else if n < 1 << 8 {
            self.bytes.extend_from_slice(&[high + 24, n as u8])?;
        } else if n < 1 << 16 {
            self.bytes.push(high + 25)?;
            self.bytes.extend_from_slice(&(n as u16).to_be_bytes())?;
        } else if n < 1 << 32 {
            self.bytes.push(high + 26)?;
            self.bytes.extend_from_slice(&(n as u32).to_be_bytes())?;
        } else {
            self.bytes.push(high + 27)?;
            self.bytes.extend_from_slice(&n.to_be_bytes())?;
        }
        Ok(())
    }

    /// Bytes of a string whose head is written already.
    pub(crate) fn push_raw(&mut self, string: &[u8]) -> Result<(), AllocError>
        ensures { OnOk result (self.new ≡ self.old ++ string.now) }
    {
        self.bytes.extend_from_slice(string)?;
        Ok(())
    }

    /// A string of bytes.
    pub(crate) fn push_bytes(&mut self, string: &[u8]) -> Result<(), AllocError>
        ensures { OnOk result (self.new ≡ self.old ++ bytes string.now) }
    {
        self.push_head(2, string.len() as u64)?;
        self.bytes.extend_from_slice(string)?;
        Ok(())
    }

    /// A string of text.
    pub(crate) fn push_text(&mut self, string: &str) -> Result<(), AllocError>
        ensures { OnOk result (self.new ≡ self.old ++ text string.now) }
    {
        self.push_head(3, string.len() as u64)?;
        self.bytes.extend_from_slice(string.as_bytes())?;
        Ok(())
    }

    pub(crate) fn push_null(&mut self) -> Result<(), AllocError>
        ensures { OnOk result (self.new ≡ self.old ++ null) }
    {
        self.bytes.push(0xF6)?;
        Ok(())
    }

    pub(crate) fn push_truth(&mut self, value: bool) -> Result<(), AllocError>
        ensures { OnOk result (self.new ≡ self.old ++ truth value) }
    {
        self.bytes.push(if value { 0xF5 } else { 0xF4 })?;
        Ok(())
    }

    /// A small natural number.
    pub(crate) fn push_code(&mut self, code: u32) -> Result<(), AllocError>
        ensures { OnOk result (self.new ≡ self.old ++ head 0 code) }
    {
        self.push_head(0, u64::from(code))
    }

    /// A natural number, as a bignum where it has more than 64 bits.
    pub(crate) fn push_natural(&mut self, n: u128) -> Result<(), AllocError>
        ensures { OnOk result (self.new ≡ self.old ++ natural n) }
    {
        if n < 1 << 64 {
            return self.push_head(0, n as u64);
        }
        self.push_bignum(0xC2, n)
    }

    /// A natural number as an expression.
    pub(crate) fn push_natural_literal(&mut self, n: u128) -> Result<(), AllocError>
        ensures { OnOk result (self.new ≡ self.old ++ array (natural 15 ∷ natural n ∷ [])) }
    {
        self.push_head(4, 2)?;
        self.push_code(15)?;
        self.push_natural(n)
    }

    /// An integer as an expression.
    pub(crate) fn push_integer_literal(&mut self, n: i128) -> Result<(), AllocError>
        ensures { OnOk result (self.new ≡ self.old ++ array (natural 16 ∷ integer n ∷ [])) }
    {
        self.push_head(4, 2)?;
        self.push_code(16)?;
        self.push_integer(n)
    }

    /// An integer, as a bignum where it has more than 64 bits beside its sign.
    pub(crate) fn push_integer(&mut self, n: i128) -> Result<(), AllocError>
        ensures { OnOk result (self.new ≡ self.old ++ integer n) }
    {
        if n < 0 {
            return self.push_below_zero(n.unsigned_abs() - 1);
        }
        self.push_natural(n as u128)
    }

    /// The number -1 - n.
    fn push_below_zero(&mut self, n: u128) -> Result<(), AllocError>
        ensures { OnOk result (self.new ≡ self.old ++ below_zero n) }
    {
        if n < 1 << 64 {
            return self.push_head(1, n as u64);
        }
        self.push_bignum(0xC3, n)
    }

    /// A tag, and the fewest bytes that say a number (RFC 7049 §2.4.2).
    fn push_bignum(&mut self, tag: u8, n: u128) -> Result<(), AllocError>
        ensures { OnOk result (self.new ≡ self.old ++ tag ∷ bytes (fewest_bytes n)) }
    {
        self.bytes.push(tag)?;
        self.push_bytes(without_zeros(&n.to_be_bytes()))
    }
}

/// The bytes without the zeros at their front.
fn without_zeros(bytes: &[u8]) -> &[u8]
    ensures { result.now ≡ without_zeros bytes.now }
{
    for (i, byte) in bytes.iter().enumerate() {
        if *byte != 0 {
            return &bytes[i..];
        }
    }
    &[]
}

//! Laws of literals, for the crates that rest on them: each is the contract of a function that does nothing.
ghost use Rattle.std.specs.Prelude.{◌≡◌, ℕ, ◌^◌, ◌<◌, ℤ, List, Some, Ok, IsTrue};
ghost use Rattle.std.specs.Str.{IsUtf8};
ghost use Rattle.dh_syntax.specs.Text.Literals.{escape, unescape};
ghost use Rattle.dh_syntax.specs.Text.Numerals.{is_integer, is_natural, read_integer, read_natural, write_integer, write_natural};
ghost use Rattle.dh_syntax.specs.Limits.{integer_fits};

/// A printed natural is one natural literal, and is read as that natural.
pub fn natural_read_back()
    ensures literal { (n : ℕ) → n < 2 ^ 128 → IsTrue (is_natural (write_natural n)) }
    ensures value { (n : ℕ) → n < 2 ^ 128 → read_natural (write_natural n) ≡ Some n }
{}

/// A printed integer is one integer literal, and is read as that integer.
pub fn integer_read_back()
    ensures literal { (z : ℤ) → IsTrue (integer_fits z) → IsTrue (is_integer (write_integer z)) }
    ensures value { (z : ℤ) → IsTrue (integer_fits z) → read_integer (write_integer z) ≡ Some z }
{}

/// A text that was escaped is read as that text.
pub fn text_read_back()
    ensures { (text : List ℕ) → IsUtf8 text → unescape (escape text) ≡ Ok text }
{}

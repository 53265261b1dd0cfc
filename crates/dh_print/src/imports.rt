//! Imports: the location, the digest and the mode.
ghost use Rattle.std.specs.Prelude.{◌≡◌, ◌++◌, ◌/◌, ◌%◌, [], ◌∷◌, false, flat_map, OnOk, string_bytes};
ghost use Rattle.std.specs.Fmt.{digit_glyph};
ghost use Rattle.dh_syntax.specs.Text.Printed.{digest_text, import_text, mode_text};

use dh_paths::loc_text;
use dh_syntax::{Digest, Import, Mode};
use std::alloc::AllocError;

/// An import as it is written (`dhall.abnf`, "import").
pub fn write_import(text: &mut String, import: &Import) -> Result<(), AllocError>
    ensures { OnOk result (string_bytes text.new ≡ string_bytes text.old ++ import_text import.now) }
{
    let location = loc_text(*text.allocator(), &import.loc)?;
    text.push_str(location.as_str())?;
    write_digest(text, &import.digest)?;
    text.push_str(mode_text(import.mode))
}

fn write_digest(text: &mut String, digest: &Option<Digest>) -> Result<(), AllocError>
    ensures { OnOk result (string_bytes text.new ≡ string_bytes text.old ++ digest_text digest.now) }
{
    match digest {
        Some(digest) => {
            text.push_str(" sha256:")?;
            write_hexadecimal(text, &digest.0)
        }
        None => Ok(()),
    }
}

fn write_hexadecimal(text: &mut String, bytes: &[u8]) -> Result<(), AllocError>
    ensures { OnOk result (string_bytes text.new ≡ string_bytes text.old
        ++ flat_map (λ b. digit_glyph false (b / 16) ∷ digit_glyph false (b % 16) ∷ []) bytes.now) }
{
    for b in bytes {
        write!(text, "{b:02x}")?;
    }
    Ok(())
}

fn mode_text(mode: Mode) -> &'static str
    ensures { result.now ≡ mode_text mode }
{
    match mode {
        Mode::Code => "",
        Mode::Text => " as Text",
        Mode::Location => " as Location",
    }
}

//! The limits of this profile, for the code: each is the definition of its name in `specs/Limits`.

ghost use Rattle.std.specs.Prelude.{◌≡◌};
ghost use Rattle.dh_syntax.specs.Limits as limits;

/// The bytes of the text of an input or of an import, at most.
pub const MOST_BYTES: usize = 1_048_576;

/// The productions `expr` that stand open in a text, at most; the outermost one counts.
pub const MOST_OPEN: u32 = 500;

/// The nesting of an expression, and of a normal form, at most.
pub const MOST_NESTING: u32 = 500;

/// The index of a variable, at most.
pub const MOST_INDEX: u32 = 0x7FFF_FFFF;

/// The arrays and maps that stand open in the binary form, at most.
pub const MOST_OPEN_ITEMS: u32 = 1100;

/// The literal bytes of a text that a rule makes, at most.
pub const MOST_TEXT_BYTES: usize = 16_777_216;

/// The elements of a list that `#` makes, at most.
pub const MOST_ELEMENTS: usize = 1_048_576;

/// The height of what a run reaches, at most.
pub const MOST_HEIGHT: u32 = 1_048_576;

/// The nesting of what a run reaches, at most.
pub const MOST_REACHED: u32 = 1000;

/// The height of what the plain run reaches, at most.
pub const MOST_PLAIN_HEIGHT: u32 = 1000;

/// The units that an item has for its typing, and as many again for its normal form.
pub const WHOLE_PURSE: u64 = 16_777_216;

/// The keys of one run, at most.
pub const MOST_KEYS: usize = 4096;

/// The bytes of an entry of the cache, at most.
pub const MOST_ENTRY_BYTES: usize = 16_777_216;

/// The workers that resolve imports, at most.
pub const MOST_WORKERS: u32 = 64;

/// The workers that resolve imports where the words ask for none.
pub const DEFAULT_WORKERS: u32 = 4;

/// Each constant is the limit of the definitions.
pub fn limits_agree()
    ensures bytes { MOST_BYTES ≡ limits.most_bytes }
    ensures expressions { MOST_OPEN ≡ limits.most_open }
    ensures nesting { MOST_NESTING ≡ limits.most_nesting }
    ensures index { MOST_INDEX ≡ limits.most_index }
    ensures items { MOST_OPEN_ITEMS ≡ limits.most_open_items }
    ensures text_bytes { MOST_TEXT_BYTES ≡ limits.most_text_bytes }
    ensures elements { MOST_ELEMENTS ≡ limits.most_elements }
    ensures height { MOST_HEIGHT ≡ limits.most_height }
    ensures reached { MOST_REACHED ≡ limits.most_reached }
    ensures plain_height { MOST_PLAIN_HEIGHT ≡ limits.most_plain_height }
    ensures purse { WHOLE_PURSE ≡ limits.whole_purse }
    ensures keys { MOST_KEYS ≡ limits.most_keys }
    ensures workers { MOST_WORKERS ≡ limits.most_workers }
    ensures workers_unasked { DEFAULT_WORKERS ≡ limits.default_workers }
    ensures entry_bytes { MOST_ENTRY_BYTES ≡ limits.most_entry_bytes }
{}

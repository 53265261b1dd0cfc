//! Laws of the built-ins.
ghost use Rattle.dh_laws.specs.BuiltinNames.{NamesTell};

/// The name of each built-in stands for it.
pub fn builtin_names_tell()
    ensures { NamesTell }
{}

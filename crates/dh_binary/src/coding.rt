//! Laws of the reading of the binary form: each is the contract of a function that does nothing.
ghost use Rattle.dh_binary.specs.Coding.{Decodes, DecodesOnce, ReadsSized, DecodesWhatIsWritten};
ghost use Rattle.dh_binary.specs.Written.{ReadsWhatIsWritten};

/// All bytes have the answer of the function.
pub fn decodes()
    ensures { Decodes }
{}

/// No bytes have another answer.
pub fn decodes_once()
    ensures { DecodesOnce }
{}

/// What is written of an expression is read as it, where all lengths fit their heads.
pub fn reads_sized()
    ensures { ReadsSized }
{}

/// What is written of an expression is read as it, where its length has 64 bits.
pub fn reads_what_is_written()
    ensures { ReadsWhatIsWritten }
{}

/// Decoding takes encoding back.
pub fn decodes_what_is_written()
    ensures { DecodesWhatIsWritten }
{}

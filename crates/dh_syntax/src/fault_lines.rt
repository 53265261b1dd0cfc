//! The one line of each fault, without its line feed: what `{}` writes.

ghost use Rattle.std.specs.Prelude.{Some};
ghost use Rattle.dh_syntax.specs.FaultLines.{decode_fault_line, ill_line, norm_fault_line, parse_fault_line, path_text, type_fault_line};

use crate::faults::{DecodeFault, Ill, NormFault, ParseFault, TypeFault};
use std::error::Error;
use std::fmt;

impl fmt::Display for ParseFault {
    ghost output = { λ fault. Some (parse_fault_line fault) };

    fn fmt<W: fmt::Write>(&self, f: &mut fmt::Formatter<W>) -> fmt::Result {
        match self {
            ParseFault::NotUtf8(at) => write!(f, "not UTF-8 at {at}"),
            ParseFault::Syntax(at) => write!(f, "syntax at {at}"),
            ParseFault::Wide(at) => write!(f, "number too wide at {at}"),
            ParseFault::Out(at) => write!(f, "left out of this profile at {at}"),
            ParseFault::TooLarge => write!(f, "larger than 1048576 bytes"),
            ParseFault::TooNested => write!(f, "nested deeper than 500"),
            ParseFault::Memory => write!(f, "out of memory"),
        }
    }
}

impl fmt::Display for DecodeFault {
    ghost output = { λ fault. Some (decode_fault_line fault) };

    fn fmt<W: fmt::Write>(&self, f: &mut fmt::Formatter<W>) -> fmt::Result {
        match self {
            DecodeFault::Cut(at) => write!(f, "cut at {at}"),
            DecodeFault::Indefinite(at) => write!(f, "indefinite length at {at}"),
            DecodeFault::Float(at) => write!(f, "float at {at}"),
            DecodeFault::Tag(at) => write!(f, "tag at {at}"),
            DecodeFault::Wide(at) => write!(f, "number too wide at {at}"),
            DecodeFault::Shape(at) => write!(f, "shape at {at}"),
            DecodeFault::Rest(at) => write!(f, "bytes left at {at}"),
            DecodeFault::TooNested => write!(f, "nested deeper than 500"),
            DecodeFault::Memory => write!(f, "out of memory"),
        }
    }
}

impl fmt::Display for NormFault {
    ghost output = { λ fault. Some (norm_fault_line fault) };

    fn fmt<W: fmt::Write>(&self, f: &mut fmt::Formatter<W>) -> fmt::Result {
        match self {
            NormFault::Wide => write!(f, "number or literal too wide"),
            NormFault::Spent => write!(f, "budget of 16777216 spent"),
            NormFault::Deep => write!(f, "too deep"),
            NormFault::Memory => write!(f, "out of memory"),
        }
    }
}

/// A path as it is printed: `root`, or the numbers joined by `/`.
#[derive(Drop)]
struct PathText<'a>(&'a [u32]);

impl<'a> fmt::Display for PathText<'a> {
    ghost output = { λ path. Some (path_text path.0.now) };

    fn fmt<W: fmt::Write>(&self, f: &mut fmt::Formatter<W>) -> fmt::Result {
        let Some((first, rest)) = self.0.split_first() else {
            return write!(f, "root");
        };
        write!(f, "{first}")?;
        for number in rest {
            write!(f, "/{number}")?;
        }
        Ok(())
    }
}

impl fmt::Display for Ill {
    ghost output = { λ ill. Some (ill_line ill) };

    fn fmt<W: fmt::Write>(&self, f: &mut fmt::Formatter<W>) -> fmt::Result {
        let rule = self.rule;
        let path = PathText(self.path.as_slice());
        write!(f, "type rule {rule} at {path}")
    }
}

impl fmt::Display for TypeFault {
    ghost output = { λ fault. Some (type_fault_line fault) };

    fn fmt<W: fmt::Write>(&self, f: &mut fmt::Formatter<W>) -> fmt::Result {
        match self {
            TypeFault::Ill(ill) => write!(f, "{ill}"),
            TypeFault::Wide => write!(f, "number or literal too wide"),
            TypeFault::Spent => write!(f, "budget of 16777216 spent"),
            TypeFault::Deep => write!(f, "too deep"),
            TypeFault::Memory => write!(f, "out of memory"),
        }
    }
}

impl Error for ParseFault {}

impl Error for DecodeFault {}

impl Error for NormFault {}

impl Error for TypeFault {}

//! That copies of every kind are made where memory is ample. Want of memory is free in their clauses, which say that a
//! copy that is made is equal.
use dh_imports::{Blame, Origin, Outcome, Why};
use dh_syntax::{
    Alt, BinOp, BoxedImport, Builtin, Bytes, Comps, Digest, Expr, Ill, Import, Key, Kid, Label,
    Labels, Loc, Many, Mode, NormFault, Op, ParseFault, Piece, TypeFault, Url,
};
use std::alloc::{AllocError, Global};
use std::test::Fail;

/// A text of so many bytes.
fn long_text(alloc: Global, len: usize) -> Result<String, AllocError> {
    let mut text = String::new(alloc);
    for _ in 0..len {
        text.push('x')?;
    }
    Ok(text)
}

fn labels(alloc: Global) -> Result<Labels, AllocError> {
    let mut labels = Many::new(alloc);
    for text in ["a", "b and a few words", ""] {
        labels.push(Label::new(alloc, text)?)?;
    }
    Ok(labels)
}

fn comps(alloc: Global) -> Result<Comps, AllocError> {
    let mut comps = Many::new(alloc);
    for text in ["a", "..", "the file"] {
        comps.push(Piece::new(alloc, text)?)?;
    }
    Ok(comps)
}

fn alts(alloc: Global) -> Result<Many<Alt>, AllocError> {
    let mut alts = Many::new(alloc);
    for (text, typed) in [("a", false), ("b", true), ("c", true)] {
        let label = Label::new(alloc, text)?;
        alts.push(Alt { label, typed })?;
    }
    Ok(alts)
}

fn url(alloc: Global, query: Option<&str>) -> Result<Url, AllocError> {
    let query = match query {
        Some(text) => Some(Piece::new(alloc, text)?),
        None => None,
    };
    Ok(Url {
        host: Piece::new(alloc, "example.com:80")?,
        comps: comps(alloc)?,
        query,
    })
}

#[test]
fn locations_are_copied(rt: HostRuntime) -> Result<(), Fail> {
    let alloc = rt.alloc();
    let locs = [
        Loc::Abs(comps(alloc)?),
        Loc::Here(comps(alloc)?),
        Loc::Parent(comps(alloc)?),
        Loc::Home(comps(alloc)?),
        Loc::Http(url(alloc, None)?),
        Loc::Https(url(alloc, Some("q"))?),
        Loc::Env(Piece::new(alloc, "NAME")?),
        Loc::Missing,
    ];
    for loc in &locs {
        let key = Key {
            loc: loc.copied(alloc)?,
            mode: Mode::Text,
            digest: Some(Digest([7; 32])),
        };
        let import = Import {
            loc: loc.copied(alloc)?,
            mode: Mode::Code,
            digest: None,
        };
        let _ = key.copied(alloc)?;
        let _ = import.copied(alloc)?;
    }
    Ok(())
}

#[test]
fn operators_are_copied(rt: HostRuntime) -> Result<(), Fail> {
    let alloc = rt.alloc();
    let import = Import {
        loc: Loc::Missing,
        mode: Mode::Location,
        digest: None,
    };
    let ops = [
        Op::Builtin(Builtin::ListFold),
        Op::Bool(false),
        Op::Nat(u128::MAX),
        Op::Int(i128::MIN),
        Op::Text(comps(alloc)?),
        Op::Import(BoxedImport::new(alloc, import)?),
        Op::Lam,
        Op::Pi,
        Op::Let(true),
        Op::App,
        Op::If,
        Op::Bin(BinOp::Equivalent),
        Op::EmptyList,
        Op::List,
        Op::Some,
        Op::Merge(true),
        Op::RecordType(labels(alloc)?),
        Op::Record(labels(alloc)?),
        Op::Field(Label::new(alloc, "field")?),
        Op::Project(labels(alloc)?),
        Op::ProjectType,
        Op::Union(alts(alloc)?),
        Op::Assert,
        Op::Annot,
        Op::ToMap(false),
        Op::With(labels(alloc)?),
    ];
    for op in &ops {
        let _ = op.copied(alloc)?;
    }
    Ok(())
}

#[test]
fn long_values_are_copied(rt: HostRuntime) -> Result<(), Fail> {
    let alloc = rt.alloc();
    let text = long_text(alloc, 70_000)?;
    let _ = Label::new(alloc, text.as_str())?.copied(alloc)?;
    let _ = Piece::new(alloc, text.as_str())?.copied(alloc)?;
    let _ = Bytes::of(Vec::from_slice(alloc, text.as_bytes())?).copied(alloc)?;
    let mut kids = Many::new(alloc);
    for i in 0..3_000u32 {
        let body = Expr::Var(Label::new(alloc, "x")?, i);
        let binder = Some(Label::new(alloc, "y")?);
        kids.push(Kid { binder, body })?;
    }
    let _ = dh_syntax::copy(alloc, &Expr::Node(Op::List, kids))?;
    Ok(())
}

#[test]
fn reasons_are_copied(rt: HostRuntime) -> Result<(), Fail> {
    let alloc = rt.alloc();
    let mut path = Many::new(alloc);
    for part in 0..1_100u32 {
        path.push(part)?;
    }
    let reasons = [
        Why::Parse(ParseFault::TooLarge),
        Why::Typing(TypeFault::Ill(Ill { path, rule: 56 })),
        Why::Typing(TypeFault::Wide),
        Why::Typing(TypeFault::Spent),
        Why::Typing(TypeFault::Deep),
        Why::Norm(NormFault::Spent),
        Why::Absent,
        Why::Missing,
        Why::Broken(599),
        Why::Https,
        Why::Failed,
        Why::Differs {
            wanted: Digest([1; 32]),
            got: Digest([2; 32]),
        },
        Why::Insane(Loc::Here(comps(alloc)?)),
        Why::Cors(Loc::Http(url(alloc, None)?)),
        Why::Cycle,
        Why::TooMany,
    ];
    for why in &reasons {
        let at = Some(Key {
            loc: Loc::Missing,
            mode: Mode::Code,
            digest: None,
        });
        let blame = Blame {
            at,
            why: why.copied(alloc)?,
        };
        let _ = blame.copied(alloc)?;
        let _ = Outcome::Bad(blame).copied(alloc)?;
    }
    Ok(())
}

#[test]
fn outcomes_are_copied(rt: HostRuntime) -> Result<(), Fail> {
    let alloc = rt.alloc();
    let origins = [
        Origin::Fetched(None),
        Origin::Fetched(Some(Bytes::of(Vec::from_slice(alloc, b"https://h")?))),
        Origin::Cached,
        Origin::Made,
    ];
    for origin in &origins {
        let value = Expr::Var(Label::new(alloc, "x")?, 0);
        let outcome = Outcome::Good {
            value,
            origin: origin.copied(alloc)?,
        };
        let _ = outcome.copied(alloc)?;
    }
    Ok(())
}

//! Tests: the keys of a text's imports, and the walk of a text without imports and of a text that is one import.

use super::*;
use dh_imports::Outcome;
use dh_paths::loc_text;
use dh_syntax::{BoxedImport, Comps, Expr, Import, Key, Kid, Loc, Many, Mode, Op, Piece};
use std::alloc::{AllocError, Global};
use std::test::Fail;

/// Results of one key.
#[derive(Drop)]
struct One {
    key: Key,
    outcome: Option<Outcome>,
}

impl Results for One {
    ghost use Rattle.std.specs.Prelude.{[], ◌∷◌};

    ghost rows = { λ s. (s.key, s.outcome) ∷ [] };

    fn outcome(&self, _key: u32) -> Option<&Outcome> {
        self.outcome.as_ref()
    }

    fn key(&self, _key: u32) -> &Key {
        &self.key
    }
}

fn results_with(outcome: Option<Outcome>) -> One {
    let key = Key {
        loc: Loc::Missing,
        mode: Mode::Code,
        digest: None,
    };
    One { key, outcome }
}

fn path(alloc: Global, folder: &str, file: &str) -> Result<Comps, AllocError> {
    let mut comps = Many::new(alloc);
    if !folder.is_empty() {
        comps.push(Piece::new(alloc, folder)?)?;
    }
    comps.push(Piece::new(alloc, file)?)?;
    Ok(comps)
}

fn import(alloc: Global, loc: Loc, mode: Mode) -> Result<Kid, AllocError> {
    let import = Import {
        loc,
        mode,
        digest: None,
    };
    let import = BoxedImport::new(alloc, import)?;
    Ok(Kid {
        binder: None,
        body: Expr::Node(Op::Import(import), Many::new(alloc)),
    })
}

#[test]
fn keys_stand_in_the_order_of_imports(rt: HostRuntime) -> Result<(), Fail> {
    let alloc = rt.alloc();
    let mut kids = Many::new(alloc);
    kids.push(import(alloc, Loc::Here(path(alloc, "", "a")?), Mode::Code)?)?;
    kids.push(import(alloc, Loc::Parent(path(alloc, "", "b")?), Mode::Text)?)?;
    kids.push(import(alloc, Loc::Missing, Mode::Code)?)?;
    let list = Expr::Node(Op::List, kids);
    let parent = Loc::Abs(path(alloc, "folder", "text")?);
    let keys = import_keys(alloc, &list, Some(&parent))?;
    let mut texts = String::new(alloc);
    for key in keys.as_slice() {
        texts.push_str(loc_text(alloc, &key.loc)?.as_str())?;
        texts.push_str(if key.mode == Mode::Text {
            " as Text\n"
        } else {
            "\n"
        })?;
    }
    assert_eq!(rt; texts.as_str(), "/folder/a\n/b as Text\nmissing\n");
    Ok(())
}

#[test]
fn a_text_without_imports_is_ready(rt: HostRuntime) -> Result<(), Fail> {
    let alloc = rt.alloc();
    let scan = Scan {
        expr: Expr::Node(Op::Nat(3), Many::new(alloc)),
        edges: Many::new(alloc),
    };
    let results = results_with(None);
    assert!(rt; matches!(next(&scan, None, &results), Next::Ready));
    let (first, way) = next_from(&scan, None, &results, Headway::Unknown);
    assert!(rt; matches!(first, Next::Ready));
    assert!(rt;
        matches!(
            way,
            Headway::Straight {
                imports: 0,
                passed: 0,
            },
        ),
    );
    let (second, _way) = next_from(&scan, None, &results, way);
    assert!(rt; matches!(second, Next::Ready));
    let mut marks = Marks::of(vec![in alloc; false; 1]?);
    wanted(&scan, None, &results, &mut marks);
    assert!(rt; !marks.is_set(0));
    let value = assemble(alloc, &scan, &results)?;
    assert!(rt; matches!(&value, Expr::Node(Op::Nat(3), _)));
    assert!(rt; is_assembled(&scan, &results, &value));
    let other = Expr::Node(Op::Nat(4), Many::new(alloc));
    assert!(rt; !is_assembled(&scan, &results, &other));
    let way = text_path(alloc, &scan, None, &results, &[2, 1])?;
    assert_eq!(rt; way.as_slice(), [2].as_slice());
    let behind = keys_behind(alloc, &scan, &results)?;
    assert!(rt; behind.is_empty());
    Ok(())
}

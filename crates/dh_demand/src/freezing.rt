//! The values whose digests are written behind the imports of a text when it is frozen.

ghost use Rattle.std.specs.Prelude.{◌≡◌, ◌&&◌, true, None, is_none, IfOk};
ghost use Rattle.dh_syntax.specs.Expressions.Bridge.{term};
ghost use Rattle.dh_imports.specs.Freezing.{digests_behind, takes_content};
ghost use Rattle.dh_demand.specs.Digests.{digests_at, HaveValues};
ghost use Rattle.dh_demand.specs.Results.{ask_of};
ghost use Rattle.dh_demand.specs.Scans.{Fits};

use crate::ends::Next;
use crate::results::Results;
use crate::scans::{Edge, Scan};
use crate::visitors::{Visitor, write};
use crate::visits::{recovers, visit};
use crate::walks::walk_in;
use dh_syntax::{Key, Mode};
use std::alloc::{AllocError, Global};

/// For each import of the input, in the order of the nodes, the number of the key whose value's digest is written behind it:
/// where the walk comes to the import, and it is code or text without a digest and has a value. It is one pass.
pub fn keys_behind<R: Results>(
    alloc: Global,
    scan: &Scan,
    results: &R,
) -> Result<Vec<Option<u32>>, AllocError>
    requires { Fits None (R.rows results.now) (term scan.now.expr) scan.now.edges }
    ensures digests { IfOk result (λ ks. digests_at (R.rows results.now) ks.items ≡ digests_behind (ask_of (R.rows results.now)) true (term scan.now.expr)) }
    ensures valued { IfOk result (λ ks. HaveValues (R.rows results.now) ks.items) }
{
    let edges = scan.edges.as_slice();
    let mut keys = Vec::from_elem(alloc, None, edges.len())?;
    let freezer = Freezer { results };
    let (_next, rest) = walk_in(&freezer, true, &scan.expr, edges, keys.as_mut_slice());
    keys.truncate(edges.len().saturating_sub(rest.len()));
    Ok(keys)
}

// A visitor that writes the number of each key that takes a digest.
#[derive(Drop)]
struct Freezer<'a, R> {
    results: &'a R,
}

impl<'a, R: Results> Visitor for Freezer<'a, R> {
    ghost use Rattle.dh_demand.specs.Inside.Frozen.{freezing};

    type Slot = Option<u32>;

    ghost sight = { λ f. freezing (R.rows f.results.now) };

    fn visit(&self, edge: Edge, left: usize, keys: &mut [Option<u32>]) -> Next {
        let next = visit(edge, None, self.results);
        if !next.is_ready() {
            return next;
        }
        if takes_digest(self.results.key(edge.key)) {
            write(keys, keys.len().saturating_sub(left), Some(edge.key));
        }
        next
    }

    fn recovers(&self, next: &Next) -> bool {
        recovers(next, self.results)
    }
}

// Whether an import with this key takes a digest: it is code or text, and has none.
fn takes_digest(key: &Key) -> bool
    ensures { result ≡ (is_none key.now.digest && takes_content key.now.mode) }
{
    match key.mode {
        Mode::Code | Mode::Text => key.digest.is_none(),
        Mode::Location => false,
    }
}

//! That every expression of the program has values, for laws that ask for it of a term.

ghost use Rattle.std.specs.Prelude.{◌≡◌, length, nat_lt, IsTrue};
ghost use Rattle.std.specs.List.{list_all};
ghost use Rattle.std.specs.Str.{is_utf8};
ghost use Rattle.dh_syntax.specs.Expressions.Bridge.{term, row_of};
ghost use Rattle.dh_syntax.specs.Expressions.Values.{digest_if, every_part, op_in_range, op_has_text, IsInRange, HasText};
ghost use Rattle.dh_syntax.specs.Limits.{natural_fits, integer_fits};

use crate::expressions::{Expr, Kids, Op, Pieces};
use crate::locations::Digest;
use crate::texts::Piece;

/// Every expression has its numbers in range, digests of 32 bytes and pieces that are UTF-8. The types of Rust keep this, and
/// the logic learns it of a value as the value is read: so this call visits each node once, and looks at no text.
#[cycle(values)]
pub fn assure_values(e: &Expr)
    ensures range { IsInRange (term e.now) }
    ensures text { HasText (term e.now) }
{
    match e {
        Expr::Var(_, _) => {}
        Expr::Node(op, kids) => {
            assure_node(op);
            assure_parts(kids);
        }
    }
}

#[cycle(values)]
fn assure_parts(kids: &Kids)
    ensures range { IsTrue (every_part op_in_range (row_of kids.now)) }
    ensures text { IsTrue (every_part op_has_text (row_of kids.now)) }
{
    for kid in kids.as_slice() {
        assure_values(&kid.body);
    }
}

fn assure_node(op: &Op)
    ensures range { IsTrue (op_in_range op.now) }
    ensures text { IsTrue (op_has_text op.now) }
{
    match op {
        Op::Nat(value) => assure_natural(*value),
        Op::Int(value) => assure_integer(*value),
        Op::Text(pieces) => assure_pieces(pieces),
        Op::Import(import) => assure_digest(&import.get().digest),
        _ => {}
    }
}

fn assure_natural(value: u128)
    ensures { IsTrue (natural_fits value) }
{}

fn assure_integer(value: i128)
    ensures { IsTrue (integer_fits value) }
{}

fn assure_digest(digest: &Option<Digest>)
    ensures { IsTrue (digest_if digest.now) }
{
    if let Some(digest) = digest {
        assure_bytes(&digest.0);
    }
}

fn assure_bytes(bytes: &[u8; 32])
    ensures length { length bytes.now ≡ 32 }
    ensures range { IsTrue (list_all (λ b. nat_lt b 256) bytes.now) }
{
    are_bytes(bytes.as_slice());
}

fn are_bytes(bytes: &[u8])
    ensures { IsTrue (list_all (λ b. nat_lt b 256) bytes.now) }
{}

fn assure_pieces(pieces: &Pieces)
    ensures { IsTrue (list_all is_utf8 pieces.now) }
{
    for piece in pieces.as_slice() {
        assure_piece(piece);
    }
}

fn assure_piece(piece: &Piece)
    ensures { IsTrue (is_utf8 piece.now) }
{
    let _text = piece.as_str();
}

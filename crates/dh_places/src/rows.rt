//! Alternatives and fields, in the order of their labels.
ghost use Rattle.std.specs.Prelude.{◌≡◌, IfOk, option_map};
ghost use Rattle.dh_grammar.specs.Placing.{add_row, fenced};
ghost use Rattle.dh_making.specs.Words.{key_of};
ghost use Rattle.dh_places.specs.Parts.{placed_of, labelled, rows_of};
ghost use Rattle.dh_syntax.specs.Text.Derivation.{key_label};
ghost use Rattle.dh_syntax.specs.Text.Derived.{among};
ghost use Rattle.dh_syntax.specs.Text.Meaning.{insert, names, values};
ghost use Rattle.dh_syntax.specs.Text.Noting.{concat};

use crate::nodes::fenced;
use crate::notes::Notes;
use crate::parts::{Placed, Rows};
use dh_making::{ByLabel, EntryKey};
use std::alloc::{AllocError, Global};

/// One row more beside those that there are. A label that is there already stays as it is.
pub fn add_row<N: Notes>(
    alloc: Global,
    so_far: Option<Rows<N::Row>>,
    first: u32,
    key: EntryKey,
    nodes: N::Row,
) -> Result<Rows<N::Row>, AllocError>
    ensures { IfOk result (λ made.
        rows_of N.noting N.view made ≡ add_row N.noting (option_map (rows_of N.noting N.view) so_far) first (key_label (key_of key)) (N.view nodes)) }
{
    match so_far {
        Some(Rows { first, rows }) => {
            let rows = with_row::<N>(alloc, rows, key, nodes)?;
            Ok(Rows { first, rows })
        }
        None => {
            let rows = with_row::<N>(alloc, ByLabel::new(alloc), key, nodes)?;
            Ok(Rows { first, rows })
        }
    }
}

/// These rows, and one under the key's label if there is none.
fn with_row<N: Notes>(
    alloc: Global,
    rows: ByLabel<N::Row>,
    key: EntryKey,
    nodes: N::Row,
) -> Result<ByLabel<N::Row>, AllocError>
    ensures { IfOk result (λ made.
        labelled N.noting N.view made ≡ insert (key_label (key_of key), N.view nodes) (labelled N.noting N.view rows)) }
{
    let mut rows = rows;
    rows.insert(key.into_label(alloc)?, nodes)?;
    Ok(rows)
}

/// Whether the key's label is there.
pub fn has_row<N: Notes>(
    alloc: Global,
    rows: &Rows<N::Row>,
    key: &EntryKey,
) -> Result<bool, AllocError>
    ensures { IfOk result (λ b. b ≡ among (key_label (key_of key.now)) (names (rows_of N.noting N.view rows.now).rows)) }
{
    rows.rows.contains_key(alloc, key)
}

/// The union or the record type of these rows; `mark` says whether a bar or a comma stands before the first.
pub fn fenced_rows<N: Notes>(
    alloc: Global,
    at: u32,
    mark: bool,
    rows: Rows<N::Row>,
) -> Result<Placed<N::Row>, AllocError>
    ensures { IfOk result (λ x.
        placed_of N.noting N.view x ≡ fenced N.noting at rows.first mark (concat N.noting (values (labelled N.noting N.view rows.rows)))) }
{
    let Rows { first, rows } = rows;
    let parts = concat::<N>(alloc, rows)?;
    fenced::<N>(alloc, at, first, mark, parts)
}

/// What is noted of all rows, in the order of their labels.
fn concat<N: Notes>(alloc: Global, rows: ByLabel<N::Row>) -> Result<N::Row, AllocError>
    ensures { IfOk result (λ made. N.view made ≡ concat N.noting (values (labelled N.noting N.view rows))) }
{
    let mut nodes = N::none(alloc);
    let mut rows = rows.into_vec(alloc)?;
    while let Some((_, row)) = rows.pop() {
        nodes = N::joined(row, nodes)?;
    }
    Ok(nodes)
}

//! What is done at the imports to which a walk comes.

ghost use Rattle.std.specs.Prelude.{◌≡◌, slice_set};

use crate::ends::Next;
use crate::scans::Edge;

/// What is done at the imports to which a walk comes.
pub(crate) trait Visitor {
    ghost use Rattle.std.specs.Prelude.{◌≡◌, ◌<◌, length};
    ghost use Rattle.dh_syntax.specs.declared.locations.Key.{Key};
    ghost use Rattle.dh_syntax.specs.Expressions.Tree.{Term};
    ghost use Rattle.dh_imports.specs.Walk.{Walked, walk_key};
    ghost use Rattle.dh_demand.specs.Nexts.{IsNext, IsInside};
    ghost use Rattle.dh_demand.specs.Scans.{IsEdge, text_key};
    ghost use Rattle.dh_demand.specs.Inside.Going.{goes_on};
    ghost use Rattle.dh_demand.specs.Inside.Seen.{Sight};

    /// What is written of an import.
    type Slot: Drop;

    ghost sight: { Self → Sight Self.Slot };

    /// What comes next at an import with this edge, from which on so many are left; and what is written of it.
    fn visit(&self, edge: Edge, left: usize, slots: &mut [Self::Slot]) -> Next
        requires { edge.key < length (sight self.now).rows }
        ensures next { (k : Key) → IsEdge (sight self.now).parent (sight self.now).rows k edge →
            IsNext (sight self.now).parent (sight self.now).rows (walk_key (text_key (sight self.now).parent) (sight self.now).ask k) result }
        ensures slots { (k : Key) → IsEdge (sight self.now).parent (sight self.now).rows k edge → slots.new ≡ (sight self.now).note left k slots.old }
        ensures inside { IsInside (sight self.now).rows result };

    /// Whether `l ? r` goes on with `r` after what came of `l`.
    fn recovers(&self, next: &Next) -> bool
        requires { IsInside (sight self.now).rows next.now }
        ensures { (w : Walked Term) → IsNext (sight self.now).parent (sight self.now).rows w next.now → result ≡ goes_on w };
}

/// Writes in this slot, where there is one.
pub(crate) fn write<S: Copy>(slots: &mut [S], at: usize, value: S)
    ensures { slots.new ≡ slice_set slots.old at value }
{
    if at < slots.len() {
        slots[at] = value;
    }
}

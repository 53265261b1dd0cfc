//! What is done for one file.

use dh_ports::World;
use dh_shelf::Visit;
use std::alloc::Global;
use std::sync::Wait;

/// A session for one file at one desk: it replies `A` to a file `F`, and leaves the desk `D` changed.
pub trait Session<W: World, D, F, A> {
    /// Which replies there may be to a file, with the desk before and after.
    ghost replies: { Self → F → D → D → A → Type 0 };

    /// The reply to a file. Where memory is wanting that is a reply too.
    fn reply<T: Wait>(
        &self,
        rt: &T,
        alloc: Global,
        desk: &mut D,
        visit: &mut Visit<'_, W>,
        file: &F,
    ) -> A
        ensures { replies self.now file.now desk.old desk.new result };
}

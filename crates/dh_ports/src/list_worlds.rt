//! A world that tells what lists have.

ghost use Rattle.std.specs.Prelude.{◌≡◌, [], All, IfOk};
ghost use Rattle.dh_ports.specs.Desks.{IsShort, Tells};
ghost use Rattle.dh_ports.specs.MemDesk.{listed};
ghost use Rattle.dh_ports.specs.MemDeskViews.{contents_of, cache_of, kept_of};

use crate::mem_desks::{Cache, Contents, DeskFails, MemDesk};
use crate::worlds::World;
use std::alloc::Global;
use std::marker::{Brand, PhantomData};

/// What is found at locations, and what the cache has. No clause can name lists that only a run makes, so a type names them; who
/// calls a function over such a type picks them.
pub trait Listed {
    ghost use Rattle.std.specs.Prelude.{List};
    ghost use Rattle.dh_ports.specs.declared.mem_desks.CacheEntry.{CacheEntry};
    ghost use Rattle.dh_ports.specs.declared.mem_desks.Content.{Content};

    ghost contents: { List Content };

    ghost cache: { List CacheEntry };
}

impl Listed for Brand {
    ghost use Rattle.std.specs.Prelude.{[]};

    ghost contents = { [] };

    ghost cache = { [] };
}

/// The world that tells of each location and of each digest what these lists have.
#[derive(Clone, Copy, Debug)]
pub struct ListWorld<L: Listed> {
    lists: PhantomData<L>,
}

impl<L: Listed> World for ListWorld<L> {
    ghost use Rattle.std.specs.Prelude.{Some};
    ghost use Rattle.dh_ports.specs.MemDesk.{listed, entry_under};

    ghost told = { λ l. Some (listed L.contents l) };

    ghost shelved = { λ d. Some (entry_under L.cache d) };
}

impl<L: Listed> MemDesk<ListWorld<L>> {
    /// A desk over these lists, whose calls fail that `fails` lists, in the world that tells them. It takes no memory.
    pub fn over_lists(
        alloc: Global,
        contents: Contents,
        cache: Cache,
        fails: DeskFails,
    ) -> MemDesk<ListWorld<L>>
        requires short { All (λ c. IsShort c.got) contents }
        requires contents { contents ≡ L.contents }
        requires cache { cache ≡ L.cache }
        ensures contents { contents_of result ≡ contents }
        ensures cache { cache_of result ≡ cache }
        ensures kept { kept_of result ≡ [] }
    {
        MemDesk::<ListWorld<L>>::over(alloc, contents, cache, fails)
    }
}

#[cfg(test)]
mod tests {
    use super::*;
    use crate::desks::{Desk, DeskError};
    use crate::mem_desks::{Content, are_short};
    use crate::worlds::{Found, Got};
    use dh_syntax::{Bytes, Loc, Many, Piece};
    use std::alloc::AllocError;
    use std::test::Fail;

    fn fetch<W: World + Send + Sync, D: Desk<W> + Send + Drop>(
        desk: &mut D,
        alloc: Global,
        loc: &Loc,
    ) -> Result<Got, DeskError>
        ensures { IfOk result (λ got. Tells (W.told loc.now) got) }
    {
        desk.fetch(alloc, loc)
    }

    /// What a desk over the lists of a type finds.
    fn found_over<L: Listed + Send + Sync>(
        alloc: Global,
        contents: Contents,
        cache: Cache,
        loc: &Loc,
    ) -> Result<Got, DeskError>
        requires short { All (λ c. IsShort c.got) contents }
        requires contents { contents ≡ L.contents }
        requires cache { cache ≡ L.cache }
        ensures { IfOk result (λ got. got ≡ listed L.contents loc.now) }
    {
        let fails = DeskFails {
            fetch: Many::new(alloc),
            look: Many::new(alloc),
            keep: Many::new(alloc),
        };
        let mut desk = MemDesk::<ListWorld<L>>::over_lists(alloc, contents, cache, fails);
        fetch::<ListWorld<L>, MemDesk<ListWorld<L>>>(&mut desk, alloc, loc)
    }

    /// What a desk finds over lists that only a run makes: that it answers what its world tells gives what is listed.
    fn found_in(
        alloc: Global,
        contents: Contents,
        cache: Cache,
        loc: &Loc,
    ) -> Result<Got, DeskError>
        requires { All (λ c. IsShort c.got) contents }
        ensures { IfOk result (λ got. got ≡ listed contents loc.now) }
    {
        found_over::<Brand>(alloc, contents, cache, loc)
    }

    fn here(alloc: Global, name: &str) -> Result<Loc, AllocError> {
        let comps = Vec::from_array(alloc, [Piece::new(alloc, name)?])?;
        Ok(Loc::Here(Many::of(comps)))
    }

    #[test]
    fn a_world_of_lists_tells_what_is_found(rt: HostRuntime) -> Result<(), Fail> {
        let alloc = rt.alloc();
        for (name, is_there) in [("a", true), ("b", false)] {
            let found = Found {
                bytes: Bytes::of([b'1'].to_vec(alloc)?),
                allow: None,
            };
            let content = Content {
                loc: here(alloc, "a")?,
                got: Got::Found(found),
            };
            let contents = Many::of(Vec::from_array(alloc, [content])?);
            if !are_short(&contents) {
                return Err(Fail::from("too long"));
            }
            match found_in(alloc, contents, Many::new(alloc), &here(alloc, name)?) {
                Ok(Got::Found(found)) if is_there => {
                    assert_eq!(rt; found.bytes.as_slice(), b"1".as_slice());
                }
                Ok(Got::Absent) if !is_there => {}
                _ => return Err(Fail::from("another answer")),
            }
        }
        Ok(())
    }
}

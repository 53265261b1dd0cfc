//! The folders that the environment names: the home folder, and that of the cache.

ghost use Rattle.std.specs.Prelude.{◌≡◌, ◌++◌, Err, IfOk, OnErr, string_bytes};
ghost use Rattle.dh_desks.specs.Places as spec;

use dh_syntax::Piece;
use std::alloc::{AllocError, Global};
use std::env;
use std::env::{Env, VarError};

/// A folder that the environment names.
#[derive(Debug, Drop)]
pub enum Folder {
    Unset,
    At(Piece),
    /// A folder whose path is not UTF-8, which the system library cannot tell.
    Untold,
}

/// The folders of a run.
#[derive(Debug)]
pub struct Folders {
    /// What `~` stands for.
    pub home: Folder,
    /// Where the entries of the cache are, or where they are made.
    pub cache: Folder,
}

/// The folder that a variable names. A variable that is set to nothing counts as unset.
fn folder_of(value: Result<String, VarError>) -> Result<Folder, AllocError>
    ensures set { IfOk value (λ path. result ≡ Ok (spec.named (string_bytes path))) }
    ensures unset { value ≡ Err VarError.NotPresent → result ≡ Ok Folder.Unset }
    ensures untold { value ≡ Err VarError.NotUnicode → result ≡ Ok Folder.Untold }
    ensures memory { OnErr result (value ≡ Err VarError.OutOfMemory) }
{
    match value {
        Ok(path) if path.is_empty() => Ok(Folder::Unset),
        Ok(path) => Ok(Folder::At(Piece::of(path))),
        Err(VarError::NotPresent) => Ok(Folder::Unset),
        Err(VarError::NotUnicode) => Ok(Folder::Untold),
        Err(VarError::OutOfMemory) => Err(AllocError),
    }
}

/// What stands below a folder, where the folder is known.
pub(crate) fn below(alloc: Global, folder: &Folder, rest: &str) -> Result<Folder, AllocError>
    ensures { IfOk result (λ f. f ≡ spec.below folder.now rest.now) }
{
    match folder {
        Folder::At(path) => {
            let mut text = String::from_str(alloc, path.as_str())?;
            text.push_str(rest)?;
            Ok(Folder::At(Piece::of(text)))
        }
        Folder::Unset => Ok(Folder::Unset),
        Folder::Untold => Ok(Folder::Untold),
    }
}

/// The folder of the cache, from the values of XDG_CACHE_HOME and HOME.
fn cache_folder(alloc: Global, caches: &Folder, home: &Folder) -> Result<Folder, AllocError>
    ensures { IfOk result (λ f. f ≡ spec.cache_folder caches.now home.now) }
{
    match caches {
        Folder::Unset => below(alloc, home, "/.cache/dhall"),
        Folder::At(_) | Folder::Untold => below(alloc, caches, "/dhall"),
    }
}

impl Folders {
    /// Asks the environment for HOME and XDG_CACHE_HOME.
    pub fn read<R: Env + AllocGlobal>(rt: &R) -> Result<Folders, AllocError> {
        let home = folder_of(env::var(rt, "HOME"))?;
        let caches = folder_of(env::var(rt, "XDG_CACHE_HOME"))?;
        let cache = cache_folder(rt.alloc(), &caches, &home)?;
        Ok(Folders { home, cache })
    }
}

// Written by hand: a derived drop puts the arms of both folders inline wherever a value may die.
impl Drop for Folders {
    fn drop(self) {
        let Folders { home: _, cache: _ } = self;
    }
}

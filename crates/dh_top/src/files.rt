//! One file of a batch at one desk: what `hash` replies on its import, and the entries for the cache.

ghost use Rattle.std.specs.Prelude.{◌≡◌, ◌≤◌, [], IfOk, Ok, OnErr};
ghost use Rattle.dh_files.specs.FileWords.{file_text as text_of_file};
ghost use Rattle.dh_syntax.specs.Expressions.Bridge.{term};
ghost use Rattle.dh_syntax.specs.Expressions.Spellable.{IsSpellable};
ghost use Rattle.dh_syntax.specs.Text.Spelling.{ParsesTo};
ghost use Rattle.dh_top.specs.FileReplies.{IsServed};

use crate::faults::why_reply;
use crate::replies::{Reply, misspelling};
use crate::resolving::ended_reply;
use dh_batch::Session;
use dh_command::Verb;
use dh_files::file_text;
use dh_imports::Why;
use dh_parse::parse;
use dh_ports::{Cache, Desk, Gate, World};
use dh_session::{SessionFault, resolve_one};
use dh_shelf::Visit;
use dh_syntax::{Expr, Many, ParseFault};
use std::alloc::{AllocError, Global};
use std::sync::Wait;

/// What a session makes of a file.
#[derive(Drop)]
pub(crate) struct FileReply {
    /// What `hash` replies. None where memory was wanting.
    pub reply: Option<Reply>,
    /// The entries for the cache.
    pub keeps: Cache,
}

/// The reply to a file that the session of its root answers.
fn hash_root<T: Wait, W: World, D: Desk<W>, G: Gate>(
    rt: &T,
    alloc: Global,
    desk: &mut D,
    visit: &mut Visit<'_, W>,
    word: &str,
    text: &[u8],
    e: Expr,
    gate: &G,
) -> Result<FileReply, AllocError>
    requires text { text.now ≡ text_of_file word.now }
    requires spelled { ParsesTo text.now (Ok (term e)) }
    requires spellable { IsSpellable (term e) }
    ensures served { IfOk result (λ r. IsServed W.told W.shelved (λ d. D.asked d) (λ d. D.faults d) (λ d. D.filed d) word.now desk.old desk.new r) }
    ensures counted { OnErr result (D.faults desk.old ≤ D.faults desk.new) }
    ensures filed { OnErr result (D.filed desk.new ≡ D.filed desk.old) }
{
    match resolve_one::<T, W, D, G>(rt, alloc, desk, visit, e, gate) {
        Ok(answered) => {
            answered.table.by_world();
            answered.table.by_history();
            let reply = ended_reply(alloc, Verb::Hash, text, &answered.table, &answered.ended)?;
            Ok(FileReply {
                reply: Some(reply),
                keeps: answered.keeps,
            })
        }
        Err(SessionFault::TooMany) => {
            let reply = why_reply(alloc, None, &Why::TooMany)?;
            Ok(FileReply {
                reply: Some(reply),
                keeps: Many::new(alloc),
            })
        }
        Err(SessionFault::Memory) => Err(AllocError),
    }
}

/// The reply to the text that a word stands for.
fn hash_text<T: Wait, W: World, D: Desk<W>, G: Gate>(
    rt: &T,
    alloc: Global,
    desk: &mut D,
    visit: &mut Visit<'_, W>,
    word: &str,
    gate: &G,
) -> Result<FileReply, AllocError>
    ensures served { IfOk result (λ r. IsServed W.told W.shelved (λ d. D.asked d) (λ d. D.faults d) (λ d. D.filed d) word.now desk.old desk.new r) }
    ensures counted { OnErr result (D.faults desk.old ≤ D.faults desk.new) }
    ensures filed { OnErr result (D.filed desk.new ≡ D.filed desk.old) }
{
    let text = file_text(alloc, word)?;
    match parse(alloc, &text) {
        Ok(e) => hash_root::<T, W, D, G>(rt, alloc, desk, visit, word, &text, e, gate),
        Err(fault) => match fault {
            ParseFault::Memory => Err(AllocError),
            _ => {
                let reply = misspelling(alloc, fault)?;
                Ok(FileReply {
                    reply: Some(reply),
                    keeps: Many::new(alloc),
                })
            }
        },
    }
}

/// The reply to the file that a word names.
fn hash_file<T: Wait, W: World, D: Desk<W>, G: Gate>(
    rt: &T,
    alloc: Global,
    desk: &mut D,
    visit: &mut Visit<'_, W>,
    word: &str,
    gate: &G,
) -> FileReply
    ensures { IsServed W.told W.shelved (λ d. D.asked d) (λ d. D.faults d) (λ d. D.filed d) word.now desk.old desk.new result }
{
    match hash_text::<T, W, D, G>(rt, alloc, desk, visit, word, gate) {
        Ok(reply) => reply,
        Err(_) => FileReply {
            reply: None,
            keeps: Many::new(alloc),
        },
    }
}

/// The sessions of a batch: each is `hash` on the import of a file.
#[derive(Drop)]
pub(crate) struct Hashing<'g, G> {
    pub gate: &'g G,
}

impl<W: World, D: Desk<W>, G: Gate> Session<W, D, String, FileReply> for Hashing<'_, G> {
    ghost use Rattle.std.specs.Prelude.{string_bytes};
    ghost use Rattle.dh_top.specs.FileReplies.{IsServed};

    ghost replies = { λ session file before after reply. IsServed W.told W.shelved (λ d. D.asked d) (λ d. D.faults d) (λ d. D.filed d) (string_bytes file) before after reply };

    fn reply<T: Wait>(
        &self,
        rt: &T,
        alloc: Global,
        desk: &mut D,
        visit: &mut Visit<'_, W>,
        file: &String,
    ) -> FileReply {
        hash_file::<T, W, D, G>(rt, alloc, desk, visit, file.as_str(), self.gate)
    }
}

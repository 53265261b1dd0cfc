//! The eight ledgers in which workers count what they do, and the shares of them that each worker holds.

ghost use Rattle.std.specs.Prelude.{◌≡◌, ℕ, ◌+◌, ◌≤◌, ◌<◌, cond};
ghost use Rattle.dh_shared.specs.Held.{none_held, both, with_claim, with_kept, with_release, with_return, with_late, with_over};

use crate::ledgers::{Blanks, Claims, Failed, Fetches, Kept, Lates, Overs, Releases, Returns};
use crate::runs::Counted;
use std::marker::Model;
use std::sync::ledger::{Book, Share};

/// The eight books: what all workers together have counted.
#[derive(Drop)]
pub struct Books<N: Counted> {
    claims: Book<Claims<N>>,
    kept: Book<Kept<N>>,
    releases: Book<Releases<N>>,
    lates: Book<Lates<N>>,
    fetches: Book<Fetches<N>>,
    failed: Book<Failed<N>>,
    overs: Book<Overs<N>>,
    returns: Book<Returns<N>>,
}

impl<N: Counted> Model for Books<N> {
    ghost use Rattle.dh_shared.specs.Held.{Held};

    ghost Value = { Held };

    ghost view = { λ b. record { parts = 0; claims = b.claims.total; kept = b.kept.total; releases = b.releases.total; lates = b.lates.total; fetches = b.fetches.total; failed = b.failed.total; overs = b.overs.total; returns = b.returns.total } };
}

/// Equally many parts of each of the eight ledgers, with what was counted on them.
#[derive(Drop)]
pub struct Shares<N: Counted> {
    claims: Share<Claims<N>>,
    kept: Share<Kept<N>>,
    releases: Share<Releases<N>>,
    lates: Share<Lates<N>>,
    fetches: Share<Fetches<N>>,
    failed: Share<Failed<N>>,
    overs: Share<Overs<N>>,
    returns: Share<Returns<N>>,
}

impl<N: Counted> Model for Shares<N> {
    ghost use Rattle.std.specs.Prelude.{◌≡◌};
    ghost use Rattle.dh_shared.specs.Held.{Held};

    ghost Value = { Held };

    ghost view = { λ s. record { parts = s.claims.parts; claims = s.claims.amount; kept = s.kept.amount; releases = s.releases.amount; lates = s.lates.amount; fetches = s.fetches.amount; failed = s.failed.amount; overs = s.overs.amount; returns = s.returns.amount } };

    ghost invariant = { λ s. (s.kept.parts ≡ s.claims.parts) × (s.releases.parts ≡ s.claims.parts) × (s.lates.parts ≡ s.claims.parts) × (s.fetches.parts ≡ s.claims.parts) × (s.failed.parts ≡ s.claims.parts) × (s.overs.parts ≡ s.claims.parts) × (s.returns.parts ≡ s.claims.parts) };
}

/// The seat of one worker: one part of each ledger.
#[derive(Drop)]
pub struct Seat<N: Counted> {
    pub(crate) worker: u32,
    pub(crate) shares: Shares<N>,
    ghost one: { shares.parts ≡ 1 },
}

impl<N: Counted> Books<N> {
    /// Opens the books, and the shares that hold all of their parts.
    pub fn open(blanks: Blanks, workers: u64) -> (Books<N>, Shares<N>)
        requires blanks { blanks ≡ N.ledgers }
        requires parts { N.ledgers.parts ≡ workers }
        ensures books { result.0 ≡ none_held 0 }
        ensures shares { result.1 ≡ none_held workers }
    {
        let Blanks {
            claims,
            kept,
            releases,
            lates,
            fetches,
            failed,
            overs,
            returns,
        } = blanks;
        let (claims, my_claims) = claims.open();
        let (kept, my_kept) = kept.open();
        let (releases, my_releases) = releases.open();
        let (lates, my_lates) = lates.open();
        let (fetches, my_fetches) = fetches.open();
        let (failed, my_failed) = failed.open();
        let (overs, my_overs) = overs.open();
        let (returns, my_returns) = returns.open();
        (
            Books {
                claims,
                kept,
                releases,
                lates,
                fetches,
                failed,
                overs,
                returns,
            },
            Shares {
                claims: my_claims,
                kept: my_kept,
                releases: my_releases,
                lates: my_lates,
                fetches: my_fetches,
                failed: my_failed,
                overs: my_overs,
                returns: my_returns,
            },
        )
    }

    /// Counts a claim, and whether it is that of a fetch.
    pub fn add_claim(&mut self, mine: &mut Shares<N>, fetch: bool)
        requires { 0 < mine.old.parts }
        ensures books { self.new ≡ with_claim self.old (cond fetch 1 0) }
        ensures shares { mine.new ≡ with_claim mine.old (cond fetch 1 0) }
    {
        self.claims.add(&mut mine.claims, 1);
        self.fetches.add(&mut mine.fetches, u64::from(fetch));
    }

    /// Counts a delivery that was kept, and whether it told a failure.
    pub fn add_kept(&mut self, mine: &mut Shares<N>, failed: bool)
        requires { 0 < mine.old.parts }
        ensures books { self.new ≡ with_kept self.old (cond failed 1 0) }
        ensures shares { mine.new ≡ with_kept mine.old (cond failed 1 0) }
    {
        self.kept.add(&mut mine.kept, 1);
        self.failed.add(&mut mine.failed, u64::from(failed));
    }

    /// Counts a release.
    pub fn add_release(&mut self, mine: &mut Shares<N>)
        requires { 0 < mine.old.parts }
        ensures books { self.new ≡ with_release self.old }
        ensures shares { mine.new ≡ with_release mine.old }
    {
        self.releases.add(&mut mine.releases, 1);
    }

    /// Counts a ticket that was given back.
    pub fn add_return(&mut self, mine: &mut Shares<N>)
        requires { 0 < mine.old.parts }
        ensures books { self.new ≡ with_return self.old }
        ensures shares { mine.new ≡ with_return mine.old }
    {
        self.returns.add(&mut mine.returns, 1);
    }

    /// Counts a delivery that came late.
    pub fn add_late(&mut self, mine: &mut Shares<N>)
        requires { 0 < mine.old.parts }
        ensures books { self.new ≡ with_late self.old }
        ensures shares { mine.new ≡ with_late mine.old }
    {
        self.lates.add(&mut mine.lates, 1);
    }

    /// Counts a claim that found the run over.
    pub fn add_over(&mut self, mine: &mut Shares<N>)
        requires { 0 < mine.old.parts }
        ensures books { self.new ≡ with_over self.old }
        ensures shares { mine.new ≡ with_over mine.old }
    {
        self.overs.add(&mut mine.overs, 1);
    }

    /// With every part the shares are the books.
    pub fn audit(&mut self, all: &mut Shares<N>)
        requires { all.old.parts ≡ N.ledgers.parts }
        ensures books { self.new ≡ self.old }
        ensures shares { all.new ≡ all.old }
        ensures same { record all.old { parts = 0 } ≡ self.old }
    {
        self.claims.audit(&mut all.claims);
        self.kept.audit(&mut all.kept);
        self.releases.audit(&mut all.releases);
        self.lates.audit(&mut all.lates);
        self.fetches.audit(&mut all.fetches);
        self.failed.audit(&mut all.failed);
        self.overs.audit(&mut all.overs);
        self.returns.audit(&mut all.returns);
    }
}

impl<N: Counted> Shares<N> {
    /// One part of each, with no amount.
    pub fn split_one(&mut self) -> Shares<N>
        requires { (0 < self.old.parts) × (self.old ≡ none_held self.old.parts) }
        ensures one { result ≡ none_held 1 }
        ensures rest { (self.new.parts + 1 ≡ self.old.parts) × (self.new ≡ none_held self.new.parts) }
    {
        Shares {
            claims: self.claims.split_off(1, 0),
            kept: self.kept.split_off(1, 0),
            releases: self.releases.split_off(1, 0),
            lates: self.lates.split_off(1, 0),
            fetches: self.fetches.split_off(1, 0),
            failed: self.failed.split_off(1, 0),
            overs: self.overs.split_off(1, 0),
            returns: self.returns.split_off(1, 0),
        }
    }

    /// Takes other shares in.
    pub fn merge(&mut self, other: Shares<N>)
        ensures { self.new ≡ both self.old other }
    {
        let Shares {
            claims,
            kept,
            releases,
            lates,
            fetches,
            failed,
            overs,
            returns,
        } = other;
        self.claims.merge(claims);
        self.kept.merge(kept);
        self.releases.merge(releases);
        self.lates.merge(lates);
        self.fetches.merge(fetches);
        self.failed.merge(failed);
        self.overs.merge(overs);
        self.returns.merge(returns);
    }
}

impl<N: Counted> Seat<N> {
    /// Its shares.
    pub fn into_shares(self) -> Shares<N>
        ensures one { result.parts ≡ 1 }
        ensures same { result ≡ self.shares }
    {
        let Seat { worker: _, shares } = self;
        shares
    }
}

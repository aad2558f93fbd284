//! Sums of bundles.

use crate::bundle::Bundle;
use crate::token::{COIN, PolicyId, Token};
use crate::totals::{Totals, first_unlike, lesser, make_room, raise_all, total_at};
use mp_memory::{Memory, NoMemory};
use std::collections::BTreeMap;
use std::marker::Model;

/// The sum of bundles: their number, and the total of each token. Contracts see the totals that aren't zero.
///
/// The total of coin is stored apart, so adding a bundle of only coin takes no memory. The other totals are a map in
/// the order of their tokens. Adding a bundle of m tokens to n totals takes about m log n steps, whichever tokens an
/// attacker picks.
/// First, each token without a total gets a total of zero, which readers can't distinguish from no total. Only this
/// step takes memory. If it fails half way, each total is as before. Then each quantity is added to an existing total,
/// which can't fail.
pub struct Sum {
    coin: i128,
    totals: Totals,
    added: u64,
}

impl Drop for Sum {
    fn drop(self) {
        let Sum {
            coin: _,
            totals: _,
            added: _,
        } = self;
    }
}

impl Model for Sum {
    ghost use Rattle.std.specs.Coded.{codes};
    ghost use Rattle.std.specs.FinMap as finite;
    ghost use Rattle.mp_bundle.specs.Sum as told;

    ghost Value = { told.Sum };

    ghost coded = { Prim.hlevel (codes, finite.code) };

    ghost use Rattle.mp_bundle.specs.Inside.Sum.{sum_of, IsHeld};

    ghost view = { sum_of };

    ghost invariant = { IsHeld };
}

impl Sum {
    ghost use Rattle.std.specs.Prelude.{◌≡◌, ◌≤◌, ◌<◌, ◌^◌, OnOk, OnErr, IfSome, IfNone, length};
    ghost use Rattle.mp_bundle.specs.Token.{token};
    ghost use Rattle.mp_bundle.specs.Sum.{nothing, total_of, Adds, AreAlike, IsFirstDifference};

    /// The sum of no bundles. It takes no memory.
    pub fn new(memory: Memory) -> Sum
        ensures { result ≡ nothing }
    {
        Sum {
            coin: 0,
            totals: BTreeMap::new(memory),
            added: 0,
        }
    }

    /// Adds a bundle. At most 2^32 bundles may be added. Only tokens other than coin take memory.
    ///
    /// # Errors
    /// `NoMemory`, and then the sum is as before.
    pub fn add(&mut self, bundle: &Bundle) -> Result<(), NoMemory>
        requires { self.old.added < 2 ^ 32 }
        ensures ok { OnOk result (Adds self.old bundle.now self.new) }
        ensures err { OnErr result (self.new ≡ self.old) }
    {
        let coin = bundle.coin();
        let others = bundle.others();
        make_room(&mut self.totals, others)?;
        raise_all(&mut self.totals, others);
        self.coin += i128::from(coin);
        self.added += 1;
        Ok(())
    }

    /// The total of a token, or 0 if the sum doesn't have it.
    pub fn total(&self, policy: &PolicyId, name: &[u8]) -> i128
        ensures { result ≡ total_of self.now (token policy.now name.now) }
    {
        match Token::of(policy, name) {
            Some(token) if token.is_coin() => self.coin,
            Some(token) => total_at(&self.totals, &token),
            None => 0,
        }
    }

    /// The number of bundles that were added.
    pub fn added(&self) -> u64
        ensures same { result ≡ self.now.added }
        ensures few { result ≤ 2 ^ 32 }
    {
        self.added
    }

    /// The least token whose totals differ, if there is one. Its name has at most 32 bytes.
    pub fn first_difference<'a>(&'a self, other: &'a Sum) -> Option<(PolicyId, &'a [u8])>
        ensures none { IfNone result (AreAlike self.now other.now) }
        ensures first { IfSome result
            (λ d. IsFirstDifference self.now other.now (token d.0 d.1.now)) }
        ensures short { IfSome result (λ d. length d.1.now ≤ 32) }
    {
        if self.coin != other.coin {
            return Some((COIN, &[]));
        }
        let missed = first_unlike(&self.totals, &other.totals);
        match lesser(missed, first_unlike(&other.totals, &self.totals)) {
            Some(token) => Some((token.policy, token.name.as_slice())),
            None => None,
        }
    }
}

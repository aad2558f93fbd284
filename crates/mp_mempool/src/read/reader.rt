//! Reading a pool without the pool.
ghost use Rattle.std.specs.Prelude.{◌≡◌, ◌<◌, ◌≤◌, length, IfSome, IfOk, OnOk, OnErr};
ghost use Rattle.std.specs.Arc.{arc_value};
ghost use Rattle.mp_rules.specs.Checked.{IsChecked};
ghost use Rattle.mp_history.specs.Log.{Begins, IsLegalLog};
ghost use Rattle.mp_mempool.specs.Seen.{IsSeen, IsSnapshotFor};

use crate::read::early::check_early;
use crate::read::pass::Pass;
use crate::read::snapshot_for::{SnapshotFor, snapshot_upon};
use mp_history::PoolName;
use mp_memory::{Memory, NoMemory};
use mp_rules::{Checked, Verifier};
use mp_tx::{Ledger, Tx};
use mp_versions::{Boards, Shown};
use std::sync::Arc;

/// What a thread needs to read a pool: the published versions, the verifier, and the memory handle. It has neither the pool nor
/// its lock. So no call here commits anything or waits for anybody. The pool's threads share it.
pub struct Reader<N: PoolName, V: Verifier> {
    memory: Memory,
    verifier: Arc<V, Memory>,
    boards: Boards<N>,
    ghost accepts: { V.accepts (arc_value verifier) ≡ N.accepts },
}

impl<N: PoolName, V: Verifier + Drop> Drop for Reader<N, V> {
    fn drop(self) {
        let Reader {
            memory: _,
            verifier: _,
            boards: _,
        } = self;
    }
}

// What the pass holds is legal. This costs nothing at run time.
fn look_at<N: PoolName>(pass: &Pass<N>)
    ensures { IsLegalLog N.accepts N.callers pass.now.front }
{
    let _version = pass.shown().version();
}

// The caller has then seen the version, which extends what it had seen.
fn see<N: PoolName>(pass: &mut Pass<N>, shown: Shown<N>)
    requires { Begins pass.old.front shown }
    ensures { IsSeen N.accepts N.callers pass.old pass.new }
{
    pass.see(shown);
    look_at(pass);
}

impl<N: PoolName, V: Verifier> Reader<N, V> {
    /// A reader of these boards.
    pub fn of(memory: Memory, verifier: Arc<V, Memory>, boards: Boards<N>) -> Reader<N, V>
        requires { V.accepts (arc_value verifier) ≡ N.accepts }
    {
        Reader {
            memory,
            verifier,
            boards,
        }
    }

    /// The memory handle of the pool.
    pub fn memory(&self) -> Memory {
        self.memory
    }

    /// The verifier, which decides which signatures are good.
    pub fn verifier(&self) -> &V
        ensures { V.accepts result.now ≡ N.accepts }
    {
        &self.verifier
    }

    /// A share of the verifier, for a successor's reader.
    pub fn share_verifier(&self) -> Result<Arc<V, Memory>, NoMemory>
        ensures { IfOk result (λ verifier. V.accepts (arc_value verifier) ≡ N.accepts) }
    {
        Ok(Arc::try_clone(&self.verifier)?)
    }

    /// Where versions are published.
    pub fn boards(&self) -> &Boards<N> {
        &self.boards
    }

    /// What is found about the transaction before the lock is taken. What the caller has seen stays as it is.
    pub fn check_early(&self, pass: &mut Pass<N>, tx: &Tx) -> Option<Checked>
        ensures checked { IfSome result (IsChecked N.accepts tx.now) }
        ensures same { pass.new ≡ pass.old }
    {
        pass.catch_up(&self.boards);
        let version = pass.latest().version();
        check_early(self.memory, version, tx, self.verifier())
    }

    // Gives the pass the newest version that it finds, if that is longer than its own.
    fn take_later(&self, pass: &mut Pass<N>)
        ensures seen { IsSeen N.accepts N.callers pass.old pass.new }
    {
        pass.catch_up(&self.boards);
        match pass.share_later() {
            Some(shown) => see(pass, shown),
            None => look_at(pass),
        }
    }

    // The same. The newest version was after this many entries before the look.
    #[inline(never)]
    fn look(&self, pass: &mut Pass<N>, newest_len: u64)
        ensures seen { IsSeen N.accepts N.callers pass.old pass.new }
    {
        self.take_later(pass);
        pass.note_look(newest_len);
    }

    /// Gives the pass the newest published version if that is longer than its own. `Pass::snapshot` then reads it. It takes no
    /// lock and allocates nothing. If nothing was published since the last call, it is one load.
    #[inline]
    pub fn refresh(&self, pass: &mut Pass<N>)
        ensures seen { IsSeen N.accepts N.callers pass.old pass.new }
    {
        let newest_len = self.boards.newest_len();
        if pass.has_looked(newest_len) {
            look_at(pass);
        } else {
            self.look(pass, newest_len);
        }
    }

    /// Gives the pass a version that another caller passed on, if it is longer than its own. It takes no lock, allocates nothing,
    /// and can't be refused.
    pub fn learn(&self, pass: &mut Pass<N>, shown: Shown<N>)
        ensures longer { length pass.old.front.entries < length shown.entries
            → pass.new ≡ record pass.old { front = shown } }
        ensures shorter { length shown.entries ≤ length pass.old.front.entries
            → pass.new ≡ pass.old }
        ensures seen { IsSeen N.accepts N.callers pass.old pass.new }
    {
        pass.learn(shown);
        look_at(pass);
    }

    // Which of the version's transactions would stay valid on the ledger state.
    fn try_upon(
        &self,
        memory: Memory,
        shown: &Shown<N>,
        ledger: &Ledger,
    ) -> Result<SnapshotFor, NoMemory>
        ensures { IfOk result (IsSnapshotFor N.accepts shown.now ledger.now) }
    {
        snapshot_upon(memory, shown.version(), ledger, self.verifier())
    }

    /// Which transactions of the newest version would stay valid on another ledger state: each that is valid on it after those
    /// kept before it. The pool doesn't change, and the pass then holds that version. It takes no lock.
    ///
    /// # Errors
    /// `NoMemory`. Then the pass is as it was.
    pub fn snapshot_for(
        &self,
        memory: Memory,
        pass: &mut Pass<N>,
        ledger: &Ledger,
    ) -> Result<SnapshotFor, NoMemory>
        ensures kept { IfOk result (IsSnapshotFor N.accepts pass.new.front ledger.now) }
        ensures seen { OnOk result (IsSeen N.accepts N.callers pass.old pass.new) }
        ensures err { OnErr result (pass.new ≡ pass.old) }
    {
        pass.catch_up(&self.boards);
        let shown = pass.latest().share()?;
        let kept = self.try_upon(memory, &shown, ledger)?;
        pass.see(shown);
        Ok(kept)
    }
}

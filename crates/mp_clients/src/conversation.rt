//! The state of a conversation, line by line.

use crate::allowed::{is_alone, is_note};
use crate::asking::{GIVEN_ROOM, ROOM};
use crate::bad::answer_bad;
use crate::client::Client;
use crate::finishing::{finish, finish_given, finish_submit, forget_used};
use crate::forgetting::names_to_go;
use crate::meaning::{tx_meant, txs_meant, used_by};
use crate::recorded::Change;
use crate::shared::Shared;
use crate::stop::ClientStop;
use mp_history::PoolName;
use mp_lines::Line;
use mp_memory::{Memory, NoMemory};
use mp_names::{Binding, BlockBytes, DeclaredTx, LineFault, Name, Names};
use mp_rules::{AppliedBlock, Verifier};
use mp_seqpool::{Command, Ids};
use mp_serve::{
    Answer, Ask, Extended, Former, NewBlock, ResolvedBlock, Staged, TxWord, Txs, Used,
    back_refused_line, extend, forgotten_line, no_outputs, read_line, show_line, undecodable_line,
};
use mp_session::{Settings, ledger_at};
use mp_text::Text;
use mp_tx::{Ledger, OutRef, Output, Tx, TxFault};
use std::sync::{Arc, Wait};

/// The state of a conversation once the pool is open.
#[derive(Drop)]
pub struct Conversation<N: PoolName> {
    pub names: Names,
    pub settings: Arc<Settings, Memory>,
    pub client: Client<N>,
    /// What is staged for the next ledger state.
    pub staged: Staged,
    /// How many names may be declared.
    pub most_names: u64,
    /// The number of the next line, from 1, or from the last reset.
    pub line: u64,
}

impl<N: PoolName> Conversation<N> {
    ghost use Rattle.std.specs.Prelude.{◌≡◌, ℕ, map, true, false, Some, None, Ok, Err, IfOk, IfErr, OnErr};
    ghost use Rattle.std.specs.Arc.{arc_value};
    ghost use Rattle.mp_tx.specs.Reading.{transaction_of};
    ghost use Rattle.mp_seqpool.specs.Command.{Submit};
    ghost use Rattle.mp_seqpool.specs.Inside.Command.{command_of};
    ghost use Rattle.mp_names.specs.Fault as lines;
    ghost use Rattle.mp_lines.specs.Inside.Line.{to_line};
    ghost use Rattle.mp_serve.specs.Talk as alone;
    ghost use Rattle.mp_serve.specs.Ask.{Does, Extends, Syncs};
    ghost use Rattle.mp_serve.specs.ServedPool.{state_back};
    ghost use Rattle.mp_serve.specs.Inside.Former.{LeadsBack};
    ghost use Rattle.mp_serve.specs.Inside.Ask.{to_ask, to_block, to_tx_word};
    ghost use Rattle.mp_serve.specs.Inside.Answer.{text_of};
    ghost use Rattle.mp_clients.specs.declared.stop.ClientStop.TheVariants as stops;
    ghost use Rattle.mp_clients.specs.Alone.{stage_of};
    ghost use Rattle.mp_clients.specs.Asking.{may_do, may_ask};
    ghost use Rattle.mp_clients.specs.Inside.Notes.{is_note, is_change, is_alone};
    ghost use Rattle.mp_clients.specs.Answers.{IsDone, IsSubmitted, IsGiven, IsSynced, IsExtendedBy, IsReturned, IsTaken, IsHeard, moved, gone_back, used_by, counted};
    ghost use Rattle.mp_clients.specs.Inside.Steps.{IsStopped, IsToldAlone, IsBadAlone, IsMeantBlock};

    /// Counts the line that was answered. Its number stays at 2^64 - 1.
    pub fn count_line(&mut self)
        ensures { self.new ≡ counted self.old }
    {
        self.line = self.line.saturating_add(1);
    }

    // Makes the change, which keeps the ledger state.
    fn change<V: Verifier>(
        &mut self,
        rt: &impl Wait,
        shared: &Shared<N, V>,
        memory: Memory,
        command: &Command,
    ) -> Result<Answer, ClientStop>
        ensures ok { IfOk result (λ a. IsDone N.accepts N.callers self.old
            (command_of command.now) (moved self.old.client) (text_of a) self.new) }
        ensures err { IfErr result (IsStopped N.accepts N.callers (IsDone N.accepts N.callers
            self.old (command_of command.now) (moved self.old.client)) self.old self.new) }
    {
        let Ok(room) = shared.prepare(memory, ROOM, Change::of(command)) else {
            return Err(ClientStop::NoMemory);
        };
        match self.client.change(rt, &shared.pool, command) {
            Ok(asked) => {
                finish(
                    rt,
                    shared,
                    memory,
                    &self.names,
                    &mut self.client,
                    room,
                    &asked,
                )
            }
            Err(stop) => Err(stop),
        }
    }

    // Submits the transaction. If it is accepted, it is reported under the name.
    fn submit<V: Verifier>(
        &mut self,
        rt: &impl Wait,
        shared: &Shared<N, V>,
        memory: Memory,
        name: &Name,
        tx: Arc<Tx, Memory>,
    ) -> Result<Answer, ClientStop>
        ensures ok { IfOk result (λ a. IsSubmitted N.accepts N.callers self.old name.now
            (arc_value tx) (text_of a) self.new) }
        ensures err { IfErr result (IsStopped N.accepts N.callers (IsSubmitted N.accepts N.callers
            self.old name.now (arc_value tx)) self.old self.new) }
    {
        let Ok(named) = Arc::try_clone(&tx) else {
            return Err(ClientStop::NoMemory);
        };
        let Ok(room) = shared.prepare(memory, ROOM, Change::Submit(&named)) else {
            return Err(ClientStop::NoMemory);
        };
        match self.client.change(rt, &shared.pool, &Command::Submit(tx)) {
            Ok(asked) => finish_submit(
                rt,
                shared,
                memory,
                &mut self.names,
                &mut self.client,
                room,
                name,
                &named,
                &asked,
            ),
            Err(stop) => Err(stop),
        }
    }

    // Submits the transaction, which has no name.
    fn give_tx<V: Verifier>(
        &mut self,
        rt: &impl Wait,
        shared: &Shared<N, V>,
        memory: Memory,
        tx: Tx,
    ) -> Result<Answer, ClientStop>
        ensures ok { IfOk result (λ a. IsGiven N.accepts N.callers self.old (Ok tx)
            (text_of a) self.new) }
        ensures err { IfErr result (IsStopped N.accepts N.callers (IsGiven N.accepts N.callers
            self.old (Ok tx)) self.old self.new) }
    {
        let Ok(tx) = Arc::new(memory, tx) else {
            return Err(ClientStop::NoMemory);
        };
        let Ok(given) = Arc::try_clone(&tx) else {
            return Err(ClientStop::NoMemory);
        };
        let Ok(room) = shared.prepare(memory, GIVEN_ROOM, Change::Submit(&given)) else {
            return Err(ClientStop::NoMemory);
        };
        match self.client.change(rt, &shared.pool, &Command::Submit(tx)) {
            Ok(asked) => finish_given(
                rt,
                shared,
                memory,
                &self.names,
                &mut self.client,
                room,
                &given,
                &asked,
            ),
            Err(stop) => Err(stop),
        }
    }

    // Submits the transaction with these bytes, which has no name.
    fn give<V: Verifier>(
        &mut self,
        rt: &impl Wait,
        shared: &Shared<N, V>,
        memory: Memory,
        bytes: &[u8],
    ) -> Result<Answer, ClientStop>
        ensures ok { IfOk result (λ a. IsGiven N.accepts N.callers self.old
            (transaction_of bytes.now) (text_of a) self.new) }
        ensures err { IfErr result (IsStopped N.accepts N.callers (IsGiven N.accepts N.callers
            self.old (transaction_of bytes.now)) self.old self.new) }
    {
        match Tx::decode(memory, bytes) {
            Ok(tx) => self.give_tx(rt, shared, memory, tx),
            Err(TxFault::NoMemory) => Err(ClientStop::NoMemory),
            Err(fault) => match undecodable_line(memory, fault) {
                Ok(text) => Ok(Answer::Line(text)),
                Err(_) => Err(ClientStop::NoMemory),
            },
        }
    }

    // Adopts a new ledger state, that after the block if one is given, and keeps how to go back to the one before it. Once it is
    // adopted, what it used isn't staged any more.
    fn go_on<V: Verifier>(
        &mut self,
        rt: &impl Wait,
        shared: &Shared<N, V>,
        memory: Memory,
        ledger: Ledger,
        former: Former,
        block: Option<&ResolvedBlock>,
        used: Used,
    ) -> Result<Answer, ClientStop>
        requires { LeadsBack ledger former self.old.client.ledger }
        ensures ok { IfOk result (λ a. IsSynced N.accepts N.callers self.old ledger used
            (text_of a) self.new) }
        ensures err { IfErr result (IsStopped N.accepts N.callers (IsSynced N.accepts N.callers
            self.old ledger used) self.old self.new) }
    {
        let Ok(room) = shared.prepare(memory, ROOM, Change::to(&ledger, block)) else {
            return Err(ClientStop::NoMemory);
        };
        match self.client.go_on(rt, &shared.pool, ledger, former) {
            Ok(asked) => {
                forget_used(&mut self.staged, used, &asked);
                finish(
                    rt,
                    shared,
                    memory,
                    &self.names,
                    &mut self.client,
                    room,
                    &asked,
                )
            }
            Err(stop) => Err(stop),
        }
    }

    // Adopts a new ledger state. The one before it is stored whole.
    fn adopt<V: Verifier>(
        &mut self,
        rt: &impl Wait,
        shared: &Shared<N, V>,
        memory: Memory,
        ledger: Ledger,
        used: Used,
    ) -> Result<Answer, ClientStop>
        ensures ok { IfOk result (λ a. IsSynced N.accepts N.callers self.old ledger used
            (text_of a) self.new) }
        ensures err { IfErr result (IsStopped N.accepts N.callers (IsSynced N.accepts N.callers
            self.old ledger used) self.old self.new) }
    {
        let Ok(before) = self.client.ledger().share() else {
            return Err(ClientStop::NoMemory);
        };
        self.go_on(
            rt,
            shared,
            memory,
            ledger,
            Former::Whole(before),
            None,
            used,
        )
    }

    // Adopts the ledger state after the block.
    fn adopt_block<V: Verifier>(
        &mut self,
        rt: &impl Wait,
        shared: &Shared<N, V>,
        memory: Memory,
        block: &ResolvedBlock,
        used: Used,
    ) -> Result<Answer, ClientStop>
        ensures ok { IfOk result (λ a. IsExtendedBy N.accepts N.callers self.old used block.now
            (text_of a) self.new) }
        ensures err { IfErr result (IsStopped N.accepts N.callers (IsExtendedBy N.accepts N.callers
            self.old used block.now) self.old self.new) }
    {
        let client = &self.client;
        let (signatures, ledger) = (client.signatures(), client.ledger());
        match extend(memory, &self.names, signatures, ledger, block) {
            Ok(Extended::To(applied)) => {
                let AppliedBlock { ledger, undo } = applied;
                self.go_on(
                    rt,
                    shared,
                    memory,
                    ledger,
                    Former::Block(undo),
                    Some(block),
                    used,
                )
            }
            Ok(Extended::Refused(text)) => {
                self.client.count_adopt();
                Ok(Answer::Line(text))
            }
            Err(_) => Err(ClientStop::NoMemory),
        }
    }

    // The transactions of a block's words, by the pool that was seen. Without words they are those that are staged.
    fn block_txs<'a>(
        &self,
        memory: Memory,
        words: Vec<TxWord, Memory>,
    ) -> Result<Txs, LineFault<'a>>
        ensures { lines.Gives (λ txs. map arc_value txs.items)
            (alone.block_txs self.now.staged (stage_of N.accepts self.now.client)
            (map to_tx_word words.items)) result }
    {
        if words.is_empty() {
            Ok(self.staged.txs(memory)?)
        } else {
            txs_meant(memory, &self.client, words)
        }
    }

    // The block as a line gives it, by the pool that was seen.
    fn block_meant<'a>(
        &self,
        memory: Memory,
        block: NewBlock,
    ) -> Result<ResolvedBlock, LineFault<'a>>
        ensures ok { IfOk result (λ b. IsMeantBlock N.accepts self.now (to_block block) b) }
        ensures bad { lines.IsBad result
            → IsBadAlone N.accepts self.now (λ c. alone.extend c (to_block block)) }
    {
        let NewBlock {
            tick,
            block_bytes,
            txs,
        } = block;
        let txs = self.block_txs(memory, txs)?;
        Ok(ResolvedBlock::at(&self.settings, tick, &block_bytes, txs))
    }

    // Adopts the ledger state after the block. Its words go by the pool that was then seen.
    fn extend<V: Verifier>(
        &mut self,
        rt: &impl Wait,
        shared: &Shared<N, V>,
        memory: Memory,
        block: NewBlock,
    ) -> Result<Answer, ClientStop>
        ensures ok { IfOk result (λ a. IsHeard N.accepts N.callers self.old
            (Some (Extends (to_block block))) (text_of a) self.new) }
        ensures err { IfErr result (IsStopped N.accepts N.callers (IsTaken N.accepts N.callers
            self.old (Extends (to_block block))) self.old self.new) }
    {
        self.client.look(&shared.reader);
        let used = used_by(&block.txs);
        match self.block_meant(memory, block) {
            Ok(block) => self.adopt_block(rt, shared, memory, &block, used),
            Err(LineFault::NoMemory) => Err(ClientStop::NoMemory),
            Err(LineFault::Bad(reason)) => Ok(answer_bad(memory, self.line, reason)),
        }
    }

    // Adopts the ledger state that has the staged outputs.
    fn sync_staged<V: Verifier>(
        &mut self,
        rt: &impl Wait,
        shared: &Shared<N, V>,
        memory: Memory,
        tick: u64,
        block_bytes: &Option<BlockBytes>,
    ) -> Result<Answer, ClientStop>
        ensures ok { IfOk result (λ a. IsTaken N.accepts N.callers self.old
            (Syncs tick block_bytes.now) (text_of a) self.new) }
        ensures err { IfErr result (IsStopped N.accepts N.callers (IsTaken N.accepts N.callers
            self.old (Syncs tick block_bytes.now)) self.old self.new) }
    {
        let Ok(none) = no_outputs(memory, self.settings.salt()) else {
            return Err(ClientStop::NoMemory);
        };
        let Ok(ledger) = self
            .staged
            .ledger_at(memory, &self.settings, tick, block_bytes)
        else {
            return Err(ClientStop::NoMemory);
        };
        self.adopt(rt, shared, memory, ledger, Used::Outputs(none))
    }

    // Adopts the ledger state this many steps ago, which is given.
    fn go_back<V: Verifier>(
        &mut self,
        rt: &impl Wait,
        shared: &Shared<N, V>,
        memory: Memory,
        count: usize,
        ledger: Ledger,
    ) -> Result<Answer, ClientStop>
        requires { state_back self.old.client.former self.old.client.ledger count ≡ Some ledger }
        ensures ok { IfOk result (λ a. IsReturned N.accepts N.callers self.old count
            (Some ledger) (text_of a) self.new) }
        ensures err { IfErr result (IsStopped N.accepts N.callers (IsReturned N.accepts N.callers
            self.old count (Some ledger)) self.old self.new) }
    {
        let Ok(room) = shared.prepare(memory, ROOM, Change::Back(count)) else {
            return Err(ClientStop::NoMemory);
        };
        match self.client.go_back(rt, &shared.pool, count, ledger) {
            Ok(asked) => {
                finish(
                    rt,
                    shared,
                    memory,
                    &self.names,
                    &mut self.client,
                    room,
                    &asked,
                )
            }
            Err(stop) => Err(stop),
        }
    }

    // Answers how many former ledger states are kept.
    fn refuse_back(&mut self, memory: Memory) -> Result<Answer, ClientStop>
        ensures ok { IfOk result (λ a. (count : ℕ) → IsReturned N.accepts N.callers
            self.old count None (text_of a) self.new) }
        ensures err { IfErr result (λ stop. (stop ≡ stops.NoMemory) × (self.new ≡ self.old)) }
    {
        match back_refused_line(memory, self.client.kept_back() as u64) {
            Ok(text) => {
                self.client.count_back();
                Ok(Answer::Line(text))
            }
            Err(_) => Err(ClientStop::NoMemory),
        }
    }

    // Adopts the ledger state this many steps ago, or answers how many are kept.
    fn return_by<V: Verifier>(
        &mut self,
        rt: &impl Wait,
        shared: &Shared<N, V>,
        memory: Memory,
        count: u64,
    ) -> Result<Answer, ClientStop>
        ensures ok { IfOk result (λ a. IsReturned N.accepts N.callers
            self.old count (state_back self.old.client.former self.old.client.ledger count)
            (text_of a) self.new) }
        ensures err { IfErr result (IsStopped N.accepts N.callers (IsReturned N.accepts N.callers
            self.old count (state_back self.old.client.former self.old.client.ledger count))
            self.old self.new) }
    {
        let count = count as usize;
        match self.client.state_back(memory, count) {
            Ok(Some(ledger)) => self.go_back(rt, shared, memory, count, ledger),
            Ok(None) => self.refuse_back(memory),
            Err(_) => Err(ClientStop::NoMemory),
        }
    }

    // Reads a transaction from the bytes, under the name.
    fn read(&mut self, memory: Memory, name: Name, bytes: &[u8]) -> Result<Text, NoMemory>
        ensures ok { IfOk result (λ text. IsToldAlone N.accepts self.old
            (λ c. Some (alone.read c name (transaction_of bytes.now))) text.items self.new) }
        ensures err { OnErr result (self.new ≡ self.old) }
    {
        match Tx::decode(memory, bytes) {
            Ok(tx) => {
                let text = read_line(memory, &tx)?;
                let declared = DeclaredTx::of(Arc::new(memory, tx)?, Vec::new(memory));
                self.names.declare(name, Binding::Made(declared))?;
                Ok(text)
            }
            Err(TxFault::NoMemory) => Err(NoMemory),
            Err(fault) => undecodable_line(memory, fault),
        }
    }

    // The bytes of the transaction that the word means.
    fn show<'a>(&self, memory: Memory, word: TxWord) -> Result<Text, LineFault<'a>>
        ensures ok { IfOk result (λ text. IsToldAlone N.accepts self.now
            (λ c. alone.show c (to_tx_word word)) text.items self.now) }
        ensures bad { lines.IsBad result
            → IsBadAlone N.accepts self.now (λ c. alone.show c (to_tx_word word)) }
    {
        let tx = tx_meant(&self.client, word)?;
        Ok(show_line(memory, &tx)?)
    }

    // What the submit of the transaction that the word means would answer.
    fn check<'a>(&self, memory: Memory, word: TxWord) -> Result<Text, LineFault<'a>>
        ensures ok { IfOk result (λ text. IsToldAlone N.accepts self.now
            (λ c. alone.check c (to_tx_word word)) text.items self.now) }
        ensures bad { lines.IsBad result
            → IsBadAlone N.accepts self.now (λ c. alone.check c (to_tx_word word)) }
    {
        let tx = tx_meant(&self.client, word)?;
        Ok(self.client.check(memory, &self.names, &tx)?)
    }

    // Forgets the names, except those under which the pool reports what it holds.
    fn forget(&mut self, memory: Memory, listed: Vec<Name, Memory>) -> Result<Text, NoMemory>
        ensures ok { IfOk result (λ text. IsToldAlone N.accepts self.old
            (λ c. Some (alone.forget c listed.items)) text.items self.new) }
        ensures err { OnErr result (self.new ≡ self.old) }
    {
        let goes = names_to_go(memory, &self.names, &self.client, listed)?;
        let text = forgotten_line(memory, goes.len() as u64)?;
        let _ = self.names.forget(&goes);
        Ok(text)
    }

    // From now on transactions are reported by their ids, or by their names.
    fn report_by_id(&mut self, by_id: bool) -> Answer
        ensures { IsToldAlone N.accepts self.old
            (λ c. Some (alone.report_by_id c by_id)) (text_of result) self.new }
    {
        self.names.report_by_id(by_id);
        Answer::Done
    }

    // Stages the transaction with these bytes.
    fn stage_bytes(&mut self, memory: Memory, bytes: &[u8]) -> Result<Text, NoMemory>
        ensures ok { IfOk result (λ text. IsToldAlone N.accepts self.old
            (λ c. Some (alone.stage_bytes c (transaction_of bytes.now))) text.items self.new) }
        ensures err { OnErr result (self.new ≡ self.old) }
    {
        self.staged.read(memory, bytes)
    }

    // Stages the transactions that the words mean.
    fn stage_held<'a>(
        &mut self,
        memory: Memory,
        words: Vec<TxWord, Memory>,
    ) -> Result<Text, LineFault<'a>>
        ensures ok { IfOk result (λ text. IsToldAlone N.accepts self.old
            (λ c. alone.stage_held c (map to_tx_word words.items)) text.items self.new) }
        ensures bad { lines.IsBad result → IsBadAlone N.accepts self.old
            (λ c. alone.stage_held c (map to_tx_word words.items)) }
        ensures err { OnErr result (self.new ≡ self.old) }
    {
        let txs = txs_meant(memory, &self.client, words)?;
        Ok(self.staged.add_txs(memory, txs)?)
    }

    // Stages the output.
    fn stage_output<'a>(
        &mut self,
        memory: Memory,
        reference: OutRef,
        output: Output,
    ) -> Result<Text, LineFault<'a>>
        ensures ok { IfOk result (λ text. IsToldAlone N.accepts self.old
            (λ c. alone.stage_output c reference output) text.items self.new) }
        ensures bad { lines.IsBad result → IsBadAlone N.accepts self.old
            (λ c. alone.stage_output c reference output) }
        ensures err { OnErr result (self.new ≡ self.old) }
    {
        self.staged.add_output(memory, reference, output)
    }

    // Forgets all that is staged.
    fn unstage(&mut self, memory: Memory) -> Result<Answer, NoMemory>
        ensures ok { IfOk result (λ a. IsToldAlone N.accepts self.old
            (λ c. Some (alone.unstage c)) (text_of a) self.new) }
        ensures err { OnErr result (self.new ≡ self.old) }
    {
        self.staged = Staged::new(memory, self.settings.salt())?;
        Ok(Answer::Done)
    }

    // Forgets all names and all that is staged. The peer is offered all again, and the next line has number 1.
    fn reset(&mut self, memory: Memory) -> Result<Answer, NoMemory>
        ensures ok { IfOk result (λ a. IsToldAlone N.accepts self.old
            (λ c. alone.reset_at c c.session.stage) (text_of a) self.new) }
        ensures err { OnErr result (self.new ≡ self.old) }
    {
        let staged = Staged::new(memory, self.settings.salt())?;
        self.names = Names::new(memory, self.settings.salt())?;
        self.staged = staged;
        self.client.offer_again();
        self.line = 0;
        Ok(Answer::Done)
    }

    // Notes what the line of a scenario declares, or answers what it asks, but for changes.
    fn note(&mut self, memory: Memory, line: Line) -> Result<Answer, NoMemory>
        requires { is_note (to_line line) ≡ true }
        ensures ok { IfOk result (λ a. IsToldAlone N.accepts self.old
            (λ c. alone.does c (to_line line)) (text_of a) self.new) }
        ensures err { OnErr result (self.new ≡ self.old) }
    {
        match line {
            Line::Blank => {}
            Line::Script(named) => self.names.declare_script(named)?,
            Line::Data(named) => self.names.declare_datum(named)?,
            Line::Tx(name, declared) => self.names.declare(name, Binding::Made(declared))?,
            Line::For(ledger) => {
                let ledger = ledger_at(memory, &self.settings, ledger)?;
                return Ok(Answer::Line(self.client.kept(memory, &self.names, &ledger)?));
            }
            Line::Asks(query) => {
                return Ok(Answer::Line(self.client.query(memory, &self.names, query)?));
            }
            Line::Sets(_) => unreachable!(),
            Line::Out(_, _) => unreachable!(),
            Line::Submit(_) => unreachable!(),
            Line::Remove(_) => unreachable!(),
            Line::Sync(_) => unreachable!(),
        }
        Ok(Answer::Done)
    }

    // Makes the change that a line of a scenario asks for.
    fn obey<V: Verifier>(
        &mut self,
        rt: &impl Wait,
        shared: &Shared<N, V>,
        memory: Memory,
        line: Line,
    ) -> Result<Answer, ClientStop>
        requires { is_change (to_line line) ≡ true }
        ensures ok { IfOk result (λ a. IsTaken N.accepts N.callers self.old
            (Does (to_line line)) (text_of a) self.new) }
        ensures err { IfErr result (IsStopped N.accepts N.callers (IsTaken N.accepts N.callers
            self.old (Does (to_line line))) self.old self.new) }
    {
        match line {
            Line::Submit(tx) => self.change(rt, shared, memory, &Command::Submit(tx)),
            Line::Remove(ids) => {
                let Ok(ids) = Arc::new(memory, Ids::of(ids)) else {
                    return Err(ClientStop::NoMemory);
                };
                self.change(rt, shared, memory, &Command::Remove(ids))
            }
            Line::Sync(ledger) => {
                let Ok(ledger) = ledger_at(memory, &self.settings, ledger) else {
                    return Err(ClientStop::NoMemory);
                };
                self.adopt(rt, shared, memory, ledger, Used::Nothing)
            }
            Line::Blank => unreachable!(),
            Line::Sets(_) => unreachable!(),
            Line::Script(_) => unreachable!(),
            Line::Data(_) => unreachable!(),
            Line::Out(_, _) => unreachable!(),
            Line::Tx(_, _) => unreachable!(),
            Line::For(_) => unreachable!(),
            Line::Asks(_) => unreachable!(),
        }
    }

    // Does what a line of a scenario asks for.
    fn does<V: Verifier>(
        &mut self,
        rt: &impl Wait,
        shared: &Shared<N, V>,
        memory: Memory,
        line: Line,
    ) -> Result<Answer, ClientStop>
        requires { may_do self.old.client.pass.caller (to_line line) ≡ true }
        ensures ok { IfOk result (λ a. IsTaken N.accepts N.callers self.old
            (Does (to_line line)) (text_of a) self.new) }
        ensures err { IfErr result (IsStopped N.accepts N.callers (IsTaken N.accepts N.callers
            self.old (Does (to_line line))) self.old self.new) }
    {
        if is_note(&line) {
            self.client.look(&shared.reader);
            return match self.note(memory, line) {
                Ok(answer) => Ok(answer),
                Err(_) => Err(ClientStop::NoMemory),
            };
        }
        self.obey(rt, shared, memory, line)
    }

    // Answers what neither changes the pool nor is in a scenario.
    fn tell<'a>(&mut self, memory: Memory, ask: Ask) -> Result<Answer, LineFault<'a>>
        requires { is_alone (to_ask ask) ≡ true }
        ensures ok { IfOk result (λ a. IsToldAlone N.accepts self.old
            (λ c. alone.take c (to_ask ask)) (text_of a) self.new) }
        ensures bad { lines.IsBad result
            → IsBadAlone N.accepts self.old (λ c. alone.take c (to_ask ask)) }
        ensures err { OnErr result (self.new ≡ self.old) }
    {
        match ask {
            Ask::Reads(name, bytes) => Ok(Answer::Line(self.read(memory, name, &bytes)?)),
            Ask::Shows(word) => Ok(Answer::Line(self.show(memory, word)?)),
            Ask::Checks(word) => Ok(Answer::Line(self.check(memory, word)?)),
            Ask::Counts => Ok(Answer::Line(self.client.count(memory, &self.names)?)),
            Ask::Forgets(names) => Ok(Answer::Line(self.forget(memory, names)?)),
            Ask::ReportsById(by_id) => Ok(self.report_by_id(by_id)),
            Ask::Stages(bytes) => Ok(Answer::Line(self.stage_bytes(memory, &bytes)?)),
            Ask::StagesHeld(words) => Ok(Answer::Line(self.stage_held(memory, words)?)),
            Ask::StagesOutput(reference, output) => {
                Ok(Answer::Line(self.stage_output(memory, reference, output)?))
            }
            Ask::Unstages => Ok(self.unstage(memory)?),
            Ask::Resets => Ok(self.reset(memory)?),
            Ask::Does(_) => unreachable!(),
            Ask::Submits(_, _) => unreachable!(),
            Ask::SubmitsBytes(_) => unreachable!(),
            Ask::Holds(_, _) => unreachable!(),
            Ask::Extends(_) => unreachable!(),
            Ask::Syncs(_, _) => unreachable!(),
            Ask::Returns(_) => unreachable!(),
        }
    }

    // The same, with the pool that the conversation then sees.
    fn look_and_tell<V: Verifier>(
        &mut self,
        shared: &Shared<N, V>,
        memory: Memory,
        ask: Ask,
    ) -> Result<Answer, ClientStop>
        requires { is_alone (to_ask ask) ≡ true }
        ensures ok { IfOk result (λ a. IsHeard N.accepts N.callers self.old
            (Some (to_ask ask)) (text_of a) self.new) }
        ensures err { IfErr result (IsStopped N.accepts N.callers (IsTaken N.accepts N.callers
            self.old (to_ask ask)) self.old self.new) }
    {
        self.client.look(&shared.reader);
        match self.tell(memory, ask) {
            Ok(answer) => Ok(answer),
            Err(LineFault::NoMemory) => Err(ClientStop::NoMemory),
            Err(LineFault::Bad(reason)) => Ok(answer_bad(memory, self.line, reason)),
        }
    }

    // Does what a line of a scenario asks for, or makes another change.
    fn act<V: Verifier>(
        &mut self,
        rt: &impl Wait,
        shared: &Shared<N, V>,
        memory: Memory,
        ask: Ask,
    ) -> Result<Answer, ClientStop>
        requires may { may_ask self.old.client.pass.caller (to_ask ask) ≡ true }
        requires acts { is_alone (to_ask ask) ≡ false }
        ensures ok { IfOk result (λ a. IsHeard N.accepts N.callers self.old
            (Some (to_ask ask)) (text_of a) self.new) }
        ensures err { IfErr result (IsStopped N.accepts N.callers (IsTaken N.accepts N.callers
            self.old (to_ask ask)) self.old self.new) }
    {
        match ask {
            Ask::Does(line) => self.does(rt, shared, memory, line),
            Ask::Submits(name, tx) => self.submit(rt, shared, memory, &name, tx),
            Ask::SubmitsBytes(bytes) => self.give(rt, shared, memory, &bytes),
            Ask::Extends(block) => self.extend(rt, shared, memory, block),
            Ask::Syncs(tick, block_bytes) => {
                self.sync_staged(rt, shared, memory, tick, &block_bytes)
            }
            Ask::Returns(count) => self.return_by(rt, shared, memory, count),
            Ask::Reads(_, _) => unreachable!(),
            Ask::Shows(_) => unreachable!(),
            Ask::Checks(_) => unreachable!(),
            Ask::Counts => unreachable!(),
            Ask::Holds(_, _) => unreachable!(),
            Ask::Stages(_) => unreachable!(),
            Ask::StagesHeld(_) => unreachable!(),
            Ask::StagesOutput(_, _) => unreachable!(),
            Ask::Unstages => unreachable!(),
            Ask::Forgets(_) => unreachable!(),
            Ask::ReportsById(_) => unreachable!(),
            Ask::Resets => unreachable!(),
        }
    }

    /// Does what is asked, and returns the answer. A line that means nothing to the pool that the conversation then sees is bad.
    ///
    /// # Errors
    /// `NoMemory` and `Foreign`: nothing has changed but what the conversation has seen. `Untold`: the change was made, but its
    /// answer and its name are lost. `Foreign` if the pool has an entry of this conversation that it doesn't know.
    pub(crate) fn take<V: Verifier>(
        &mut self,
        rt: &impl Wait,
        shared: &Shared<N, V>,
        memory: Memory,
        ask: Ask,
    ) -> Result<Answer, ClientStop>
        requires { may_ask self.old.client.pass.caller (to_ask ask) ≡ true }
        ensures ok { IfOk result (λ a. IsHeard N.accepts N.callers self.old
            (Some (to_ask ask)) (text_of a) self.new) }
        ensures err { IfErr result (IsStopped N.accepts N.callers (IsTaken N.accepts N.callers
            self.old (to_ask ask)) self.old self.new) }
    {
        if is_alone(&ask) {
            self.look_and_tell(shared, memory, ask)
        } else {
            self.act(rt, shared, memory, ask)
        }
    }
}

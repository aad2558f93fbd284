//! The state of a conversation, line by line.

ghost use Rattle.std.specs.Prelude.{◌≡◌, IfOk, OnOk, OnErr};
ghost use Rattle.std.specs.Arc.{arc_value};
ghost use Rattle.mp_seqpool.specs.Command.{Submit};
ghost use Rattle.mp_serve.specs.Talk.{opened};
ghost use Rattle.mp_serve.specs.Request.{do_command, adopt_block, is_adopted, answer_to, reported_if, respond};
ghost use Rattle.mp_serve.specs.Inside.Request.{to_request};

use crate::answer::Answer;
use crate::ask::Ask;
use crate::block::{NewBlock, ResolvedBlock};
use crate::forgetting::names_to_go;
use crate::pool::{Adopted, ServedPool};
use crate::request::Request;
use crate::staged::{Staged, no_outputs};
use crate::texts::{forgotten_line, read_line, show_line, undecodable_line};
use crate::tx_word::{TxWord, tx_meant, txs_meant};
use crate::used::Used;
use mp_lines::Line;
use mp_memory::{Memory, NoMemory};
use mp_names::{Binding, BlockBytes, DeclaredTx, LineFault, Name, Names, Reason};
use mp_seqpool::Command;
use mp_session as session;
use mp_session::{Beginning, Session, Settings, Stage};
use mp_signatures::Signatures;
use mp_text::Text;
use mp_tx::{OutRef, Output, Salt, Tx, TxFault};
use std::sync::Arc;

/// The state of a conversation.
#[derive(Drop)]
pub struct Conversation {
    /// Which signatures the pool accepts.
    pub signatures: Signatures,
    pub session: Session<ServedPool>,
    /// What is staged for the next ledger state.
    pub staged: Staged,
    /// How many names may be declared.
    pub most_names: u64,
    /// The number of the next line, from 1, or from the last reset.
    pub line: u64,
}

// Opens the pool and lets it respond.
fn open_for(
    memory: Memory,
    names: &Names,
    signatures: &Signatures,
    settings: &Settings,
    beginning: &Beginning,
    request: &Request,
) -> Result<(ServedPool, Text), NoMemory>
    ensures { IfOk result (λ r.
        respond names.now (opened signatures.now settings.now beginning.now) (to_request request.now)
        ≡ (r.0, r.1.items)) }
{
    let mut pool = ServedPool::open(memory, signatures, settings, beginning)?;
    let text = pool.respond(memory, names, request)?;
    Ok((pool, text))
}

// Opens the pool and submits the transaction.
fn open_with(
    memory: Memory,
    names: &mut Names,
    signatures: &Signatures,
    settings: &Settings,
    beginning: &Beginning,
    name: &Name,
    tx: &Arc<Tx, Memory>,
) -> Result<(ServedPool, Text), NoMemory>
    ensures ok { IfOk result (λ r. do_command names.old
        (opened signatures.now settings.now beginning.now) (Submit (arc_value tx.now))
        ≡ (r.0, r.1.items)) }
    ensures names { OnOk result (names.new ≡ reported_if names.old name.now (arc_value tx.now)
        (answer_to (opened signatures.now settings.now beginning.now)
        (Submit (arc_value tx.now)))) }
    ensures err { OnErr result (names.new ≡ names.old) }
{
    let mut pool = ServedPool::open(memory, signatures, settings, beginning)?;
    let text = pool.submit(memory, names, name, tx)?;
    Ok((pool, text))
}

// Opens the pool and lets it adopt the ledger state after the block.
fn open_onto(
    memory: Memory,
    names: &Names,
    signatures: &Signatures,
    settings: &Settings,
    beginning: &Beginning,
    block: &ResolvedBlock,
) -> Result<(ServedPool, Adopted), NoMemory>
    ensures ok { IfOk result (λ r. adopt_block names.now
        (opened signatures.now settings.now beginning.now) block.now
        ≡ (r.0, r.1.0.items)) }
    ensures adopted { IfOk result (λ r. r.1.1
        ≡ is_adopted (opened signatures.now settings.now beginning.now) block.now) }
{
    let mut pool = ServedPool::open(memory, signatures, settings, beginning)?;
    let adopted = pool.adopt_block(memory, names, block)?;
    Ok((pool, adopted))
}

impl Conversation {
    ghost use Rattle.std.specs.Prelude.{◌≡◌, [], Some, None, map, IfOk, OnErr};
    ghost use Rattle.std.specs.Arc.{arc_value};
    ghost use Rattle.mp_names.specs.Fault as lines;
    ghost use Rattle.mp_lines.specs.Inside.Line.{to_line};
    ghost use Rattle.mp_tx.specs.Reading.{transaction_of};
    ghost use Rattle.mp_serve.specs.Talk.{new_conversation, served_in, ask, submit, hold, does, read, give, show, check, adopt, adopt_staged, extend, stage_held, stage_output, unstage, sync_staged, stage_bytes, report_by_id, reset_at, counted, forget, take, line_step};
    ghost use Rattle.mp_serve.specs.Request.{Give, is_adopted};
    ghost use Rattle.mp_serve.specs.Inside.Ask.{to_ask, to_block, to_tx_word};
    ghost use Rattle.mp_serve.specs.Inside.Request.{to_request};
    ghost use Rattle.mp_serve.specs.Inside.Answer.{text_of};

    /// A conversation before its first line. At most `most_names` may be declared.
    pub fn new(
        memory: Memory,
        signatures: Signatures,
        salt: Salt,
        most_names: u64,
    ) -> Result<Conversation, NoMemory>
        ensures { IfOk result (λ c. c ≡ new_conversation signatures salt most_names) }
    {
        let session = Session::new(memory, salt)?;
        let staged = Staged::new(memory, salt)?;
        Ok(Conversation {
            signatures,
            session,
            staged,
            most_names,
            line: 1,
        })
    }

    // Lets the pool respond, which opens with the first request.
    fn ask(&mut self, memory: Memory, request: &Request) -> Result<Text, NoMemory>
        ensures ok { IfOk result (λ text. ask self.old (to_request request.now)
            ≡ (self.new, text.items)) }
        ensures err { OnErr result (self.new ≡ self.old) }
    {
        let Session {
            names,
            settings,
            stage,
        } = &mut self.session;
        match stage {
            Stage::Open(pool) => pool.respond(memory, names, request),
            Stage::Before(beginning) => {
                let (pool, text) = open_for(
                    memory,
                    names,
                    &self.signatures,
                    settings,
                    beginning,
                    request,
                )?;
                *stage = Stage::Open(pool);
                Ok(text)
            }
        }
    }

    // Submits the transaction to the pool, which opens with the first request. If it is accepted, it is reported under the name.
    fn submit(
        &mut self,
        memory: Memory,
        name: &Name,
        tx: &Arc<Tx, Memory>,
    ) -> Result<Text, NoMemory>
        ensures ok { IfOk result (λ text. submit self.old name.now (arc_value tx.now)
            ≡ (self.new, text.items)) }
        ensures err { OnErr result (self.new ≡ self.old) }
    {
        let Session {
            names,
            settings,
            stage,
        } = &mut self.session;
        match stage {
            Stage::Open(pool) => pool.submit(memory, names, name, tx),
            Stage::Before(beginning) => {
                let (pool, text) = open_with(
                    memory,
                    names,
                    &self.signatures,
                    settings,
                    beginning,
                    name,
                    tx,
                )?;
                *stage = Stage::Open(pool);
                Ok(text)
            }
        }
    }

    // Outputs with their references are allowed before the first request.
    fn hold<'a>(
        &mut self,
        memory: Memory,
        reference: OutRef,
        output: Output,
    ) -> Result<Answer, LineFault<'a>>
        ensures ok { IfOk result (λ answer.
            hold self.old reference output ≡ Some (self.new, text_of answer)) }
        ensures bad { lines.IsBad result → hold self.old reference output ≡ None }
        ensures err { OnErr result (self.new ≡ self.old) }
    {
        self.session.hold(memory, reference, output)?;
        Ok(Answer::Done)
    }

    // Does what a line of a scenario asks for.
    fn does<'a>(&mut self, memory: Memory, line: Line) -> Result<Answer, LineFault<'a>>
        ensures ok { IfOk result (λ answer.
            does self.old (to_line line) ≡ Some (self.new, text_of answer)) }
        ensures bad { lines.IsBad result → does self.old (to_line line) ≡ None }
        ensures err { OnErr result (self.new ≡ self.old) }
    {
        match self.session.take(memory, line)? {
            None => Ok(Answer::Done),
            Some(request) => Ok(Answer::Line(self.ask(memory, &Request::Plain(request))?)),
        }
    }

    // Reads a transaction from the bytes, under the name.
    fn read(&mut self, memory: Memory, name: Name, bytes: &[u8]) -> Result<Text, NoMemory>
        ensures ok { IfOk result (λ text. read self.old name (transaction_of bytes.now)
            ≡ (self.new, text.items)) }
        ensures err { OnErr result (self.new ≡ self.old) }
    {
        match Tx::decode(memory, bytes) {
            Ok(tx) => {
                let text = read_line(memory, &tx)?;
                let declared = DeclaredTx::of(Arc::new(memory, tx)?, Vec::new(memory));
                self.session.names.declare(name, Binding::Made(declared))?;
                Ok(text)
            }
            Err(TxFault::NoMemory) => Err(NoMemory),
            Err(fault) => undecodable_line(memory, fault),
        }
    }

    // Submits the transaction, which has no name.
    fn give_tx(&mut self, memory: Memory, tx: Tx) -> Result<Text, NoMemory>
        ensures ok { IfOk result (λ text. ask self.old (Give tx) ≡ (self.new, text.items)) }
        ensures err { OnErr result (self.new ≡ self.old) }
    {
        let tx = Arc::new(memory, tx)?;
        self.ask(memory, &Request::Give(tx))
    }

    // Submits the transaction with these bytes, which has no name.
    fn give(&mut self, memory: Memory, bytes: &[u8]) -> Result<Text, NoMemory>
        ensures ok { IfOk result (λ text. give self.old (transaction_of bytes.now)
            ≡ (self.new, text.items)) }
        ensures err { OnErr result (self.new ≡ self.old) }
    {
        match Tx::decode(memory, bytes) {
            Ok(tx) => self.give_tx(memory, tx),
            Err(TxFault::NoMemory) => Err(NoMemory),
            Err(fault) => undecodable_line(memory, fault),
        }
    }

    // The bytes of the transaction that the word means.
    fn show<'a>(&self, memory: Memory, word: TxWord) -> Result<Text, LineFault<'a>>
        ensures { lines.Gives (λ text. (self.now, text.items))
            (show self.now (to_tx_word word)) result }
    {
        let tx = tx_meant(&self.session.stage, word)?;
        Ok(show_line(memory, &tx)?)
    }

    // What the submit of the transaction that the word means would answer.
    fn check<'a>(&mut self, memory: Memory, word: TxWord) -> Result<Text, LineFault<'a>>
        ensures ok { IfOk result (λ text. check self.old (to_tx_word word)
            ≡ Some (self.new, text.items)) }
        ensures bad { lines.IsBad result → check self.old (to_tx_word word) ≡ None }
        ensures err { OnErr result (self.new ≡ self.old) }
    {
        let tx = tx_meant(&self.session.stage, word)?;
        Ok(self.ask(memory, &Request::Check(tx))?)
    }

    // Lets the pool adopt the ledger state after the block. The pool opens with the first request.
    fn adopt(&mut self, memory: Memory, block: &ResolvedBlock) -> Result<Adopted, NoMemory>
        ensures ok { IfOk result (λ r. adopt self.old block.now ≡ (self.new, r.0.items)) }
        ensures adopted { IfOk result (λ r. r.1 ≡ is_adopted (served_in self.old) block.now) }
        ensures err { OnErr result (self.new ≡ self.old) }
    {
        let Session {
            names,
            settings,
            stage,
        } = &mut self.session;
        match stage {
            Stage::Open(pool) => pool.adopt_block(memory, names, block),
            Stage::Before(beginning) => {
                let (pool, adopted) = open_onto(
                    memory,
                    names,
                    &self.signatures,
                    settings,
                    beginning,
                    block,
                )?;
                *stage = Stage::Open(pool);
                Ok(adopted)
            }
        }
    }

    // The same for the block of all staged transactions, which then aren't staged any more.
    fn adopt_staged(&mut self, memory: Memory, block: &ResolvedBlock) -> Result<Text, NoMemory>
        ensures ok { IfOk result (λ text.
            adopt_staged self.old block.now ≡ (self.new, text.items)) }
        ensures err { OnErr result (self.new ≡ self.old) }
    {
        let (text, adopted) = self.adopt(memory, block)?;
        if adopted {
            self.staged.forget(Used::Txs);
        }
        Ok(text)
    }

    // Adopts the ledger state after the block of all staged transactions.
    fn extend_staged(
        &mut self,
        memory: Memory,
        tick: u64,
        block_bytes: &Option<BlockBytes>,
    ) -> Result<Text, NoMemory>
        ensures ok { IfOk result (λ text. extend self.old
            (record { tick = tick; block_bytes = block_bytes.now; txs = [] })
            ≡ Some (self.new, text.items)) }
        ensures err { OnErr result (self.new ≡ self.old) }
    {
        let txs = self.staged.txs(memory)?;
        let block = ResolvedBlock::at(&self.session.settings, tick, block_bytes, txs);
        self.adopt_staged(memory, &block)
    }

    // Adopts the ledger state after the block. Without words it is that of all staged transactions.
    fn extend<'a>(&mut self, memory: Memory, block: NewBlock) -> Result<Text, LineFault<'a>>
        ensures ok { IfOk result (λ text. extend self.old (to_block block)
            ≡ Some (self.new, text.items)) }
        ensures bad { lines.IsBad result → extend self.old (to_block block) ≡ None }
        ensures err { OnErr result (self.new ≡ self.old) }
    {
        let NewBlock {
            tick,
            block_bytes,
            txs,
        } = block;
        if txs.is_empty() {
            return Ok(self.extend_staged(memory, tick, &block_bytes)?);
        }
        let txs = txs_meant(memory, &self.session.stage, txs)?;
        let block = ResolvedBlock::at(&self.session.settings, tick, &block_bytes, txs);
        let (text, _) = self.adopt(memory, &block)?;
        Ok(text)
    }

    // Stages the transaction with these bytes.
    fn stage_bytes(&mut self, memory: Memory, bytes: &[u8]) -> Result<Text, NoMemory>
        ensures ok { IfOk result (λ text. stage_bytes self.old (transaction_of bytes.now)
            ≡ (self.new, text.items)) }
        ensures err { OnErr result (self.new ≡ self.old) }
    {
        self.staged.read(memory, bytes)
    }

    // Stages the transactions that the words mean.
    fn stage_held<'a>(
        &mut self,
        memory: Memory,
        words: Vec<TxWord, Memory>,
    ) -> Result<Text, LineFault<'a>>
        ensures ok { IfOk result (λ text. stage_held self.old (map to_tx_word words.items)
            ≡ Some (self.new, text.items)) }
        ensures bad { lines.IsBad result
            → stage_held self.old (map to_tx_word words.items) ≡ None }
        ensures err { OnErr result (self.new ≡ self.old) }
    {
        let txs = txs_meant(memory, &self.session.stage, words)?;
        Ok(self.staged.add_txs(memory, txs)?)
    }

    // Stages the output.
    fn stage_output<'a>(
        &mut self,
        memory: Memory,
        reference: OutRef,
        output: Output,
    ) -> Result<Text, LineFault<'a>>
        ensures ok { IfOk result (λ text. stage_output self.old reference output
            ≡ Some (self.new, text.items)) }
        ensures bad { lines.IsBad result → stage_output self.old reference output ≡ None }
        ensures err { OnErr result (self.new ≡ self.old) }
    {
        self.staged.add_output(memory, reference, output)
    }

    // Forgets all that is staged.
    fn unstage(&mut self, memory: Memory) -> Result<Answer, NoMemory>
        ensures ok { IfOk result (λ answer. unstage self.old ≡ (self.new, text_of answer)) }
        ensures err { OnErr result (self.new ≡ self.old) }
    {
        self.staged = Staged::new(memory, self.session.settings.salt())?;
        Ok(Answer::Done)
    }

    // Adopts the ledger state that has the staged outputs.
    fn sync_staged(
        &mut self,
        memory: Memory,
        tick: u64,
        block_bytes: &Option<BlockBytes>,
    ) -> Result<Text, NoMemory>
        ensures ok { IfOk result (λ text. sync_staged self.old tick block_bytes.now
            ≡ (self.new, text.items)) }
        ensures err { OnErr result (self.new ≡ self.old) }
    {
        let settings = &self.session.settings;
        let none = no_outputs(memory, settings.salt())?;
        let ledger = self.staged.ledger_at(memory, settings, tick, block_bytes)?;
        let change = session::Request::Change(Command::Sync(ledger));
        let text = self.ask(memory, &Request::Plain(change))?;
        self.staged.forget(Used::Outputs(none));
        Ok(text)
    }

    // From now on transactions are reported by their ids, or by their names.
    fn report_by_id(&mut self, by_id: bool) -> Answer
        ensures { report_by_id self.old by_id ≡ (self.new, text_of result) }
    {
        self.session.names.report_by_id(by_id);
        Answer::Done
    }

    /// Counts the line that was answered. Its number stays at 2^64 - 1.
    pub fn count_line(&mut self)
        ensures { self.new ≡ counted self.old }
    {
        self.line = self.line.saturating_add(1);
    }

    // Forgets all names and all that is staged. The peer is offered all again, and the next line has number 1. Allowed from the first request on.
    fn reset<'a>(&mut self, memory: Memory) -> Result<Answer, LineFault<'a>>
        ensures ok { IfOk result (λ answer.
            reset_at self.old self.old.session.stage ≡ Some (self.new, text_of answer)) }
        ensures bad { lines.IsBad result → reset_at self.old self.old.session.stage ≡ None }
        ensures err { OnErr result (self.new ≡ self.old) }
    {
        let Session {
            names,
            settings,
            stage,
        } = &mut self.session;
        match stage {
            Stage::Before(_) => Err(LineFault::Bad(Reason::EarlyReset)),
            Stage::Open(pool) => {
                let staged = Staged::new(memory, settings.salt())?;
                *names = Names::new(memory, settings.salt())?;
                self.staged = staged;
                pool.offer_again();
                self.line = 0;
                Ok(Answer::Done)
            }
        }
    }

    // Forgets the names, except those under which the pool reports what it holds.
    fn forget(&mut self, memory: Memory, listed: Vec<Name, Memory>) -> Result<Text, NoMemory>
        ensures ok { IfOk result (λ text.
            forget self.old listed.items ≡ (self.new, text.items)) }
        ensures err { OnErr result (self.new ≡ self.old) }
    {
        let Session { names, stage, .. } = &mut self.session;
        let goes = names_to_go(memory, names, stage, listed)?;
        let text = forgotten_line(memory, goes.len() as u64)?;
        let _ = names.forget(&goes);
        Ok(text)
    }

    /// Does what is asked, and returns the answer. After an `Err` nothing has changed.
    ///
    /// # Errors
    /// `Bad` for a setting that comes twice or after the first request. `Bad` for an output that comes after the first request,
    /// has a reference that is taken, or is the 65,537th with a name. `Bad` for a word `#ID` if the pool doesn't hold that id, and
    /// for a reference that is staged already.
    pub fn take<'a>(&mut self, memory: Memory, ask: Ask) -> Result<Answer, LineFault<'a>>
        ensures ok { IfOk result (λ answer.
            take self.old (to_ask ask) ≡ Some (self.new, text_of answer)) }
        ensures bad { lines.IsBad result → take self.old (to_ask ask) ≡ None }
        ensures err { OnErr result (self.new ≡ self.old) }
    {
        let text = match ask {
            Ask::Does(line) => return self.does(memory, line),
            Ask::Holds(reference, output) => return self.hold(memory, reference, output),
            Ask::ReportsById(by_id) => return Ok(self.report_by_id(by_id)),
            Ask::Resets => return self.reset(memory),
            Ask::Unstages => return Ok(self.unstage(memory)?),
            Ask::Reads(name, bytes) => self.read(memory, name, &bytes)?,
            Ask::Submits(name, tx) => self.submit(memory, &name, &tx)?,
            Ask::SubmitsBytes(bytes) => self.give(memory, &bytes)?,
            Ask::Shows(word) => self.show(memory, word)?,
            Ask::Checks(word) => self.check(memory, word)?,
            Ask::Counts => self.ask(memory, &Request::Count)?,
            Ask::Extends(block) => self.extend(memory, block)?,
            Ask::Stages(bytes) => self.stage_bytes(memory, &bytes)?,
            Ask::StagesHeld(words) => self.stage_held(memory, words)?,
            Ask::StagesOutput(reference, output) => self.stage_output(memory, reference, output)?,
            Ask::Syncs(tick, block_bytes) => self.sync_staged(memory, tick, &block_bytes)?,
            Ask::Returns(count) => self.ask(memory, &Request::Return(count))?,
            Ask::Forgets(names) => self.forget(memory, names)?,
        };
        Ok(Answer::Line(text))
    }

    /// Does what the line asks for, and returns the answer. After an `Err` nothing has changed.
    ///
    /// # Errors
    /// `Bad` if the line isn't in the language, and the errors of `take`.
    #[tactic(auto, unfolding(crate::specs::Talk::line_step))]
    pub fn hear<'a>(&mut self, memory: Memory, line: &'a [u8]) -> Result<Answer, LineFault<'a>>
        ensures ok { IfOk result (λ answer.
            line_step self.old line.now ≡ Some (self.new, text_of answer)) }
        ensures bad { lines.IsBad result → line_step self.old line.now ≡ None }
        ensures err { OnErr result (self.new ≡ self.old) }
    {
        let ask = Ask::parse(memory, &self.session.names, self.most_names, line)?;
        self.take(memory, ask)
    }
}

// The core: messages and work in, replies and jobs out, and nothing of streams.
ghost use Rattle.std.specs.Prelude.{◌≡◌, ◌≢◌, ◌↔◌, ◌<◌, ◌+◌, ℕ, List, [], ◌∷◌, length, option_map, Some, None, Err, IfOk, IfErr, IfSome, OnOk, OnErr, IsTrue, false};
ghost use Rattle.piece_collector.specs.Board.{IsFirstWanted, IsFull, current_text};
ghost use Rattle.piece_collector.specs.History.{stands_at};
ghost use Rattle.work_config.specs.Configuration.{Configuration, files_of};
ghost use Rattle.work_config.specs.Fault.{ComesWithoutThreads};
ghost use Rattle.work_dispatch.specs.Dispatch.{BringsFailure, BringsResult, HandsOut};
ghost use Rattle.work_files.specs.Files.{workspace};
ghost use Rattle.work_space.specs.BoardTexts.{StampsRunOut};
ghost use Rattle.lsp_core.specs.Core.{Event, Arrive, Advance, Give, messages, processed, board_events, IsAfter, WhateverCame, Records, MayStep, IsSettled, ComesToAnAnalysis, FindsNoStamp, Replied, Advances};
ghost use Rattle.lsp_core.specs.Run.{event_of, incoming_of_done, verdicts_of};
ghost use Rattle.lsp_core.specs.Steps.{CanStep, IsPrepared, IsReady, NeedsAnalysis, WorksOn, steps_left, unprocessed};
ghost use Rattle.lsp_core.specs.Session.{exit_of};
ghost use Rattle.lsp_core.specs.View.{core_state};

use crate::pending::Pending;
use crate::phase::Phase;
use crate::reply::Reply;
use crate::session::Session;
use crate::step::Step;
use lsp_rpc::Message;
use piece_collector::{BoardFault, Job, Verdict};
use std::alloc::{AllocError, Global};
use std::collections::VecDeque;
use std::sync::Wait;
use std::thread::Threads;
use work_config::{Config, CoreFault};
use work_dispatch::{bring_result, hand_out_jobs};
use work_index::{Done, Gate};
use work_pool::Pool;
use work_shares::AnalyseFault;
use work_space::Workspace;

/// A session that takes the bodies of messages and gives the bodies of replies. The work on the texts is done outside: the core
/// gives jobs, and takes what is made of them, in any order. Requests about files wait until the work on each text is there, and so does each
/// notification after which something is published; all later messages wait behind them.
///
/// After a fault each call that answers a `Result` answers that fault, and changes nothing then.
pub struct Core {
    alloc: Global,
    session: Session,
    workspace: Workspace,
    queue: VecDeque<Message>,
    /// What is left to be answered to the message that has begun.
    pending: Option<Pending>,
    fault: Option<CoreFault>,
}

// (Written out: a derived one would be proved again, with those of all parts, in each crate that drops such a value.)
impl Drop for Core {
    fn drop(self) {
        let Core {
            alloc: _,
            session: _,
            workspace: _,
            queue: _,
            pending: _,
            fault: _,
        } = self;
    }
}

impl Core {
    ghost use Rattle.lsp_core.specs.View.{last_fault, IsExhausted};

    /// The core of a session before its first message. The texts of the files on disk get the stamps from 1 on, in the order of
    /// their paths. `Memory` where memory is refused, and `Exhausted` where there are fewer stamps than texts.
    pub fn new(alloc: Global, config: Config) -> Result<Core, CoreFault>
        ensures is_after { IfOk result (λ core. IsAfter 0 config (core_state core) []) }
        ensures open { IfOk result (λ core. last_fault core ≡ None) }
        ensures threads { IfErr result ComesWithoutThreads }
        ensures exhausted { result ≡ Err CoreFault.Exhausted → StampsRunOut 0 (length (workspace (files_of config))) }
    {
        Core::counting_from(alloc, config, 0)
    }

    /// The core of a session before its first message, with stamps from the one after `stamp` on. `Memory` where memory is refused, and
    /// `Exhausted` where a file on disk finds no stamp.
    pub fn counting_from(alloc: Global, config: Config, stamp: u64) -> Result<Core, CoreFault>
        ensures is_after { IfOk result (λ core. IsAfter stamp config (core_state core) []) }
        ensures open { IfOk result (λ core. last_fault core ≡ None) }
        ensures threads { IfErr result ComesWithoutThreads }
        ensures exhausted { result ≡ Err CoreFault.Exhausted → StampsRunOut stamp (length (workspace (files_of config))) }
    {
        let reads_others = config.reads_others();
        let (roots, disk_files) = config.into_parts()?;
        let workspace = Workspace::from_disk(alloc, disk_files, stamp, reads_others)?;
        Ok(Core {
            alloc,
            session: Session::new(alloc, roots),
            workspace,
            queue: VecDeque::new(alloc),
            pending: None,
            fault: None,
        })
    }

    // Keeps a fault as the answer from now on.
    fn fail(&mut self, fault: CoreFault) -> CoreFault
        ensures result { result ≡ fault }
        ensures fault { last_fault self.new ≡ Some fault }
        ensures state { core_state self.new ≡ core_state self.old }
    {
        self.fault = Some(fault);
        fault
    }

    // Answers the fault that is kept, if one is.
    fn fail_again(&self) -> Result<(), CoreFault>
        ensures kept { IfErr result (λ fault. last_fault self.now ≡ Some fault) }
        ensures none { OnOk result (last_fault self.now ≡ None) }
    {
        match self.fault {
            Some(fault) => Err(fault),
            None => Ok(()),
        }
    }

    // ---- messages

    /// Queues a message by its body, to be processed by an advance. `Memory` where memory is refused.
    pub fn message(&mut self, body: &[u8]) -> Result<(), CoreFault>
        // After a fault it answers the same again, and changes nothing.
        ensures repeats { IfSome (last_fault self.old) (λ fault. (result ≡ Err fault) × (self.new ≡ self.old)) }
        ensures fault { IfErr result (λ fault. last_fault self.new ≡ Some fault) }
        ensures memory { last_fault self.old ≡ None → IfErr result (λ fault. fault ≡ CoreFault.Memory) }
        ensures open { OnOk result (last_fault self.new ≡ None) }

        // What the core stood for, it stands for with one more message.
        ensures arrives { OnOk result (Records (core_state self.old) (core_state self.new) (Arrive body.now ∷ [])) }
    {
        self.fail_again()?;
        match self.enqueue(body) {
            Ok(()) => Ok(()),
            Err(_) => Err(self.fail(CoreFault::Memory)),
        }
    }

    fn enqueue(&mut self, body: &[u8]) -> Result<(), AllocError>
        ensures fault { last_fault self.new ≡ last_fault self.old }
        ensures arrives { OnOk result (Records (core_state self.old) (core_state self.new) (Arrive body.now ∷ [])) }
    {
        let message = Message::parse(self.alloc, body)?;
        self.queue.push_back(message)?;
        Ok(())
    }

    // ---- work

    /// Gives a job for the first text that is wanted, in the order of the paths; none only where none is wanted. `Memory` where
    /// memory is refused.
    pub fn next_job(&mut self) -> Result<Option<Job>, CoreFault>
        // After a fault it answers the same again, and changes nothing.
        ensures repeats { IfSome (last_fault self.old) (λ fault. (result ≡ Err fault) × (self.new ≡ self.old)) }
        ensures fault { IfErr result (λ fault. last_fault self.new ≡ Some fault) }
        ensures memory { last_fault self.old ≡ None → IfErr result (λ fault. fault ≡ CoreFault.Memory) }
        ensures open { OnOk result (last_fault self.new ≡ None) }

        // The state of the session stays, also where it fails.
        ensures state { (core_state self.new).state ≡ (core_state self.old).state }

        // What the core stood for, it stands for with one more job asked for.
        ensures gives { OnOk result (Records (core_state self.old) (core_state self.new) (Give ∷ [])) }

        // The job is for the first wanted path, with the current stamp and text of that path.
        ensures first { IfOk result (λ job. WhateverCame (core_state self.old) (λ opening config h. IsFirstWanted opening (board_events config h) (option_map (λ j. j.path) job))) }
        ensures text { IfOk result (λ job. WhateverCame (core_state self.old) (λ opening config h. IfSome job (λ j. option_map (current_text j.path) (stands_at opening (board_events config h) j.path) ≡ Some j))) }
    {
        self.fail_again()?;
        match self.workspace.next_job() {
            Ok(job) => Ok(job),
            Err(_) => Err(self.fail(CoreFault::Memory)),
        }
    }

    /// Brings what became of a job, whether or not that was given, and says whether it is taken. Takes no memory.
    pub fn offer(&mut self, sent: Done) -> Result<Verdict, CoreFault>
        // It answers a fault only after one, the same again, and changes nothing then.
        ensures repeats { IfSome (last_fault self.old) (λ fault. (result ≡ Err fault) × (self.new ≡ self.old)) }
        ensures fault { IfErr result (λ fault. last_fault self.old ≡ Some fault) }
        ensures open { OnOk result (last_fault self.new ≡ None) }

        // What the core stood for, it stands for with what was brought.
        ensures brings { OnOk result (Records (core_state self.old) (core_state self.new) (event_of sent ∷ [])) }
        ensures verdict { IfOk result (λ verdict. WhateverCame (core_state self.old) (λ opening config h. verdict ∷ [] ≡ verdicts_of opening config h (incoming_of_done sent))) }
    {
        self.fail_again()?;
        Ok(self.take(sent))
    }

    fn take(&mut self, sent: Done) -> Verdict
        ensures fault { last_fault self.new ≡ last_fault self.old }
        ensures brings { Records (core_state self.old) (core_state self.new) (event_of sent ∷ []) }
        ensures verdict { WhateverCame (core_state self.old) (λ opening config h. result ∷ [] ≡ verdicts_of opening config h (incoming_of_done sent)) }
    {
        match sent {
            Done::Made(piece) => self.workspace.offer(piece),
            Done::Failed { path, stamp } => self.workspace.fail(path.as_str(), stamp),
        }
    }

    // ---- advances

    /// Processes the queued messages in order, and gives the replies to them in order. It stops at a message that waits for the work on the
    /// texts as long as that on some text isn't there, and analyses the files on this thread. `Memory` where memory is refused, `Exhausted`
    /// where a text finds no stamp: then the replies of this call are lost.
    pub fn advance(&mut self) -> Result<Vec<Reply>, CoreFault>
        // After a fault it answers the same again, and changes nothing.
        ensures repeats { IfSome (last_fault self.old) (λ fault. (result ≡ Err fault) × (self.new ≡ self.old)) }
        ensures fault { IfErr result (λ fault. last_fault self.new ≡ Some fault) }
        ensures threads { last_fault self.old ≡ None → IfErr result ComesWithoutThreads }
        ensures exhausted { last_fault self.old ≡ None → result ≡ Err CoreFault.Exhausted → IsExhausted (core_state self.new).board }

        // No stamp is left only if, after steps that may come, more texts were set in all than there are stamps behind the opening one.
        ensures stamps { last_fault self.old ≡ None → result ≡ Err CoreFault.Exhausted → WhateverCame (core_state self.old) FindsNoStamp }
        ensures open { OnOk result (last_fault self.new ≡ None) }

        // What the core stood for, it stands for with all messages processed that could be.
        ensures advances { IfOk result (λ replies. WhateverCame (core_state self.old) (λ opening config h. Advances opening config (core_state self.new) h replies.items)) }
    {
        self.fail_again()?;
        match self.take_steps() {
            Ok(replies) => Ok(replies),
            Err(fault) => Err(self.fail(CoreFault::from(fault))),
        }
    }

    /// Does what [`advance`](Core::advance) does, but as many threads as there are `workers` make a whole analysis: 0 counts as 1,
    /// and over 64 as 64, and there are never more than there are files. Each thread enters the gate before each of its files. If
    /// at most 64 files came, left or got other texts since the last analysis, no thread is started and no gate is entered. It waits
    /// until each thread has ended.
    ///
    /// `Memory` if memory was refused, here or in a thread, `ThreadRefused` if a thread couldn't be started, `Exhausted` if a text
    /// finds no stamp: then the replies of this call are lost.
    pub fn advance_in_shares<R: Threads + Wait, G: Gate>(
        &mut self,
        rt: &R,
        workers: usize,
        gate: &G,
    ) -> Result<Vec<Reply>, CoreFault>
        // After a fault it answers the same again, and changes nothing.
        ensures repeats { IfSome (last_fault self.old) (λ fault. (result ≡ Err fault) × (self.new ≡ self.old)) }
        ensures fault { IfErr result (λ fault. last_fault self.new ≡ Some fault) }
        ensures exhausted { last_fault self.old ≡ None → result ≡ Err CoreFault.Exhausted → IsExhausted (core_state self.new).board }

        // No stamp is left only if, after steps that may come, more texts were set in all than there are stamps behind the opening one.
        ensures stamps { last_fault self.old ≡ None → result ≡ Err CoreFault.Exhausted → WhateverCame (core_state self.old) FindsNoStamp }

        // A thread is refused only where a message may finish that is answered from an analysis.
        ensures threads { last_fault self.old ≡ None → result ≡ Err CoreFault.ThreadRefused → WhateverCame (core_state self.old) ComesToAnAnalysis }
        ensures open { OnOk result (last_fault self.new ≡ None) }

        // What the core stood for, it stands for with all messages processed that could be.
        ensures advances { IfOk result (λ replies. WhateverCame (core_state self.old) (λ opening config h. Advances opening config (core_state self.new) h replies.items)) }
    {
        self.fail_again()?;
        match self.take_steps_in_shares(rt, workers, gate) {
            Ok(replies) => Ok(replies),
            Err(fault) => Err(self.fail(fault)),
        }
    }

    fn take_steps(&mut self) -> Result<Vec<Reply>, BoardFault>
        ensures fault { last_fault self.new ≡ last_fault self.old }
        ensures exhausted { result ≡ Err BoardFault.Exhausted → IsExhausted (core_state self.new).board }
        ensures stamps { result ≡ Err BoardFault.Exhausted → WhateverCame (core_state self.old) FindsNoStamp }
        ensures advances { IfOk result (λ replies. WhateverCame (core_state self.old) (λ opening config h. Advances opening config (core_state self.new) h replies.items)) }
    {
        let mut replies = Vec::new(self.alloc);
        'steps: while let Some(step) = self.next_step() {
            self.prepare()?;
            self.take_step(step, &mut replies)?;
        }
        Ok(replies)
    }

    fn take_steps_in_shares<R: Threads + Wait, G: Gate>(
        &mut self,
        rt: &R,
        workers: usize,
        gate: &G,
    ) -> Result<Vec<Reply>, CoreFault>
        ensures fault { last_fault self.new ≡ last_fault self.old }
        ensures exhausted { result ≡ Err CoreFault.Exhausted → IsExhausted (core_state self.new).board }
        ensures stamps { result ≡ Err CoreFault.Exhausted → WhateverCame (core_state self.old) FindsNoStamp }
        ensures threads { result ≡ Err CoreFault.ThreadRefused → WhateverCame (core_state self.old) ComesToAnAnalysis }
        ensures advances { IfOk result (λ replies. WhateverCame (core_state self.old) (λ opening config h. Advances opening config (core_state self.new) h replies.items)) }
    {
        let mut replies = Vec::new(self.alloc);
        'steps: while let Some(step) = self.next_step() {
            self.prepare_in_shares(rt, workers, gate)?;
            self.take_step(step, &mut replies)?;
        }
        Ok(replies)
    }

    // The step that may come, if one may.
    fn next_step(&self) -> Option<Step>
        ensures ready { IfSome result (λ step. IsReady (core_state self.now)) }
        ensures can { IfSome result (λ step. CanStep (core_state self.now) step) }
        ensures may { IfSome result (λ step. WhateverCame (core_state self.now) (λ opening config h. MayStep opening config h step)) }
        ensures settled { result ≡ None → WhateverCame (core_state self.now) IsSettled }
    {
        match &self.pending {
            Some(pending) if pending.waits() && !self.workspace.is_complete() => None,
            Some(_) => Some(Step::Finish),
            None if self.queue.is_empty() => None,
            None => Some(Step::Begin),
        }
    }

    // Whether what is left to be answered needs an analysis that isn't known.
    fn wants_analysis(&self) -> bool
        requires { IsReady (core_state self.now) }
        ensures full { IsTrue result → IsFull (core_state self.now).board }
        ensures needs { IsTrue result → NeedsAnalysis (core_state self.now) }
        ensures prepared { result ≡ false → IsPrepared (core_state self.now) self.now.workspace.is_current }
    {
        match &self.pending {
            Some(pending) => pending.needs_analysis() && !self.workspace.is_current(),
            None => false,
        }
    }

    // Analyses the files on this thread, if what is left to be answered needs it.
    fn prepare(&mut self) -> Result<(), AllocError>
        requires { IsReady (core_state self.old) }
        ensures fault { last_fault self.new ≡ last_fault self.old }
        ensures state { core_state self.new ≡ core_state self.old }
        ensures prepared { OnOk result (IsPrepared (core_state self.new) self.new.workspace.is_current) }
    {
        if self.wants_analysis() {
            self.workspace.refresh()?;
        }
        Ok(())
    }

    // Analyses the files by so many threads, if what is left to be answered needs it.
    fn prepare_in_shares<R: Threads + Wait, G: Gate>(
        &mut self,
        rt: &R,
        workers: usize,
        gate: &G,
    ) -> Result<(), AnalyseFault>
        requires { IsReady (core_state self.old) }
        ensures fault { last_fault self.new ≡ last_fault self.old }
        ensures state { OnOk result (core_state self.new ≡ core_state self.old) }
        ensures needs { OnErr result (NeedsAnalysis (core_state self.old)) }
        ensures prepared { OnOk result (IsPrepared (core_state self.new) self.new.workspace.is_current) }
    {
        if self.wants_analysis() {
            self.workspace.refresh_in_shares(rt, workers, gate)?;
        }
        Ok(())
    }

    fn take_step(&mut self, step: Step, replies: &mut Vec<Reply>) -> Result<(), BoardFault>
        requires can { CanStep (core_state self.old) step }
        requires prepared { IsPrepared (core_state self.old) self.old.workspace.is_current }
        ensures fault { last_fault self.new ≡ last_fault self.old }
        ensures exhausted { result ≡ Err BoardFault.Exhausted → IsExhausted (core_state self.new).board }
        ensures stamps { result ≡ Err BoardFault.Exhausted → WhateverCame (core_state self.old) FindsNoStamp }
        ensures shorter { OnOk result (steps_left (core_state self.new) < steps_left (core_state self.old)) }
        ensures after { OnOk result (WhateverCame (core_state self.old) (λ opening config h. MayStep opening config h step → IsAfter opening config (core_state self.new) (Advance step ∷ h))) }
        ensures replied { OnOk result ((opening : ℕ) (config : Configuration) (h : List Event) (first : List (List ℕ)) → IsAfter opening config (core_state self.old) h → MayStep opening config h step → Replied config h first replies.old.items → Replied config (Advance step ∷ h) first replies.new.items) }
    {
        match step {
            Step::Begin => self.begin(),
            Step::Finish => Ok(self.finish(replies)?),
        }
    }

    // The first message begins: the state and the board change.
    fn begin(&mut self) -> Result<(), BoardFault>
        requires { CanStep (core_state self.old) Step.Begin }
        ensures fault { last_fault self.new ≡ last_fault self.old }
        ensures exhausted { result ≡ Err BoardFault.Exhausted → IsExhausted (core_state self.new).board }
        ensures stamps { result ≡ Err BoardFault.Exhausted → WhateverCame (core_state self.old) FindsNoStamp }
        ensures shorter { OnOk result (steps_left (core_state self.new) < steps_left (core_state self.old)) }
        ensures after { OnOk result (WhateverCame (core_state self.old) (λ opening config h. MayStep opening config h Step.Begin → IsAfter opening config (core_state self.new) (Advance Step.Begin ∷ h))) }
    {
        let Some(message) = self.queue.pop_front() else {
            return Ok(());
        };
        let pending = self.session.begin(&mut self.workspace, message)?;
        self.pending = Some(pending);
        Ok(())
    }

    // The message that has begun finishes: its replies are given.
    fn finish(&mut self, replies: &mut Vec<Reply>) -> Result<(), AllocError>
        requires can { CanStep (core_state self.old) Step.Finish }
        requires prepared { IsPrepared (core_state self.old) self.old.workspace.is_current }
        ensures fault { last_fault self.new ≡ last_fault self.old }
        ensures shorter { OnOk result (steps_left (core_state self.new) < steps_left (core_state self.old)) }
        ensures after { OnOk result (WhateverCame (core_state self.old) (λ opening config h. MayStep opening config h Step.Finish → IsAfter opening config (core_state self.new) (Advance Step.Finish ∷ h))) }
        ensures replied { OnOk result ((opening : ℕ) (config : Configuration) (h : List Event) (first : List (List ℕ)) → IsAfter opening config (core_state self.old) h → MayStep opening config h Step.Finish → Replied config h first replies.old.items → Replied config (Advance Step.Finish ∷ h) first replies.new.items) }
    {
        let Some(pending) = self.pending.take() else {
            return Ok(());
        };
        self.session.finish(&self.workspace, pending, replies)
    }

    /// Hands out jobs to a pool, in the order of the paths, until no text is wanted or the pool has no room. `Memory` if memory is refused or a
    /// job can't be sent.
    pub fn hand_out<R: Wait>(&mut self, rt: &R, pool: &mut Pool) -> Result<(), CoreFault>
        // After a fault it answers the same again, and changes nothing.
        ensures repeats { IfSome (last_fault self.old) (λ fault. (result ≡ Err fault) × (self.new ≡ self.old) × (pool.new ≡ pool.old)) }
        ensures fault { IfErr result (λ fault. last_fault self.new ≡ Some fault) }
        ensures memory { last_fault self.old ≡ None → IfErr result (λ fault. fault ≡ CoreFault.Memory) }
        ensures open { OnOk result (last_fault self.new ≡ None) }

        // The state of the session stays, and how many messages aren't processed, also where it fails.
        ensures state { (core_state self.new).state ≡ (core_state self.old).state }
        ensures waits { unprocessed (core_state self.new) ≡ unprocessed (core_state self.old) }

        // All jobs went out that could, and nothing else was done.
        ensures hands { OnOk result (HandsOut (core_state self.old).board (core_state self.new).board pool.old.sent pool.new.sent) }
        ensures works { OnOk result (WhateverCame (core_state self.old) (λ opening config h. WorksOn opening config (core_state self.new) h)) }
    {
        self.fail_again()?;
        match hand_out_jobs(rt, &mut self.workspace, pool) {
            Ok(()) => Ok(()),
            Err(fault) => Err(self.fail(CoreFault::from(fault))),
        }
    }

    /// Waits for what becomes of a job, and brings it, which is done only while a message isn't processed. `Memory` if the job failed because
    /// memory ran out, unless its text no longer counts; `ThreadRefused` if nothing can come, since no job is out or no worker is left.
    pub fn take_result<R: Wait>(&mut self, rt: &R, pool: &mut Pool) -> Result<(), CoreFault>
        requires { 0 < unprocessed (core_state self.old) }

        // After a fault it answers the same again, and changes nothing.
        ensures repeats { IfSome (last_fault self.old) (λ fault. (result ≡ Err fault) × (self.new ≡ self.old) × (pool.new ≡ pool.old)) }
        ensures fault { IfErr result (λ fault. last_fault self.new ≡ Some fault) }
        ensures stamps { last_fault self.old ≡ None → IfErr result (λ fault. fault ≢ CoreFault.Exhausted) }
        ensures open { OnOk result (last_fault self.new ≡ None) }

        // The state of the session stays, and so does the number of messages that aren't processed, also where it fails. `Memory` comes only for a
        // failure that counts, which is brought. With `ThreadRefused` nothing is received or brought.
        ensures state { (core_state self.new).state ≡ (core_state self.old).state }
        ensures waits { unprocessed (core_state self.new) ≡ unprocessed (core_state self.old) }
        ensures failed { last_fault self.old ≡ None → result ≡ Err CoreFault.Memory → BringsFailure (core_state self.old).board (core_state self.new).board pool.old.sent pool.new.sent × (pool.old.out ≡ pool.new.out + 1) }
        ensures refused { result ≡ Err CoreFault.ThreadRefused → (core_state self.new ≡ core_state self.old) × (pool.new ≡ pool.old) }

        // One result was received and brought, and nothing else was done.
        ensures brings { OnOk result (BringsResult (core_state self.old).board (core_state self.new).board pool.old.sent pool.new.sent) }
        ensures received { OnOk result (pool.old.out ≡ pool.new.out + 1) }
        ensures works { OnOk result (WhateverCame (core_state self.old) (λ opening config h. WorksOn opening config (core_state self.new) h)) }
    {
        self.fail_again()?;
        match bring_result(rt, &mut self.workspace, pool) {
            Ok(()) => Ok(()),
            Err(fault) => Err(self.fail(CoreFault::from(fault))),
        }
    }

    /// Whether a message came that isn't processed.
    pub fn waits(&self) -> bool
        ensures came { WhateverCame (core_state self.now) (λ opening config h. IsTrue result ↔ (processed h < length (messages h))) }
        ensures counted { IsTrue result ↔ (0 < unprocessed (core_state self.now)) }
    {
        self.unprocessed() > 0
    }

    /// How many messages came that aren't processed.
    pub fn unprocessed(&self) -> usize
        ensures { result ≡ unprocessed (core_state self.now) }
    {
        match &self.pending {
            Some(_) => self.queue.len() + 1,
            None => self.queue.len(),
        }
    }

    /// The last stamp that was given; before the first one, the stamp that the board counts from.
    pub fn last_stamp(&self) -> u64
        ensures { result ≡ (let board = (core_state self.now).board in board.last) }
    {
        self.workspace.last_stamp()
    }

    /// Whether an exit was processed, and if so, whether a shutdown came before it.
    pub fn exited(&self) -> Option<bool>
        ensures { result ≡ exit_of (core_state self.now).state.phase }
    {
        match self.session.phase() {
            Phase::Exited { after_shutdown } => Some(after_shutdown),
            _ => None,
        }
    }
}

// A core over a list of events.
ghost use Rattle.std.specs.Prelude.{◌≡◌, ◌+◌, [], ◌∷◌, ◌++◌, filter, length, map, None, Err, IfOk, IfErr, OnOk};
ghost use Rattle.std.specs.Option.{option_to_list};
ghost use Rattle.work_config.specs.Fault.{ComesWithoutThreads};
ghost use Rattle.lsp_core.specs.Core.{messages, WhateverCame, ExhaustsStamps};
ghost use Rattle.lsp_core.specs.Run.{is_message, verdicts_of, HasCome, HasFollowed, HasRun};
ghost use Rattle.lsp_runs.specs.Listed.{incoming_of};
ghost use Rattle.lsp_core.specs.View.{core_state, last_fault};

use crate::working::do_all;
use lsp_core::{Core, Reply};
use piece_collector::Verdict;
use std::alloc::{AllocError, Global};
use work_config::{Config, CoreFault};
use work_index::Done;

/// What happens to a core. An advance follows each event.
#[derive(Drop)]
pub enum CoreEvent {
    /// A message comes, with this body.
    Message(Vec<u8>),
    /// What became of a job is brought, whether or not the job was given.
    Offer(Done),
    /// All work is done that the core has to give: each job that it gives, and what is made of it is brought at once.
    Work,
}

/// What a core answered to a list of events.
#[derive(Debug, Drop)]
pub struct CoreRun {
    /// The replies, in order.
    pub replies: Vec<Reply>,
    /// What became of each offer, in order; of those of `Work` nothing is said.
    pub verdicts: Vec<Verdict>,
    /// How many messages were processed.
    pub processed: usize,
}

// Gives the core an event, and says what became of it, if it is an offer.
fn take(alloc: Global, core: &mut Core, event: CoreEvent) -> Result<Option<Verdict>, CoreFault>
    ensures comes { OnOk result (WhateverCame (core_state core.old) (λ opening config h. HasCome opening config (core_state core.new) (incoming_of event) h)) }
    ensures verdict { IfOk result (λ verdict. WhateverCame (core_state core.old) (λ opening config h. option_to_list verdict ≡ verdicts_of opening config h (incoming_of event))) }
    ensures open { last_fault core.old ≡ None → OnOk result (last_fault core.new ≡ None) }
    ensures memory { last_fault core.old ≡ None → IfErr result (λ fault. fault ≡ CoreFault.Memory) }
{
    match event {
        CoreEvent::Message(body) => {
            core.message(body.as_slice())?;
            Ok(None)
        }
        CoreEvent::Offer(sent) => Ok(Some(core.offer(sent)?)),
        CoreEvent::Work => {
            do_all(alloc, core)?;
            Ok(None)
        }
    }
}

// Adds a verdict, if there is one.
fn push_verdict(verdicts: &mut Vec<Verdict>, verdict: Option<Verdict>) -> Result<(), AllocError>
    ensures { OnOk result (verdicts.new.items ≡ verdicts.old.items ++ option_to_list verdict) }
{
    if let Some(verdict) = verdict {
        verdicts.push(verdict)?;
    }
    Ok(())
}

// Moves the later replies behind the earlier ones.
fn append(replies: &mut Vec<Reply>, later: Vec<Reply>) -> Result<(), AllocError>
    ensures { OnOk result (replies.new.items ≡ replies.old.items ++ later.items) }
{
    let mut later = later;
    match replies.append(&mut later) {
        Ok(()) => Ok(()),
        Err(_) => Err(AllocError),
    }
}

// Gives the core an event and then an advance, and adds what it answers.
fn handle(
    alloc: Global,
    core: &mut Core,
    event: CoreEvent,
    replies: &mut Vec<Reply>,
    verdicts: &mut Vec<Verdict>,
) -> Result<(), CoreFault>
    ensures follows { OnOk result (WhateverCame (core_state core.old) (λ opening config h. HasFollowed opening config (core_state core.new) (incoming_of event) h replies.old.items replies.new.items verdicts.old.items verdicts.new.items)) }
    ensures open { last_fault core.old ≡ None → OnOk result (last_fault core.new ≡ None) }
    ensures threads { last_fault core.old ≡ None → IfErr result ComesWithoutThreads }
    ensures stamps { last_fault core.old ≡ None → result ≡ Err CoreFault.Exhausted → WhateverCame (core_state core.old) (λ opening config h. ExhaustsStamps opening config (length (messages h) + length (filter is_message (incoming_of event ∷ [])))) }
{
    let verdict = take(alloc, core, event)?;
    push_verdict(verdicts, verdict)?;
    let later = core.advance()?;
    append(replies, later)?;
    Ok(())
}

fn is_message(event: &CoreEvent) -> bool
    ensures { result ≡ is_message (incoming_of event.now) }
{
    matches!(event, CoreEvent::Message(_))
}

// How many of the events are messages.
fn count_messages(events: &[CoreEvent]) -> usize
    ensures { result ≡ length (filter is_message (map incoming_of events.now)) }
{
    events.iter().filter(|event| is_message(event)).count()
}

/// Runs a new core on the events, in order. `Memory` where memory is refused, `Exhausted` where a text finds no stamp: then the files on
/// disk and the messages are more than there are stamps.
pub fn run_core(alloc: Global, config: Config, events: Vec<CoreEvent>) -> Result<CoreRun, CoreFault>
    ensures run { IfOk result (λ run. HasRun config (map incoming_of events.items) run.replies.items run.verdicts.items run.processed) }
    ensures threads { IfErr result ComesWithoutThreads }
    ensures exhausted { result ≡ Err CoreFault.Exhausted → ExhaustsStamps 0 config (length (filter is_message (map incoming_of events.items))) }
{
    let mut core = Core::new(alloc, config)?;
    let mut replies = Vec::new(alloc);
    let mut verdicts = Vec::new(alloc);
    let arrived = count_messages(events.as_slice());
    for event in events {
        handle(alloc, &mut core, event, &mut replies, &mut verdicts)?;
    }
    let processed = arrived - core.unprocessed();
    Ok(CoreRun {
        replies,
        verdicts,
        processed,
    })
}

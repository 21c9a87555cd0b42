// The core answers messages while the workers of a pool do its jobs.
ghost use Rattle.std.specs.Prelude.{◌≡◌, ◌<◌, ℕ, List, [], ◌∷◌, ◌++◌, length, None, Err, IfOk, IfErr, OnOk};
ghost use Rattle.work_config.specs.Configuration.{Configuration};
ghost use Rattle.work_config.specs.Fault.{IsOfCore};
ghost use Rattle.lsp_core.specs.Core.{messages, WhateverCame, ExhaustsStamps, Advances};
ghost use Rattle.lsp_core.specs.Steps.{Knows, Awaits, Progresses, replies_after, unprocessed};
ghost use Rattle.lsp_core.specs.View.{core_state, last_fault};

use crate::threading::Threading;
use lsp_core::{Core, Reply};
use std::sync::Wait;
use std::thread::Threads;
use work_config::ServeFault;
use work_index::Gate;
use work_pool::Pool;

// Lets the core process what it can.
fn advance<R: Threads + Wait, G: Gate>(
    threading: &Threading<'_, R, G>,
    core: &mut Core,
) -> Result<Vec<Reply>, ServeFault>
    ensures advances { IfOk result (λ replies. WhateverCame (core_state core.old) (λ opening config h. Advances opening config (core_state core.new) h replies.items)) }
    ensures fault { IfErr result IsOfCore }
    ensures stamps { last_fault core.old ≡ None → result ≡ Err ServeFault.Exhausted → WhateverCame (core_state core.old) (λ opening config h. ExhaustsStamps opening config (length (messages h))) }
    ensures open { OnOk result (last_fault core.new ≡ None) }
{
    match core.advance_in_shares(threading.rt, threading.workers, threading.gate) {
        Ok(replies) => Ok(replies),
        Err(fault) => Err(ServeFault::from(fault)),
    }
}

// Hands out jobs, takes the result of one, and lets the core process what it can.
fn work_on<R: Threads + Wait, G: Gate>(
    threading: &Threading<'_, R, G>,
    core: &mut Core,
    pool: &mut Pool,
) -> Result<Vec<Reply>, ServeFault>
    requires { 0 < unprocessed (core_state core.old) }
    ensures progress { IfOk result (λ replies. (config : Configuration) (bodies : List (List ℕ)) (body : List ℕ) → Awaits config (core_state core.old) bodies body → Progresses config (core_state core.new) bodies body replies.items) }
    ensures fault { IfErr result IsOfCore }
    ensures stamps { last_fault core.old ≡ None → result ≡ Err ServeFault.Exhausted → (config : Configuration) (bodies : List (List ℕ)) (body : List ℕ) → Awaits config (core_state core.old) bodies body → ExhaustsStamps 0 config (length (bodies ++ body ∷ [])) }
    ensures open { OnOk result (last_fault core.new ≡ None) }
{
    core.hand_out(threading.rt, pool)?;
    core.take_result(threading.rt, pool)?;
    advance(threading, core)
}

// Lets the workers work until the core processes the message that waits, and gives the replies to it.
fn await_replies<R: Threads + Wait, G: Gate>(
    threading: &Threading<'_, R, G>,
    core: &mut Core,
    pool: &mut Pool,
) -> Result<Vec<Reply>, ServeFault>
    requires { 0 < unprocessed (core_state core.old) }
    ensures answers { IfOk result (λ replies. (config : Configuration) (bodies : List (List ℕ)) (body : List ℕ) → Awaits config (core_state core.old) bodies body
        → Knows config (core_state core.new) (bodies ++ body ∷ []) × (replies.items ≡ replies_after config bodies body)) }
    ensures fault { IfErr result IsOfCore }
    ensures stamps { last_fault core.old ≡ None → result ≡ Err ServeFault.Exhausted → (config : Configuration) (bodies : List (List ℕ)) (body : List ℕ) → Awaits config (core_state core.old) bodies body → ExhaustsStamps 0 config (length (bodies ++ body ∷ [])) }
    ensures open { OnOk result (last_fault core.new ≡ None) }
{
    for _result in threading.rt.forever() {
        match work_on(threading, core, pool) {
            Ok(replies) => {
                if !core.waits() {
                    return Ok(replies);
                }
            }
            Err(fault) => return Err(fault),
        }
    }
    unreachable!()
}

// Gives the core a message, and lets it process what it can.
fn begin<R: Threads + Wait, G: Gate>(
    threading: &Threading<'_, R, G>,
    core: &mut Core,
    body: &[u8],
) -> Result<Vec<Reply>, ServeFault>
    ensures progress { IfOk result (λ replies. (config : Configuration) (bodies : List (List ℕ)) → Knows config (core_state core.old) bodies → Progresses config (core_state core.new) bodies body.now replies.items) }
    ensures fault { IfErr result IsOfCore }
    ensures stamps { last_fault core.old ≡ None → result ≡ Err ServeFault.Exhausted → (config : Configuration) (bodies : List (List ℕ)) → Knows config (core_state core.old) bodies → ExhaustsStamps 0 config (length (bodies ++ body.now ∷ [])) }
    ensures open { OnOk result (last_fault core.new ≡ None) }
{
    match core.message(body) {
        Ok(()) => advance(threading, core),
        Err(fault) => Err(ServeFault::from(fault)),
    }
}

/// Gives the core a message, lets the workers work as long as it waits, and gives the replies to it. None waited before.
pub fn answer<R: Threads + Wait, G: Gate>(
    threading: &Threading<'_, R, G>,
    core: &mut Core,
    pool: &mut Pool,
    body: &[u8],
) -> Result<Vec<Reply>, ServeFault>
    ensures answers { IfOk result (λ replies. (config : Configuration) (bodies : List (List ℕ)) → Knows config (core_state core.old) bodies
        → Knows config (core_state core.new) (bodies ++ body.now ∷ []) × (replies.items ≡ replies_after config bodies body.now)) }
    ensures fault { IfErr result IsOfCore }
    ensures stamps { last_fault core.old ≡ None → result ≡ Err ServeFault.Exhausted → (config : Configuration) (bodies : List (List ℕ)) → Knows config (core_state core.old) bodies → ExhaustsStamps 0 config (length (bodies ++ body.now ∷ [])) }
    ensures open { OnOk result (last_fault core.new ≡ None) }
{
    let replies = begin(threading, core, body)?;
    if !core.waits() {
        return Ok(replies);
    }
    await_replies(threading, core, pool)
}

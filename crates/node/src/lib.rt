// The node: power-on, and one event. What users call.
#![tactic(auto)]

ghost use Rattle.std.specs.Prelude.{◌≡◌, ◌≤◌, true, length};
ghost use Rattle.model.specs.declared.Service.{Service};
ghost use Rattle.model.specs.declared.Service.TheVariants as Service;
ghost use Rattle.model.specs.Frames.{frames_of};
ghost use Rattle.model.specs.Step as Step;
ghost use Rattle.model.specs.Step.{Gives};
ghost use Rattle.lss.specs.Told.{part_of};
ghost use Rattle.rules.specs.Fit.{Fit};
ghost use Rattle.output.specs.Sent.{Leaves};
ghost use Rattle.step.specs.Asked.{SizesFor, ReadFor};
ghost use Rattle.node.specs.Parts.{left, Turning, Turned};

use lss::{lss_reply, lss_served};
use model::{Answer, Change, Core, Groups, Identity, LssRequest, PRE_OPERATIONAL, Service, State};
use nmt::{commanded, unborn};
use output::{Sent, emcy_after, remote, replied, report, sample, send, sync, tick};
use rules::{power_on_refusal, refusal, refused};
use service::service;
use step::ask::{Asked, ask_lss, ask_nmt, ask_sdo, sdo_heard};
use step::change::{alters, booted, core_after, settings_after, store_after};
use store::saved::Contents;

// ---- A service that leaves the parameters

// The answer of a call that is done and has left them.
fn answered(sent: Sent, s: State) -> Answer
    ensures { result ≡ left sent s }
{
    let mut state = s;
    let core = sent.core;
    state.core = core;
    Answer {
        number: 0,
        count: sent.count,
        state,
    }
}

// An LSS request sends its answer, in Pre-operational alone. `Fit` and the room stay clauses, here and below, as in `output`.
fn lss_sent(request: LssRequest, s: State, out: &mut [u8]) -> Sent
    requires { Fit s × ((part_of request ≤ 3) × (48 ≤ length out.old)) }
    ensures { Leaves (Step.reply (Service.Lss request) s) (Step.heard (Service.Lss request) s) out.old out.new result }
{
    if s.core.nmt == PRE_OPERATIONAL {
        return replied(lss_reply(request, s), lss_served(request, s), out);
    }
    let core = s.core;
    Sent { count: 0, core }
}

// ---- A change that touches the parameters

// What the store holds, where the change is a load: no other reads it.
fn read_for(asked: Asked, store: &[u8; 64]) -> Option<Contents<'_>>
    requires { SizesFor asked.change store.now asked.sizes }
    ensures { ReadFor asked.change store.now result }
{
    match (asked.change, asked.sizes) {
        (Change::Load(..), Some(sizes)) => Some(Contents { store, sizes }),
        _ => None,
    }
}

// The parameters after it, the rest of the state, and what is sent. h is the core that the service leaves.
fn turned(asked: Asked, h: Core, s: State, out: &mut [u8], store: &[u8; 64]) -> Answer
    requires { Turning asked h s store.now × (48 ≤ length out.old) }
    ensures { (v : Service) → h ≡ Step.heard v s → Turned asked.change asked.reply v s store.now out.old out.new result }
{
    let c = asked.change;
    let contents = read_for(asked, store);
    let settings = settings_after(c, s.settings, contents);
    let mut core = core_after(c, h, s.core, settings, contents);
    let told = emcy_after(settings.application, core);
    let boot = booted(c);
    let count = send(asked.reply, boot, told.emcy, out);
    core.reported = told.reported;
    let identity = s.identity;
    let state = State {
        identity,
        settings,
        core,
    };
    Answer {
        number: 0,
        count,
        state,
    }
}

// The same, and the store after it.
fn altered(asked: Asked, h: Core, s: State, out: &mut [u8], store: &mut [u8; 64]) -> Answer
    requires { Turning asked h s store.old × (48 ≤ length out.old) }
    ensures { (v : Service) → h ≡ Step.heard v s → Step.reports v ≡ true → frames_of asked.reply ≡ Step.reply v s → Gives (Step.given (Step.served asked.change v s store.old) out.old) result out.new store.new }
{
    let answer = turned(asked, h, s, out, store);
    store_after(asked.change, s, store);
    answer
}

// ---- The power-on

// The node as the load of a power-on leaves it: both groups, under the ID saved in N, with its boot-up and EMCY.
fn wake(identity: Identity, out: &mut [u8], store: &[u8; 64]) -> Answer
    requires { 48 ≤ length out.old }
    ensures { Gives (Step.given (Step.power_on identity store.now) out.old) result out.new store.now }
{
    let contents = Contents::read(store);
    let s = unborn(identity);
    let asked = Asked {
        change: Change::Load(Groups::Both, contents.address().id),
        reply: None,
        sizes: Some(contents.sizes),
    };
    turned(asked, s.core, s, out, store)
}

// Power-on. A refused one hands back the state that a store of zeros gives, and what that would send goes nowhere.
pub fn power_on(identity: Identity, out: &mut [u8], store: &[u8]) -> Answer
    ensures { Gives (Step.power_on_answer identity out.old store.now) result out.new store.now }
{
    if let Err(reason) = power_on_refusal(out.len(), store.len()) {
        let zeros = [0u8; 64];
        let mut nowhere = [0u8; 48];
        let woken = wake(identity, &mut nowhere, &zeros);
        let state = woken.state;
        return refused(reason.into(), state);
    }
    let Some(store) = store.as_array() else {
        unreachable!()
    };
    wake(identity, out, store)
}

// ---- One event

// An event. A refused one leaves state, output and store as they were.
pub fn event(event: &[u8], state: State, out: &mut [u8], store: &mut [u8]) -> Answer
    ensures { Gives (Step.event_answer event.now state out.old store.old) result out.new store.new }
{
    if let Err(reason) = refusal(event, state, out.len(), store.len()) {
        return refused(reason.into(), state);
    }
    let Some(store) = store.as_mut_array() else {
        unreachable!()
    };
    match service(event) {
        Service::Nothing => refused(0, state),
        Service::Tick => answered(tick(state, out), state),
        Service::Sample(fv) => answered(sample(fv, state, out), state),
        Service::Sync => answered(sync(state, out), state),
        Service::Remote { to } => answered(remote(to, state, out), state),
        Service::Nmt { command, to } => {
            let asked = ask_nmt(command, to, state, store);
            let h = commanded(command, to, state);
            if alters(asked.change) {
                return altered(asked, h, state, out, store);
            }
            answered(report(state, h, out), state)
        }
        Service::Sdo { to, request } => {
            let asked = ask_sdo(to, request, state);
            let h = sdo_heard(to, request, state);
            if alters(asked.change) {
                return altered(asked, h, state, out, store);
            }
            store_after(asked.change, state, store);
            answered(replied(asked.reply, h, out), state)
        }
        Service::Lss(request) => {
            store_after(ask_lss(request, state), state, store);
            answered(lss_sent(request, state, out), state)
        }
    }
}

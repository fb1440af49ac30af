// What NMT, SDO and LSS are asked: the change that a service makes, its reply, at most one frame, and the rest of the state after an SDO request.
ghost use Rattle.std.specs.Prelude.{◌≡◌, List, ℕ};
ghost use Rattle.model.specs.declared.Service.TheVariants as Service;
ghost use Rattle.model.specs.declared.Change.TheVariants as Change;
ghost use Rattle.model.specs.Store.{Saved};
ghost use Rattle.model.specs.Sdo as Sdo;
ghost use Rattle.model.specs.Step as Step;
ghost use Rattle.rules.specs.Fit.{Fit};
ghost use Rattle.step.specs.Asked.{IsAsked};

use image::Sizes;
use lss::lss_change;
use model::{Change, Core, Frame, Groups, LssRequest, PRE_OPERATIONAL, STOPPED, SdoRequest, State};
use nmt::commands::Command;
use nmt::is_for;
use sdo::serve::{serve, upload_after};
use store::saved::Contents;

// What a service comes to. Where the change is a load, the store was read, and these are the sizes of what is saved in it. They are no `Contents`:
// that would keep the store lent, and whoever asks may write it next.
#[derive(Clone, Copy)]
pub struct Asked {
    pub change: Change,
    pub sizes: Option<Sizes>,
    pub reply: Option<Frame>,
}

// What a service comes to for which the store is not read.
fn unread(change: Change, reply: Option<Frame>) -> Asked
    ensures { (result.change ≡ change) × (result.reply ≡ reply) }
{
    Asked {
        change,
        reply,
        sizes: None,
    }
}

// A service that neither changes nor replies.
fn no_matter() -> Asked
    ensures { (result.change ≡ Change.Keep) × (result.reply ≡ None) }
{
    unread(Change::Keep, None)
}

// An NMT command, as the frame's byte: a reset is a load, with the ID that becomes active. The store is read once for all that follows.
// Not inlined, and `ask_sdo` neither: their locals would lie on the stack of every event (docs/COSTS.md).
#[tactic(auto, unfolding(model::specs::Step::change_of, model::specs::Step::reply, model::specs::Nmt::nmt_change, model::specs::Nmt::reset_asked, model::specs::Choice::first_hit))]
#[inline(never)]
pub fn ask_nmt(command: u8, to: u8, s: State, store: &[u8; 64]) -> Asked
    ensures { IsAsked (Service.Nmt command to) s store.now result }
{
    if !is_for(to, s.core.active.id) {
        return no_matter();
    }
    match Command::try_from(command) {
        Ok(Command::ResetNode) => {
            let contents = Contents::read(store);
            let change = Change::Load(Groups::Both, contents.address().id);
            Asked {
                change,
                reply: None,
                sizes: Some(contents.sizes),
            }
        }
        Ok(Command::ResetCommunication) => {
            let change = Change::Load(Groups::OnlyC, s.core.pending.id);
            Asked {
                change,
                reply: None,
                sizes: Some(Contents::read(store).sizes),
            }
        }
        _ => no_matter(),
    }
}

// Whether an SDO request is served: it is for this node, which is not Stopped.
fn serves(to: u8, s: State) -> bool
    ensures { result ≡ Sdo.serves to s }
{
    (to == s.core.active.id) & (s.core.nmt != STOPPED)
}

// An SDO request, where it is served. `Fit` stays a clause, here and below: it is said of the state, which C has.
#[tactic(auto, using(crate::proofs::Unread::sdo_unread), unfolding(model::specs::Step::change_of, model::specs::Step::reply))]
#[inline(never)]
pub fn ask_sdo(to: u8, request: SdoRequest, s: State) -> Asked
    requires { Fit s }
    ensures { (st : List ℕ) → IsAsked (Service.Sdo to request) s st result }
{
    if serves(to, s) {
        let served = serve(request, s);
        return unread(served.change, served.reply);
    }
    no_matter()
}

// The core after it, the restart of a timer apart: it moves the open upload.
#[tactic(auto, unfolding(model::specs::Step::heard))]
pub fn sdo_heard(to: u8, request: SdoRequest, s: State) -> Core
    requires { Fit s }
    ensures { result ≡ Step.heard (Service.Sdo to request) s }
{
    let mut c = s.core;
    if serves(to, s) {
        let upload = upload_after(request, s);
        c.upload = upload;
        return c;
    }
    c
}

// The change of an LSS request, which is served in Pre-operational alone.
#[tactic(auto, unfolding(model::specs::Step::change_of))]
pub fn ask_lss(request: LssRequest, s: State) -> Change
    ensures { (sv : Saved) → result ≡ Step.change_of (Service.Lss request) s sv }
{
    if s.core.nmt == PRE_OPERATIONAL {
        return lss_change(request, s);
    }
    Change::Keep
}

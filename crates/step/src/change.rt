// The state and the store after a change. Nothing else touches the saved parameters or the store.
ghost use Rattle.std.specs.Prelude.{◌≡◌, List, ℕ};
ghost use Rattle.model.specs.declared.Service.{Service};
ghost use Rattle.model.specs.declared.State.{State};
ghost use Rattle.model.specs.Frames.{frames_of};
ghost use Rattle.model.specs.Store.{read};
ghost use Rattle.model.specs.Changes.{applied, stored};
ghost use Rattle.model.specs.Nmt as Nmt;
ghost use Rattle.model.specs.Step as Step;
ghost use Rattle.step.specs.Asked.{Suits, ReadFor, alters_of};

use model::{Change, Core, Frame, Groups, Settings, State};
use nmt::{boot_up, reset};
use settings::change::{take_out, write};
use store::saved::Contents;
use store::write::{readdress, save};
use time::restarts::{restart, timer_of};

// The parameters after it. Where it is a load, the store was read.
#[tactic(auto, unfolding(model::specs::Changes::applied, model::specs::Changes::effect))]
pub fn settings_after(c: Change, k: Settings, contents: Option<Contents>) -> Settings
    requires { Suits c }
    ensures { (st : List ℕ) → ReadFor c st contents.entry → result ≡ applied c k (read st) }
{
    match c {
        Change::Write(p, x) => write(k, p, x),
        Change::TakeOut(gs) => take_out(k, gs),
        Change::Load(gs, id) => match contents {
            Some(contents) => contents.load(gs, id, k),
            None => k,
        },
        _ => k,
    }
}

// The rest of the state after a load, with the parameters k that were loaded: it is a reset.
fn loaded(gs: Groups, id: u8, k: Settings, c: Core, contents: Contents) -> Core
    ensures { result ≡ Nmt.reset gs id (read contents.entry.store.now) k c }
{
    reset(gs, id, contents.address().bit, k, c)
}

// The rest of the state after a service and its change: h is what the service alone leaves of it, `old` what it was before, k the parameters
// after the change. A written period or type restarts its timer.
#[tactic(auto, unfolding(model::specs::Step::core_after))]
pub fn core_after(c: Change, h: Core, old: Core, k: Settings, contents: Option<Contents>) -> Core
    ensures { (v : Service) (s : State) (st : List ℕ) → h ≡ Step.heard v s → old ≡ s.core → ReadFor c st contents.entry → result ≡ Step.core_after c v s (read st) k }
{
    match c {
        Change::Write(p, _) => restart(timer_of(p), h),
        Change::Load(gs, id) => match contents {
            Some(contents) => loaded(gs, id, k, old, contents),
            None => h,
        },
        _ => h,
    }
}

// Whether it touches the parameters. The others leave them, and no load boots up.
pub fn alters(c: Change) -> bool
    ensures { result ≡ alters_of c }
{
    matches!(c, Change::Write(..) | Change::TakeOut(_) | Change::Load(..))
}

// The boot-up where it is a load, with the ID that becomes active.
pub fn booted(c: Change) -> Option<Frame>
    requires { Suits c }
    ensures { frames_of result ≡ Step.booted c }
{
    match c {
        Change::Load(_, id) => Some(boot_up(id)),
        _ => None,
    }
}

// The store after it: a save puts records in, a load word takes them out, 17h puts the pending pair in.
#[tactic(auto, unfolding(model::specs::Changes::stored))]
pub fn store_after(c: Change, s: State, store: &mut [u8; 64])
    ensures { store.new ≡ stored c s store.old }
{
    match c {
        Change::Save(gs) => save(gs, s.core.active.id, s.settings, store),
        Change::TakeOut(gs) => store::write::take_out(gs, store),
        Change::SavePending => readdress(s.core.pending, store),
        _ => {}
    }
}

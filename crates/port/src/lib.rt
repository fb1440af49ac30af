// The node for C: the two calls of `node` under names that a linker sees, with the very same promises.
// include/seumhwari.h is the C side.
#![tactic(auto)]

ghost use Rattle.model.specs.Step as Step;
ghost use Rattle.model.specs.Step.{Gives};

use model::{Answer, Identity, State};

// Power-on: called once, before any event.
#[unsafe(no_mangle)]
pub extern "C" fn seumhwari_power_on(identity: Identity, out: &mut [u8], store: &[u8]) -> Answer
    ensures { Gives (Step.power_on_answer identity out.old store.now) result out.new store.now }
{
    node::power_on(identity, out, store)
}

// Serves one event in the state that the last answer handed back.
#[unsafe(no_mangle)]
pub extern "C" fn seumhwari_event(
    event: &[u8],
    state: State,
    out: &mut [u8],
    store: &mut [u8],
) -> Answer
    ensures { Gives (Step.event_answer event.now state out.old store.old) result out.new store.new }
{
    node::event(event, state, out, store)
}

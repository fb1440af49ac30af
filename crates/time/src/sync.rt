// A TPDO outside the event timer, by its transmission type: at a SYNC, after a sample, for a remote frame.
ghost use Rattle.std.specs.Prelude.{◌≡◌, ◌&&◌, ◌+◌, leb};
ghost use Rattle.model.specs.Parts.{is_operational};
ghost use Rattle.model.specs.Time as Time;

use model::{Core, Fv, OPERATIONAL, Sending, State, Transmission};

// ---- Transmission types

// By the event timer.
pub fn is_timed(at: Transmission) -> bool
    ensures { result ≡ Time.is_timed at }
{
    at == Transmission::Timed
}

// ---- Samples

// A new sample, also where FV is the same again.
pub fn sampled(fv: Fv, c: Core) -> Core
    ensures { result ≡ Time.sampled fv c }
{
    let mut t = c;
    t.fv = fv;
    t.tpdo.sample = true;
    t
}

// ---- SYNC

// Whether the next SYNC is the n-th. The count may be 255 in a state that keeps no rule, so the sum is wider.
fn is_nth(n: u8, syncs: u8) -> bool
    ensures { result ≡ leb n (syncs + 1) }
{
    u16::from(n) <= u16::from(syncs) + 1
}

// Whether a type sends at a SYNC.
fn sends(at: Transmission, n: u8, d: Sending) -> bool
    ensures { result ≡ Time.sync_sends at n d }
{
    match at {
        Transmission::OnSample => d.sample,
        Transmission::OnSyncs => is_nth(n, d.syncs),
        _ => false,
    }
}

// What the TPDO remembers after a SYNC.
fn counted(at: Transmission, n: u8, d: Sending) -> Sending
    ensures { result ≡ Time.sync_counted at n d }
{
    match at {
        Transmission::OnSample => Sending {
            syncs: d.syncs,
            sample: false,
        },
        Transmission::OnSyncs if is_nth(n, d.syncs) => Sending {
            syncs: 0,
            sample: false,
        },
        Transmission::OnSyncs => Sending {
            syncs: d.syncs + 1,
            sample: d.sample,
        },
        _ => d,
    }
}

// Whether a SYNC is answered by a TPDO.
pub fn sync_sends(s: State) -> bool
    ensures { result ≡ (is_operational s.core && Time.sync_sends (Time.sends_at s) s.settings.communication.tpdo.kind s.core.tpdo) }
{
    let kind = s.settings.communication.tpdo.kind;
    let d = s.core.tpdo;
    let sent = sends(Transmission::from(kind), kind, d);
    (s.core.nmt == OPERATIONAL) & sent
}

// The core after a SYNC, which is heard in Operational alone.
#[tactic(auto, unfolding(model::specs::Time::synced))]
pub fn synced(s: State) -> Core
    ensures { result ≡ Time.synced s }
{
    let mut c = s.core;
    if c.nmt != OPERATIONAL {
        return c;
    }
    let kind = s.settings.communication.tpdo.kind;
    let d = c.tpdo;
    let after = counted(Transmission::from(kind), kind, d);
    c.tpdo = after;
    c
}

// ---- Remote frames

// Whether a remote frame on the TPDO of the node `to` is answered.
#[tactic(auto, unfolding(model::specs::Time::answers_remote))]
pub fn answers_remote(to: u8, s: State) -> bool
    ensures { result ≡ Time.answers_remote to s }
{
    let asked = Transmission::from(s.settings.communication.tpdo.kind) == Transmission::OnRemote;
    (to == s.core.active.id) & ((s.core.nmt == OPERATIONAL) & asked)
}

// The core after it: the answer uses up the sample, and leaves the event timer alone.
#[tactic(auto, unfolding(model::specs::Time::remote_answered))]
pub fn remote_answered(to: u8, s: State) -> Core
    ensures { result ≡ Time.remote_answered to s }
{
    let mut c = s.core;
    if answers_remote(to, s) {
        c.tpdo.sample = false;
    }
    c
}

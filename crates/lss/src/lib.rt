// LSS: selection by identity, and what is asked in configuration.
#![tactic(auto)]

ghost use Rattle.std.specs.Prelude.{◌≡◌, [], ◌∷◌, ◌≤◌};
ghost use Rattle.model.specs.Frames.{frames_of};
ghost use Rattle.model.specs.Lss as Lss;
ghost use Rattle.lss.specs.Told.{part_of};

use model::{Address, Change, Core, Frame, Identity, LssRequest, Selection, State};
use wire::address::{is_bit_index, is_node_id};

// ---- Selection. A part stays a byte (`lss_served` answers every one); part, number and state stay apart, as the definitions of `Lss` take them

// The four numbers of the identity, from 0.
#[tactic(auto, unfolding(model::specs::Lss::identity_part, model::specs::Choice::first_hit))]
fn identity_part(n: u8, i: Identity) -> u32
    ensures { result ≡ Lss.identity_part n i }
{
    match n {
        0 => i.vendor,
        1 => i.product,
        2 => i.revision,
        _ => i.serial,
    }
}

// A number that matches and is the next one; the first counts as next at any time.
#[tactic(auto, unfolding(model::specs::Lss::matches))]
fn matches(n: u8, number: u32, s: State) -> bool
    ensures { result ≡ Lss.matches n number s }
{
    let i = s.identity;
    let own = identity_part(n, i);
    (number == own) & ((n == 0) | (n == s.core.lss.progress))
}

// The last of the four selects the node.
fn selects(n: u8, number: u32, s: State) -> bool
    ensures { result ≡ Lss.selects n number s }
{
    let matched = matches(n, number, s);
    (n == 3) & matched
}

// The selection after a number: back to none where it doesn't match. That at most three have matched stays a clause, here and below: C's state has
// a byte there.
#[tactic(auto, unfolding(model::specs::Lss::selection_after, model::specs::Lss::matches))]
fn selection_after(n: u8, number: u32, s: State) -> Selection
    requires { s.core.lss.progress ≤ 3 }
    ensures { result ≡ Lss.selection_after n number s }
{
    let configuration = s.core.lss.configuration;
    if matches(n, number, s) {
        if n == 3 {
            return Selection {
                configuration: true,
                progress: 0,
            };
        }
        return Selection {
            configuration,
            progress: n + 1,
        };
    }
    Selection {
        configuration,
        progress: 0,
    }
}

// Mode 0 is waiting, 1 configuration; another changes nothing. It stays the byte of the frame: `lss_served` answers every one.
#[tactic(auto, unfolding(model::specs::Lss::mode_after, model::specs::Choice::first_hit))]
fn mode_after(mode: u8, on: bool) -> bool
    ensures { result ≡ Lss.mode_after mode on }
{
    match mode {
        0 => false,
        1 => true,
        _ => on,
    }
}

// The LSS state after a request: every one but the next number restarts the progress.
#[tactic(auto, unfolding(model::specs::Lss::lss_after))]
pub fn lss_after(request: LssRequest, s: State) -> Selection
    requires { s.core.lss.progress ≤ 3 }
    ensures { result ≡ Lss.lss_after request s }
{
    let on = s.core.lss.configuration;
    match request {
        LssRequest::Select { part, number } => selection_after(part, number, s),
        LssRequest::SwitchMode(mode) => {
            let configuration = mode_after(mode, on);
            Selection {
                configuration,
                progress: 0,
            }
        }
        _ => Selection {
            configuration: on,
            progress: 0,
        },
    }
}

// ---- What is asked in configuration

// A bit index of the only table there is.
fn bit_in_table(table: u8, bit: u8) -> bool
    ensures { result ≡ Lss.bit_in_table table bit }
{
    (table == 0) & is_bit_index(bit)
}

// The pending pair, with another ID or another bit index where that is allowed.
#[tactic(auto, unfolding(model::specs::Lss::pending_after))]
pub fn pending_after(request: LssRequest, s: State) -> Address
    ensures { result ≡ Lss.pending_after request s }
{
    let mut pending = s.core.pending;
    let on = s.core.lss.configuration;
    match request {
        LssRequest::SetNodeId(id) => {
            if on & is_node_id(id) {
                pending.id = id;
            }
            pending
        }
        LssRequest::SetBitIndex { table, bit } => {
            if on & bit_in_table(table, bit) {
                pending.bit = bit;
            }
            pending
        }
        _ => pending,
    }
}

// 17h stores the pending pair.
#[tactic(auto, unfolding(model::specs::Lss::lss_change))]
pub fn lss_change(request: LssRequest, s: State) -> Change
    ensures { result ≡ Lss.lss_change request s }
{
    match request {
        LssRequest::StorePending => {
            if s.core.lss.configuration {
                return Change::SavePending;
            }
            Change::Keep
        }
        _ => Change::Keep,
    }
}

// The core after a request.
pub fn lss_served(request: LssRequest, s: State) -> Core
    requires { s.core.lss.progress ≤ 3 }
    ensures { result ≡ Lss.lss_served request s }
{
    let pending = pending_after(request, s);
    let lss = lss_after(request, s);
    let mut c = s.core;
    c.pending = pending;
    c.lss = lss;
    c
}

// ---- The answers

// An answer of a command byte and four more, with zeros after them.
fn answer(command: u8, bytes: [u8; 4]) -> Frame
    ensures { result ≡ Lss.answered (command ∷ bytes) }
{
    let [b0, b1, b2, b3] = bytes;
    Frame::new(0x7e4, 8, [command, b0, b1, b2, b3, 0, 0, 0])
}

// An answer of a command byte and one more.
fn answer_byte(command: u8, value: u8) -> Frame
    ensures { result ≡ Lss.answered (command ∷ value ∷ []) }
{
    answer(command, [value, 0, 0, 0])
}

// The error byte.
fn error_unless(allowed: bool) -> u8
    ensures { result ≡ Lss.error_unless allowed }
{
    u8::from(!allowed)
}

// The selection is answered by 44h in both states, and else only configuration answers.
// An event names a part of 0 to 3: else 5Ah and the part might be no byte.
#[tactic(auto, using(wire::proofs::Lay::frames_when, model::proofs::Numbers::low_of_32), unfolding(model::specs::Lss::lss_reply))]
pub fn lss_reply(request: LssRequest, s: State) -> Option<Frame>
    requires { part_of request ≤ 3 }
    ensures { frames_of result ≡ Lss.lss_reply request s }
{
    let on = s.core.lss.configuration;
    match request {
        LssRequest::Select { part, number } => {
            selects(part, number, s).then_some(answer_byte(0x44, 0))
        }
        LssRequest::SetNodeId(id) => {
            on.then_some(answer_byte(0x11, error_unless(is_node_id(id))))
        }
        LssRequest::SetBitIndex { table, bit } => {
            on.then_some(answer_byte(0x13, error_unless(bit_in_table(table, bit))))
        }
        LssRequest::StorePending => on.then_some(answer_byte(0x17, 0)),
        LssRequest::AskIdentity(n) => {
            let number = identity_part(n, s.identity);
            on.then_some(answer(0x5a + n, number.to_le_bytes()))
        }
        LssRequest::AskNodeId => on.then_some(answer_byte(0x5e, s.core.active.id)),
        LssRequest::SwitchMode(_) | LssRequest::OtherLss => None,
    }
}

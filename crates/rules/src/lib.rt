// The state rules, and the refusals of the two calls: of the numbers that apply the first in the table counts.
#![tactic(auto)]

ghost use Rattle.std.specs.Prelude.{◌≡◌, ◌≤◌};
ghost use Rattle.model.specs.Rules as Rules;
ghost use Rattle.model.specs.Step as Step;
ghost use Rattle.model.specs.Choice.{first_hit};
ghost use Rattle.rules.specs.Numbers.{number_of, numbered};

use model::{Answer, OPERATIONAL, PRE_OPERATIONAL, STOPPED, State};
use nmt::start_obeyed;
use time::frames::{emcy_due, reading_of};
use validity::Parameters;
use wire::address::{is_bit_index, is_node_id};
use wire::frames::{can_id, flag, kind_of, length};

// ---- The state rules. A state is whatever a caller built: its floats may be NaN, and its digits any

// The Node-ID and the pending one.
#[tactic(auto, unfolding(model::specs::Rules::rule_ids))]
fn rule_ids(s: State) -> bool
    ensures { result ≡ Rules.rule_ids s }
{
    is_node_id(s.core.active.id) & is_node_id(s.core.pending.id)
}

// The bit index and the pending one.
#[tactic(auto, unfolding(model::specs::Rules::rule_bits))]
fn rule_bits(s: State) -> bool
    ensures { result ≡ Rules.rule_bits s }
{
    is_bit_index(s.core.active.bit) & is_bit_index(s.core.pending.bit)
}

// One of the three NMT states.
#[tactic(auto, unfolding(model::specs::Rules::rule_nmt))]
fn rule_nmt(s: State) -> bool
    ensures { result ≡ Rules.rule_nmt s }
{
    (s.core.nmt == STOPPED) | ((s.core.nmt == OPERATIONAL) | (s.core.nmt == PRE_OPERATIONAL))
}

// Every parameter in range.
fn rule_ranges(s: State) -> bool
    ensures { result ≡ Rules.rule_ranges s }
{
    s.settings.communication.in_range() & s.settings.application.in_range()
}

// No false validity byte.
fn rule_honest(s: State) -> bool
    ensures { result ≡ Rules.rule_honest s }
{
    s.settings.communication.is_honest() & s.settings.application.is_honest()
}

// Operational only with parameters that Start would accept.
#[tactic(auto, unfolding(model::specs::Rules::rule_start))]
fn rule_start(s: State) -> bool
    ensures { result ≡ Rules.rule_start s }
{
    if s.core.nmt != OPERATIONAL {
        return true;
    }
    let k = s.settings;
    start_obeyed(k)
}

// The reported flag tells whether the reading is capped, unless Stopped: no EMCY is due.
#[tactic(auto, unfolding(model::specs::Rules::rule_reported))]
fn rule_reported(s: State) -> bool
    requires { s.settings.application.digits ≤ 4 }
    ensures { result ≡ Rules.rule_reported s }
{
    let reading = reading_of(s);
    !emcy_due(s.core.nmt, reading.integer.capped, s.core.reported)
}

// LSS configuration in Pre-operational alone, and a progress of at most three numbers.
#[tactic(auto, unfolding(model::specs::Rules::rule_lss))]
fn rule_lss(s: State) -> bool
    ensures { result ≡ Rules.rule_lss s }
{
    (!s.core.lss.configuration | (s.core.nmt == PRE_OPERATIONAL)) & (s.core.lss.progress <= 3)
}

// SYNCs are counted below a type of 1..240, and by no other type.
#[tactic(auto, unfolding(model::specs::Rules::rule_sync))]
fn rule_sync(s: State) -> bool
    ensures { result ≡ Rules.rule_sync s }
{
    let kind = s.settings.communication.tpdo.kind;
    let syncs = s.core.tpdo.syncs;
    if (1 <= kind) & (kind <= 240) {
        return syncs < kind;
    }
    syncs == 0
}

// An open upload is before one of the name's three segments.
#[tactic(auto, unfolding(model::specs::Rules::rule_upload))]
fn rule_upload(s: State) -> bool
    ensures { result ≡ Rules.rule_upload s }
{
    if !s.core.upload.busy {
        return true;
    }
    let at = s.core.upload.at;
    let toggle = s.core.upload.toggle;
    ((at == 0) & (toggle == 0)) | (((at == 7) & (toggle == 1)) | ((at == 14) & (toggle == 0)))
}

// All of them, the cheap ones first and the two signatures last: nothing is kept over the CRCs. From `rule_start` on they are asked one by one,
// for then the compiler reads a field where its rule wants it and not all of them before.
// The ranges come before the reading, which is defined for digits in range alone.
pub fn rules(s: State) -> bool
    ensures { result ≡ Rules.rules s }
{
    if !(rule_ids(s) & (rule_bits(s) & (rule_nmt(s) & rule_ranges(s)))) {
        return false;
    }
    if !rule_start(s) {
        return false;
    }
    if !rule_lss(s) {
        return false;
    }
    if !rule_sync(s) {
        return false;
    }
    if !rule_upload(s) {
        return false;
    }
    if !rule_reported(s) {
        return false;
    }
    rule_honest(s)
}

// ---- The refusals

// Why a call is refused: the rows of the document's table, the lowest number first.
#[derive(Clone, Copy, Debug, PartialEq, Eq)]
pub enum Reason {
    NotAnEvent = 1,
    UnknownKind = 2,
    BadFrame = 3,
    ShortOutput = 4,
    WrongStore = 5,
    BrokenState = 6,
}

impl From<Reason> for u8 {
    ghost from_gives = { λ r n. n ≡ number_of r };

    fn from(reason: Reason) -> u8 {
        reason as u8
    }
}

// A frame whose CAN-ID, flag or length is out of range.
fn bad_frame(event: &[u8]) -> bool
    ensures { result ≡ Step.bad_frame_in event.now }
{
    (2047 < can_id(event)) | (1 < flag(event)) | (8 < length(event))
}

// The refusals of an event's bytes.
#[tactic(auto, unfolding(model::specs::Choice::first_hit))]
fn event_refusal(event: &[u8]) -> Result<(), Reason>
    ensures { numbered result ≡ first_hit (Step.by_event event.now) Step.done }
{
    if event.len() != 13 {
        return Err(Reason::NotAnEvent);
    }
    let kind = kind_of(event);
    if !((1 <= kind) & (kind <= 3)) {
        return Err(Reason::UnknownKind);
    }
    if (kind == 1) & bad_frame(event) {
        return Err(Reason::BadFrame);
    }
    Ok(())
}

// The refusals of what is lent, by its lengths: all that a power-on can be refused by.
#[tactic(auto, unfolding(model::specs::Step::power_on_refusal, model::specs::Choice::first_hit))]
pub fn power_on_refusal(out: usize, store: usize) -> Result<(), Reason>
    ensures { numbered result ≡ Step.power_on_refusal out store }
{
    if out < 48 {
        return Err(Reason::ShortOutput);
    }
    if store != 64 {
        return Err(Reason::WrongStore);
    }
    Ok(())
}

// The refusals of an event. The state rules come last, so that they cost nothing where an earlier number applies.
pub fn refusal(event: &[u8], s: State, out: usize, store: usize) -> Result<(), Reason>
    ensures { numbered result ≡ Step.refusal event.now s out store }
{
    event_refusal(event)?;
    power_on_refusal(out, store)?;
    if !rules(s) {
        return Err(Reason::BrokenState);
    }
    Ok(())
}

// The answer of a call that sends nothing: its number, which C has, and the state that it hands back. The promise is of every number, so
// it takes a byte.
pub fn refused(number: u8, state: State) -> Answer
    ensures { result ≡ Step.turned_away number state }
{
    Answer {
        number,
        count: 0,
        state,
    }
}

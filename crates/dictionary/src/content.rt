// What an entry reads as.
ghost use Rattle.std.specs.Prelude.{◌≡◌, ◌≤◌};
ghost use Rattle.model.specs.Parts as Parts;
ghost use Rattle.model.specs.Dictionary as Table;

use model::{Content, Entry, Integer, Live, Pv, State, Value};
use reading::{bits_of, integer_pv, signed_of, to_pv};
use settings::table::value_of;

// The present PV.
fn pv(s: State) -> Pv
    ensures { result ≡ Parts.pv s }
{
    let scaling = s.settings.application.scaling;
    let fv = s.core.fv;
    to_pv(scaling, fv)
}

// The present integer PV. That the digits fit stays a clause, here and below: the state holds a byte, as C has it, and the definitions take it so.
fn integer(s: State) -> Integer
    requires { s.settings.application.digits ≤ 4 }
    ensures { result ≡ Parts.integer_pv s }
{
    integer_pv(pv(s), s.settings.application.digits)
}

// The error register: 81h while the reading is capped. `time` has it of a flag, for EMCY: one for both would stand in
// `reading`, which knows no objects.
#[tactic(auto, unfolding(model::specs::Parts::error_register))]
fn error_register(s: State) -> u8
    requires { s.settings.application.digits ≤ 4 }
    ensures { result ≡ Parts.error_register s }
{
    let i = integer(s);
    if i.capped { 0x81 } else { 0 }
}

// A value that is made from the state.
pub fn shown(l: Live, s: State) -> Value
    requires { s.settings.application.digits ≤ 4 }
    ensures { result ≡ Table.shown l s }
{
    let id = u32::from(s.core.active.id);
    match l {
        Live::ErrorRegister => Value::U8(error_register(s)),
        Live::EmcyId => Value::U32(0x80 + id),
        Live::Vendor => Value::U32(s.identity.vendor),
        Live::Product => Value::U32(s.identity.product),
        Live::Revision => Value::U32(s.identity.revision),
        Live::Serial => Value::U32(s.identity.serial),
        Live::SdoRequestId => Value::U32(0x600 + id),
        Live::SdoReplyId => Value::U32(0x580 + id),
        Live::TpdoId => Value::U32(0x180 + id),
        Live::PvBits => Value::U32(bits_of(pv(s).0)),
        Live::PvInverse => Value::U32(!bits_of(pv(s).0)),
        Live::PvReal => Value::Real32(pv(s).0),
        Live::FvCount => Value::U16(s.core.fv.0),
        Live::PvInteger => Value::Integer32(signed_of(integer(s).bits)),
    }
}

// What an entry reads as. 1010h and 1011h read as 1.
pub fn content(e: Entry, s: State) -> Content
    requires { s.settings.application.digits ≤ 4 }
    ensures { result ≡ Table.content_of e s }
{
    let k = s.settings;
    match e {
        Entry::Fixed(v) => Content::Plain(v),
        Entry::Name => Content::Text,
        Entry::Shown(l) => Content::Plain(shown(l, s)),
        Entry::Setting(p) => Content::Plain(value_of(k, p)),
        Entry::SaveWord(_) | Entry::LoadWord(_) => Content::Plain(Value::U32(1)),
    }
}

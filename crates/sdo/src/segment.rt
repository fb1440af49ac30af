// The upload of the name, `CRADLE-PRESSURE`, in three segments of seven bytes.
ghost use Rattle.std.specs.Prelude.{◌≡◌, true, ◌∷◌, ◌≤◌};
ghost use Rattle.model.specs.Dictionary as Table;
ghost use Rattle.model.specs.Parts.{id_of};
ghost use Rattle.model.specs.Rules.{rule_upload};
ghost use Rattle.model.specs.Sdo as Sdo;
ghost use Rattle.dictionary.specs.Codes.{code_of};
ghost use Rattle.sdo.specs.Open.{at_segment};

use super::reply::{Named, replied};
use dictionary::abort::AbortCode;
use model::{Frame, NO_UPLOAD, State, Upload};

// The object that an open upload reads.
const NAME_INDEX: u16 = 0x1008;

// ---- Where an upload stands

// A read of the name opens an upload. The name stands at 1008h:0 and nowhere else, so the dictionary is not searched for it.
#[tactic(auto, unfolding(model::specs::Dictionary::find))]
pub fn opened(index: u16, sub: u8) -> Upload
    ensures { result ≡ Sdo.opened (Table.find index sub) }
{
    if (index == NAME_INDEX) & (sub == 0) {
        return Upload {
            busy: true,
            at: 0,
            toggle: 0,
        };
    }
    NO_UPLOAD
}

// The upload after its segment: the last closes it.
#[tactic(auto, unfolding(model::specs::Sdo::segment_sent))]
pub fn segment_sent(u: Upload) -> Upload
    requires { at_segment u ≡ true }
    ensures { result ≡ Sdo.segment_sent u }
{
    let at = u.at;
    match at {
        0 => Upload {
            busy: true,
            at: 7,
            toggle: 1,
        },
        7 => Upload {
            busy: true,
            at: 14,
            toggle: 0,
        },
        _ => NO_UPLOAD,
    }
}

// ---- Segments. The toggle that is asked for stays a byte: `serve` answers every one

// A segment is sent where an upload is open and its toggle is the one asked for.
pub fn sends_segment(toggle: u8, u: Upload) -> bool
    ensures { result ≡ Sdo.sends_segment toggle u }
{
    u.busy & (toggle == u.toggle)
}

// The segment that is next. It names no index and sub, so the bound of the Node-ID is a clause here. Its command byte is 10h for a toggle of 1, plus twice the number of unused bytes, plus 1 for the last.
#[tactic(auto, unfolding(model::specs::Sdo::segment_command, model::specs::Bytes::part))]
fn segment(s: State) -> Frame
    requires { (id_of s ≤ 127) × (at_segment s.core.upload ≡ true) }
    ensures { result ≡ Sdo.replied s (Sdo.segment_command s.core.upload ∷ Sdo.segment_bytes s.core.upload) }
{
    let at = s.core.upload.at;
    match at {
        0 => replied([0x00, b'C', b'R', b'A', b'D', b'L', b'E', b'-'], s),
        7 => replied([0x10, b'P', b'R', b'E', b'S', b'S', b'U', b'R'], s),
        _ => replied([0x0d, b'E', 0, 0, 0, 0, 0, 0], s),
    }
}

// The index that an abort names for a request that names none: the open upload's, or 0000h.
#[tactic(auto, unfolding(model::specs::Sdo::open_index))]
pub fn open_index(u: Upload) -> u16
    ensures { result ≡ Sdo.open_index u }
{
    if u.busy { NAME_INDEX } else { 0 }
}

// The abort code where no segment is sent: the toggle is wrong, or no upload is open.
#[tactic(auto, unfolding(model::specs::Sdo::segment_code))]
fn segment_code(u: Upload) -> AbortCode
    ensures { code_of result ≡ Sdo.segment_code u }
{
    if u.busy {
        AbortCode::WrongToggle
    } else {
        AbortCode::UnknownCommand
    }
}

// The reply to a segment request: the segment or an abort.
#[tactic(auto, unfolding(model::specs::Sdo::segment_reply, model::specs::Rules::rule_upload))]
pub fn segment_reply(toggle: u8, s: State) -> Frame
    requires { (id_of s ≤ 127) × (rule_upload s ≡ true) }
    ensures { result ≡ Sdo.segment_reply toggle s }
{
    let u = s.core.upload;
    if sends_segment(toggle, u) {
        return segment(s);
    }
    Named::new(open_index(u), 0, s).aborted(segment_code(u).into())
}

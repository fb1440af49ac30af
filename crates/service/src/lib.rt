// What an event asks, by its bytes alone.
#![tactic(auto)]

ghost use Rattle.std.specs.Prelude.{◌≡◌};
ghost use Rattle.model.specs.Service as Asked;

use model::{Fv, LssRequest, SdoRequest, Service};
use wire::bytes::{get16, get32};
use wire::frames::{can_id, data, flag, kind_of, length, sample};

// ---- SDO

// The size that a download's first byte indicates, where it indicates one.
#[tactic(auto, unfolding(model::specs::Service::size_in))]
fn size_in(b: u8) -> Option<u8>
    ensures { result ≡ Asked.size_in b }
{
    (b % 2 == 1).then_some(4 - b / 4 % 4)
}

// A request by its first byte; a download that is not expedited is unknown.
#[tactic(auto, unfolding(model::specs::Choice::first_hit))]
fn sdo_by(first: u8, index: u16, sub: u8, four: u32) -> SdoRequest
    ensures { result ≡ Asked.sdo_by first index sub four }
{
    match first / 32 {
        0 => SdoRequest::DownloadSegment,
        1 if first / 2 % 2 == 1 => SdoRequest::Download {
            index,
            sub,
            size: size_in(first),
            data: four,
        },
        2 => SdoRequest::Upload { index, sub },
        3 => SdoRequest::UploadSegment {
            toggle: first / 16 % 2,
        },
        4 => SdoRequest::ClientAbort,
        _ => SdoRequest::Unknown { index, sub },
    }
}

// The request of an SDO frame.
#[tactic(auto, unfolding(model::specs::Service::sdo_request))]
fn sdo_request(e: &[u8]) -> SdoRequest
    ensures { result ≡ Asked.sdo_request e.now }
{
    sdo_by(data(e, 0), get16(e, 6), data(e, 3), get32(e, 9))
}

// ---- LSS

// A request by its first byte.
#[tactic(auto, unfolding(model::specs::Choice::first_hit))]
fn lss_by(command: u8, one: u8, two: u8, number: u32) -> LssRequest
    ensures { result ≡ Asked.lss_by command one two number }
{
    match command {
        0x04 => LssRequest::SwitchMode(one),
        0x40..=0x43 => LssRequest::Select {
            part: command - 0x40,
            number,
        },
        0x11 => LssRequest::SetNodeId(one),
        0x13 => LssRequest::SetBitIndex {
            table: one,
            bit: two,
        },
        0x17 => LssRequest::StorePending,
        0x5a..=0x5d => LssRequest::AskIdentity(command - 0x5a),
        0x5e => LssRequest::AskNodeId,
        _ => LssRequest::OtherLss,
    }
}

// The request of an LSS frame.
#[tactic(auto, unfolding(model::specs::Service::lss_request))]
fn lss_request(e: &[u8]) -> LssRequest
    ensures { result ≡ Asked.lss_request e.now }
{
    lss_by(data(e, 0), data(e, 1), data(e, 2), get32(e, 6))
}

// ---- Frames and events

// A remote frame: only those on a TPDO's CAN-ID mean anything.
#[tactic(auto, unfolding(model::specs::Service::remote_service))]
fn remote_service(id: u16) -> Service
    ensures { result ≡ Asked.remote_service id }
{
    match id {
        0x181..=0x1ff => Service::Remote {
            to: (id - 0x180) as u8,
        },
        _ => Service::Nothing,
    }
}

// A frame: each service has its CAN-ID and length.
#[tactic(auto, unfolding(model::specs::Service::frame_service, model::specs::Choice::first_hit))]
fn frame_service(e: &[u8]) -> Service
    ensures { result ≡ Asked.frame_service e.now }
{
    let id = can_id(e);
    if flag(e) == 1 {
        return remote_service(id);
    }
    match (id, length(e)) {
        (0, 2) => Service::Nmt {
            command: data(e, 0),
            to: data(e, 1),
        },
        (0x80, 0) => Service::Sync,
        (0x601..=0x67f, 8) => Service::Sdo {
            to: (id - 0x600) as u8,
            request: sdo_request(e),
        },
        (0x7e5, 8) => Service::Lss(lss_request(e)),
        _ => Service::Nothing,
    }
}

// An event.
#[tactic(auto, unfolding(model::specs::Service::service, model::specs::Choice::first_hit))]
pub fn service(e: &[u8]) -> Service
    ensures { result ≡ Asked.service e.now }
{
    match kind_of(e) {
        2 => Service::Tick,
        3 => Service::Sample(Fv(sample(e))),
        _ => frame_service(e),
    }
}

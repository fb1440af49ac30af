// Asks the settings, the dictionary and the store some questions and writes down what they answer: the marked cases 1, 6, 7 and 8 of the
// requirements and more writes besides. `stdout` holds what a node written apart from this one answers (tests/probe_expected.py).
#![tactic(auto)]

use dictionary::abort::AbortCode;
use dictionary::objects::find;
use dictionary::write::checked_write;
use model::{
    Address, Change, Core, Fv, Groups, Identity, NO_SELECTION, NO_UPLOAD, OPERATIONAL, Sending,
    State, Timers, VALID,
};
use settings::table::{defaults, first_cob, second_cob};
use std::io;
use store::saved::saved_sizes;
use store::write::save;

// ---- A node to ask

// The rest of a node of ID 1, in this NMT state.
fn core_in(nmt: u8) -> Core {
    Core {
        active: Address { id: 1, bit: 3 },
        pending: Address { id: 1, bit: 3 },
        nmt,
        reported: false,
        fv: Fv(0),
        timers: Timers {
            clock: 0,
            heartbeat: 0,
            tpdo: 0,
            srdo: 0,
        },
        tpdo: Sending {
            syncs: 0,
            sample: false,
        },
        lss: NO_SELECTION,
        upload: NO_UPLOAD,
    }
}

// A node of ID 1 with the defaults, signed off where it is Operational.
fn node_in(nmt: u8) -> State {
    let identity = Identity {
        vendor: 0,
        product: 0,
        revision: 0,
        serial: 0,
    };
    let mut settings = defaults(1);
    if nmt == OPERATIONAL {
        settings.communication.srdo.direction = 0;
        settings.application.signature = 0xea44;
        settings.application.valid = VALID;
    }
    let core = core_in(nmt);
    State {
        identity,
        settings,
        core,
    }
}

// ---- Questions

// The default COB-IDs of an ID.
fn cobs(rt: &HostRuntime, id: u8) -> io::Result<()> {
    let first = first_cob(id);
    let second = second_cob(id);
    println!(rt; "cobs {id} {first:03x} {second:03x}")
}

// The abort code of a write, 0 where it is accepted.
fn code_of(checked: Result<Change, AbortCode>) -> u32 {
    checked.err().map_or(0, u32::from)
}

// A write of `size` bytes (0: not indicated), and its abort code.
fn writes(rt: &HostRuntime, nmt: u8, index: u16, sub: u8, size: u8, d: u32) -> io::Result<()> {
    let indicated = (size != 0).then_some(size);
    let code = code_of(checked_write(find(index, sub), indicated, d, node_in(nmt)));
    println!(rt; "write {nmt} {index:04x} {sub} {size} {d:08x} {code:08x}")
}

// Whether anything is saved in a store: the sizes of its records N, C and A.
fn saved(rt: &HostRuntime, store: &[u8; 64]) -> io::Result<()> {
    let s = saved_sizes(store);
    let n = s.n;
    let c = s.c;
    let a = s.a;
    println!(rt; "saved {n} {c} {a}")
}

// The bytes of a store.
fn bytes(rt: &HostRuntime, store: &[u8; 64]) -> io::Result<()> {
    for b in store {
        print!(rt; "{b:02x}")?;
    }
    println!(rt)
}

// ---- All of them

fn writes_of_values(rt: &HostRuntime) -> io::Result<()> {
    writes(rt, 127, 0x1800, 3, 1, 0x00000000)?;
    writes(rt, 127, 0x6132, 1, 4, 0x00000002)?;
    writes(rt, 127, 0x6132, 1, 1, 0x00000002)?;
    writes(rt, 127, 0x6132, 1, 1, 0x00000005)?;
    writes(rt, 127, 0x6132, 1, 0, 0xffffff04)?;
    writes(rt, 127, 0x1301, 1, 1, 0x00000002)?;
    writes(rt, 127, 0x1301, 2, 2, 0x00000000)?;
    writes(rt, 127, 0x1301, 2, 1, 0x00000005)?;
    writes(rt, 127, 0x1301, 3, 1, 0x00000000)?;
    writes(rt, 127, 0x1301, 4, 1, 0x000000fe)?;
    writes(rt, 127, 0x1301, 5, 4, 0x00000101)?;
    writes(rt, 127, 0x1301, 5, 4, 0x00000102)?;
    writes(rt, 127, 0x1301, 5, 4, 0x00000181)?;
    writes(rt, 127, 0x1301, 6, 4, 0x00000180)?;
    writes(rt, 127, 0x1301, 6, 4, 0x0000017f)?;
    writes(rt, 127, 0x1301, 7, 1, 0x00000000)?;
    writes(rt, 127, 0x1301, 0, 1, 0x00000006)?;
    writes(rt, 127, 0x1800, 2, 1, 0x000000f1)?;
    writes(rt, 127, 0x1800, 2, 1, 0x000000f0)?;
    writes(rt, 127, 0x1800, 2, 2, 0x000000fa)?;
    writes(rt, 127, 0x1800, 5, 2, 0x0000ffff)
}

fn writes_of_words(rt: &HostRuntime) -> io::Result<()> {
    writes(rt, 127, 0x6121, 1, 4, 0x49742400)?;
    writes(rt, 127, 0x6121, 1, 4, 0x49742401)?;
    writes(rt, 127, 0x6121, 1, 4, 0xc9742401)?;
    writes(rt, 127, 0x6121, 1, 4, 0x7f800000)?;
    writes(rt, 127, 0x6121, 1, 4, 0x7fc00001)?;
    writes(rt, 127, 0x6121, 1, 3, 0x00000000)?;
    writes(rt, 127, 0x51fe, 0, 1, 0x000000a5)?;
    writes(rt, 127, 0x51fe, 0, 1, 0x000000a4)?;
    writes(rt, 127, 0x13fe, 0, 1, 0x000000a5)?;
    writes(rt, 127, 0x51ff, 1, 2, 0x0000ea44)?;
    writes(rt, 127, 0x1010, 1, 4, 0x65766173)?;
    writes(rt, 127, 0x1010, 1, 4, 0x64616f6c)?;
    writes(rt, 127, 0x1011, 3, 4, 0x64616f6c)?;
    writes(rt, 127, 0x1010, 4, 4, 0x65766173)?;
    writes(rt, 127, 0x1011, 0, 1, 0x00000003)?;
    writes(rt, 127, 0x1008, 0, 4, 0x00000000)?;
    writes(rt, 127, 0x1000, 0, 1, 0x00000000)?;
    writes(rt, 127, 0x2000, 0, 1, 0x00000000)?;
    writes(rt, 127, 0x1017, 0, 2, 0x000003e8)?;
    writes(rt, 127, 0x1017, 1, 2, 0x000003e8)?;
    writes(rt, 127, 0x2330, 0, 1, 0x00000002)
}

fn writes_in_operational(rt: &HostRuntime) -> io::Result<()> {
    writes(rt, 5, 0x6132, 1, 1, 0x00000005)?;
    writes(rt, 5, 0x6132, 1, 4, 0x00000002)?;
    writes(rt, 5, 0x1000, 0, 4, 0x00000000)?;
    writes(rt, 5, 0x1800, 3, 1, 0x00000000)?;
    writes(rt, 5, 0x1017, 0, 2, 0x00000005)?;
    writes(rt, 5, 0x1800, 2, 2, 0x000000fa)?;
    writes(rt, 5, 0x1010, 1, 2, 0x00000001)?;
    writes(rt, 5, 0x51fe, 0, 1, 0x000000a5)
}

fn main(rt: HostRuntime) -> io::Result<()> {
    cobs(&rt, 1)?;
    cobs(&rt, 64)?;
    cobs(&rt, 65)?;
    writes_of_values(&rt)?;
    writes_of_words(&rt)?;
    writes_in_operational(&rt)?;
    let mut store = [0u8; 64];
    saved(&rt, &store)?;
    save(Groups::Both, 1, defaults(1), &mut store);
    saved(&rt, &store)?;
    bytes(&rt, &store)
}

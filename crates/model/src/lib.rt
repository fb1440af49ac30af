// The types of document 01: plain data, and how a value is made of plainer ones. What each value means is said in specs/.
// The structs that a state is made of hold numbers, floats and bools alone, laid out as C has them, so that firmware keeps a state by value.
#![tactic(auto)]

ghost use Rattle.std.specs.Prelude.{◌≡◌};
ghost use Rattle.model.specs.Frames.{framed};
ghost use Rattle.model.specs.Time.{transmission};

// ---- Readings

// FV, the converted count, not yet scaled (7100h).
#[repr(C)]
#[derive(Clone, Copy)]
pub struct Fv(pub u16);

// PV, in the physical unit (6130h).
#[repr(C)]
#[derive(Clone, Copy)]
pub struct Pv(pub f32);

// The two scaling points and the offset, which travel together: 6121h, 6123h, 6124h.
#[repr(C)]
#[derive(Clone, Copy)]
pub struct Scaling {
    pub low: f32,
    pub high: f32,
    pub offset: f32,
}

// The integer PV (9130h): the 32 bits of an Integer32, and whether the reading is capped. They count also where it is, so the two are no Option.
#[repr(C)]
#[derive(Clone, Copy)]
pub struct Integer {
    pub bits: u32,
    pub capped: bool,
}

// ---- Dictionary

// An entry's value, which travels with its type.
#[derive(Clone, Copy)]
pub enum Value {
    U8(u8),
    U16(u16),
    U32(u32),
    Integer32(i32),
    Real32(f32),
}

// The type alone.
#[derive(Clone, Copy)]
pub enum Kind {
    U8,
    U16,
    U32,
    Integer32,
    Real32,
}

// The saved parameters, by index, and by sub where the object is a record: P1301s5 is 1301h:5.
#[derive(Clone, Copy)]
pub enum Parameter {
    P1017,
    P1301s1,
    P1301s2,
    P1301s3,
    P1301s5,
    P1301s6,
    P1800s2,
    P1800s5,
    P13FE,
    P13FF,
    P2330,
    P6121,
    P6123,
    P6124,
    P6132,
    P51FE,
    P51FF,
}

// The group that a saved parameter is saved with: communication or application.
#[derive(Clone, Copy)]
pub enum Group {
    C,
    A,
}

// The groups that a sub of 1010h or 1011h names, or that a reset loads.
#[derive(Clone, Copy)]
pub enum Groups {
    Both,
    OnlyC,
    OnlyA,
}

// How a value stands to its range: in it, outside its set (or not finite), above or below. No Result: where a value stands
// is asked, not whether it is refused.
#[derive(Clone, Copy)]
pub enum Verdict {
    Inside,
    Outside,
    Above,
    Below,
}

// A read-only value that is made from the state.
#[derive(Clone, Copy)]
pub enum Live {
    ErrorRegister,
    EmcyId,
    Vendor,
    Product,
    Revision,
    Serial,
    SdoRequestId,
    SdoReplyId,
    TpdoId,
    PvBits,
    PvInverse,
    PvReal,
    FvCount,
    PvInteger,
}

// What stands at an index and sub.
#[derive(Clone, Copy)]
pub enum Entry {
    Fixed(Value),
    Name,
    Shown(Live),
    Setting(Parameter),
    SaveWord(Groups),
    LoadWord(Groups),
}

// Why nothing stands at an index and sub.
#[derive(Clone, Copy, Debug, PartialEq, Eq)]
pub enum Missing {
    NoObject,
    NoSub,
}

// What an entry reads as: the name, which is a string, or a value. An Option<Value> would say that the name is nothing to read.
#[derive(Clone, Copy)]
pub enum Content {
    Text,
    Plain(Value),
}

// ---- What an event asks, by its bytes alone

// An SDO request. A download has a size where one is indicated; its data are the four bytes, low first. A toggle stays a byte: `serve`
// answers every one, and C's `Upload` has one beside it.
#[derive(Clone, Copy)]
pub enum SdoRequest {
    Download {
        index: u16,
        sub: u8,
        size: Option<u8>,
        data: u32,
    },
    Upload {
        index: u16,
        sub: u8,
    },
    UploadSegment {
        toggle: u8,
    },
    ClientAbort,
    DownloadSegment,
    Unknown {
        index: u16,
        sub: u8,
    },
}

// An LSS frame. Parts of the identity count from 0. Part and mode stay bytes: `lss_served` and `pending_after` answer every one.
#[derive(Clone, Copy)]
pub enum LssRequest {
    SwitchMode(u8),
    Select { part: u8, number: u32 },
    SetNodeId(u8),
    SetBitIndex { table: u8, bit: u8 },
    StorePending,
    AskIdentity(u8),
    AskNodeId,
    OtherLss,
}

// A service and what is asked of it. `to` is the Node-ID that the CAN-ID or the NMT frame names. An NMT command stays a byte here: `commanded` says what
// every byte does. An event that asks nothing is a service of its own, as the document lists it.
#[derive(Clone, Copy)]
pub enum Service {
    Nothing,
    Tick,
    Sample(Fv),
    Nmt { command: u8, to: u8 },
    Sync,
    Remote { to: u8 },
    Sdo { to: u8, request: SdoRequest },
    Lss(LssRequest),
}

// ---- What an event does to the saved parameters and to the store: nothing else touches them

// `Keep` is a case like the others: an Option around the rest would be opened at each use.
#[derive(Clone, Copy)]
pub enum Change {
    Keep,
    Write(Parameter, Value),
    Save(Groups),
    TakeOut(Groups),
    Load(Groups, u8),
    SavePending,
}

// ---- Time

// The timers whose periods are saved parameters.
#[derive(Clone, Copy)]
pub enum Timer {
    Heartbeat,
    Tpdo,
    Srdo,
}

// What a transmission type (1800h:2) sends at.
#[derive(Clone, Copy, PartialEq, Eq)]
pub enum Transmission {
    OnSample,
    OnSyncs,
    OnRemote,
    Timed,
    Never,
}

impl From<u8> for Transmission {
    ghost from_gives = { λ kind t. t ≡ transmission kind };

    #[tactic(auto, unfolding(crate::specs::Time::transmission, crate::specs::Choice::first_hit))]
    fn from(kind: u8) -> Self {
        match kind {
            0 => Transmission::OnSample,
            1..=240 => Transmission::OnSyncs,
            252 | 253 => Transmission::OnRemote,
            254 | 255 => Transmission::Timed,
            _ => Transmission::Never,
        }
    }
}

// ---- Frames

// A data frame that the node sends: CAN-ID, length, data (zero past the length). The data are eight fields and no array, so that a frame of the
// definitions has eight bytes too: an array is a list there, of any length.
#[repr(C)]
#[derive(Clone, Copy)]
pub struct Frame {
    pub id: u16,
    pub len: u8,
    pub d0: u8,
    pub d1: u8,
    pub d2: u8,
    pub d3: u8,
    pub d4: u8,
    pub d5: u8,
    pub d6: u8,
    pub d7: u8,
}

impl Frame {
    // The frame of an ID, a length and eight bytes of data.
    pub fn new(id: u16, len: u8, bytes: [u8; 8]) -> Frame
        ensures { result ≡ framed id len bytes }
    {
        let [d0, d1, d2, d3, d4, d5, d6, d7] = bytes;
        Frame {
            id,
            len,
            d0,
            d1,
            d2,
            d3,
            d4,
            d5,
            d6,
            d7,
        }
    }
}

// ---- The state: identity, the saved parameters in force, and all the rest

// 1018h:1..4.
#[repr(C)]
#[derive(Clone, Copy)]
pub struct Identity {
    pub vendor: u32,
    pub product: u32,
    pub revision: u32,
    pub serial: u32,
}

// 1301h:1, 2, 3, 5, 6.
#[repr(C)]
#[derive(Clone, Copy)]
pub struct SrdoSettings {
    pub direction: u8,
    pub refresh: u16,
    pub validation: u8,
    pub first: u32,
    pub second: u32,
}

// 1800h:2, 5.
#[repr(C)]
#[derive(Clone, Copy)]
pub struct TpdoSettings {
    pub kind: u8,
    pub period: u16,
}

// Group C: 1017h, 1301h, 1800h, 13FEh, 13FFh.
#[repr(C)]
#[derive(Clone, Copy)]
pub struct Communication {
    pub heartbeat: u16,
    pub srdo: SrdoSettings,
    pub tpdo: TpdoSettings,
    pub valid: u8,
    pub signature: u16,
}

// Group A: 2330h, 6121h to 6124h, 6132h, 51FEh, 51FFh.
#[repr(C)]
#[derive(Clone, Copy)]
pub struct Application {
    pub autostart: u8,
    pub scaling: Scaling,
    pub digits: u8,
    pub valid: u8,
    pub signature: u16,
}

// The seventeen saved parameters in force.
#[repr(C)]
#[derive(Clone, Copy)]
pub struct Settings {
    pub communication: Communication,
    pub application: Application,
}

// Node-ID and bit index, as the N record has them.
#[repr(C)]
#[derive(Clone, Copy)]
pub struct Address {
    pub id: u8,
    pub bit: u8,
}

// The clock, and where each timer started.
#[repr(C)]
#[derive(Clone, Copy)]
pub struct Timers {
    pub clock: u16,
    pub heartbeat: u16,
    pub tpdo: u16,
    pub srdo: u16,
}

// What the TPDO remembers: SYNCs counted, and whether a sample came since the last TPDO.
#[repr(C)]
#[derive(Clone, Copy)]
pub struct Sending {
    pub syncs: u8,
    pub sample: bool,
}

// LSS: whether in configuration, and how many of 40h..43h have matched.
#[repr(C)]
#[derive(Clone, Copy)]
pub struct Selection {
    pub configuration: bool,
    pub progress: u8,
}

// The upload of 1008h: whether one is open, at which byte, with which toggle. C has it so, and the byte and the toggle of a closed one are free.
#[repr(C)]
#[derive(Clone, Copy)]
pub struct Upload {
    pub busy: bool,
    pub at: u8,
    pub toggle: u8,
}

// The NMT states, as a heartbeat tells them. They are numbers and no enum: C has a byte there, and a caller's may be none of these, which the
// state rules refuse.
pub const STOPPED: u8 = 4;

pub const OPERATIONAL: u8 = 5;

pub const PRE_OPERATIONAL: u8 = 127;

// A validity byte that vouches.
pub const VALID: u8 = 0xa5;

// LSS in waiting, with nothing matched yet.
pub const NO_SELECTION: Selection = Selection {
    configuration: false,
    progress: 0,
};

// No upload is open.
pub const NO_UPLOAD: Upload = Upload {
    busy: false,
    at: 0,
    toggle: 0,
};

// All of the state that no save keeps.
#[repr(C)]
#[derive(Clone, Copy)]
pub struct Core {
    pub active: Address,
    pub pending: Address,
    pub nmt: u8,
    pub reported: bool,
    pub fv: Fv,
    pub timers: Timers,
    pub tpdo: Sending,
    pub lss: Selection,
    pub upload: Upload,
}

#[repr(C)]
#[derive(Clone, Copy)]
pub struct State {
    pub identity: Identity,
    pub settings: Settings,
    pub core: Core,
}

// ---- The answer of a call. Its number is a byte, as C's struct has it: 0, or a refusal's

#[repr(C)]
#[derive(Clone, Copy)]
pub struct Answer {
    pub number: u8,
    pub count: u8,
    pub state: State,
}

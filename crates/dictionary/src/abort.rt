// The abort codes.
ghost use Rattle.std.specs.Prelude.{◌≡◌, Err};
ghost use Rattle.model.specs.Sdo.{found_code};
ghost use Rattle.dictionary.specs.Codes.{code_of};

use model::Missing;

// Why a request is aborted, with the number that tells the client so.
#[derive(Clone, Copy, Debug, PartialEq, Eq)]
pub enum AbortCode {
    WrongToggle = 0x05030000,
    UnknownCommand = 0x05040001,
    NoObject = 0x06020000,
    NoSub = 0x06090011,
    ReadOnly = 0x06010002,
    Locked = 0x08000022,
    TooLong = 0x06070012,
    TooShort = 0x06070013,
    InvalidValue = 0x06090030,
    TooHigh = 0x06090031,
    TooLow = 0x06090032,
    WrongWord = 0x08000020,
    NotValid = 0x06040043,
}

impl From<AbortCode> for u32 {
    ghost from_gives = { λ c n. n ≡ code_of c };

    fn from(code: AbortCode) -> u32 {
        code as u32
    }
}

// A read and a write of what is not there are refused alike.
impl From<Missing> for AbortCode {
    ghost from_gives = { λ m c. code_of c ≡ found_code (Err m) };

    fn from(missing: Missing) -> AbortCode {
        match missing {
            Missing::NoObject => AbortCode::NoObject,
            Missing::NoSub => AbortCode::NoSub,
        }
    }
}

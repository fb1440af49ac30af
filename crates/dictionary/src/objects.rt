// Every object and sub: the read-only constants, what is made from the state, the saved parameters, and 1010h and 1011h.
#![tactic(auto, unfolding(model::specs::Dictionary::find))]

ghost use Rattle.std.specs.Prelude.{◌≡◌};
ghost use Rattle.model.specs.declared.Entry.{Entry};
ghost use Rattle.model.specs.declared.Entry.TheVariants.{Fixed};
ghost use Rattle.model.specs.declared.Groups.{Groups};
ghost use Rattle.model.specs.declared.Value.TheVariants.{U8};
ghost use Rattle.model.specs.Dictionary as Table;
ghost use Rattle.dictionary.specs.Words.{words_of};

use model::{Entry, Groups, Live, Missing, Parameter, Value};

// ---- The forms of an object

// A plain object: its one entry is at sub 0.
fn single(sub: u8, e: Entry) -> Result<Entry, Missing>
    ensures { result ≡ Table.entry_in sub (Table.single e) }
{
    match sub {
        0 => Ok(e),
        _ => Err(Missing::NoSub),
    }
}

// Sub 0 of a record: its highest sub.
fn highest(n: u8) -> Result<Entry, Missing>
    ensures { result ≡ Ok (Fixed (U8 n)) }
{
    Ok(Entry::Fixed(Value::U8(n)))
}

// A record of one entry.
fn one(sub: u8, e: Entry) -> Result<Entry, Missing>
    ensures { result ≡ Table.entry_in sub (Table.one e) }
{
    match sub {
        0 => highest(1),
        1 => Ok(e),
        _ => Err(Missing::NoSub),
    }
}

// ---- The records of several entries: alike in form, but each line is a row of the document's table

// 1010h and 1011h: a sub for both groups, then one for each. What a write of the word does to them, the caller says.
fn words<F: Fn(Groups) -> Entry>(sub: u8, word: F) -> Result<Entry, Missing>
    requires { F.IsAlwaysCallable word }
    ensures { (w : Groups → Entry) → ((gs : Groups) (e : Entry) → F.post word gs e → e ≡ w gs) → result ≡ Table.entry_in sub (words_of w) }
{
    match sub {
        0 => highest(3),
        1 => Ok(word(Groups::Both)),
        2 => Ok(word(Groups::OnlyC)),
        3 => Ok(word(Groups::OnlyA)),
        _ => Err(Missing::NoSub),
    }
}

// 1018h, the identity.
fn identity(sub: u8) -> Result<Entry, Missing>
    ensures { result ≡ Table.find 0x1018 sub }
{
    match sub {
        0 => highest(4),
        1 => Ok(Entry::Shown(Live::Vendor)),
        2 => Ok(Entry::Shown(Live::Product)),
        3 => Ok(Entry::Shown(Live::Revision)),
        4 => Ok(Entry::Shown(Live::Serial)),
        _ => Err(Missing::NoSub),
    }
}

// 1200h, the CAN-IDs of the SDO server.
fn sdo_ids(sub: u8) -> Result<Entry, Missing>
    ensures { result ≡ Table.find 0x1200 sub }
{
    match sub {
        0 => highest(2),
        1 => Ok(Entry::Shown(Live::SdoRequestId)),
        2 => Ok(Entry::Shown(Live::SdoReplyId)),
        _ => Err(Missing::NoSub),
    }
}

// 1301h, the SRDO.
fn srdo(sub: u8) -> Result<Entry, Missing>
    ensures { result ≡ Table.find 0x1301 sub }
{
    match sub {
        0 => highest(6),
        1 => Ok(Entry::Setting(Parameter::P1301s1)),
        2 => Ok(Entry::Setting(Parameter::P1301s2)),
        3 => Ok(Entry::Setting(Parameter::P1301s3)),
        4 => Ok(Entry::Fixed(Value::U8(254))),
        5 => Ok(Entry::Setting(Parameter::P1301s5)),
        6 => Ok(Entry::Setting(Parameter::P1301s6)),
        _ => Err(Missing::NoSub),
    }
}

// 1381h, what the SRDO sends.
fn srdo_mappings(sub: u8) -> Result<Entry, Missing>
    ensures { result ≡ Table.find 0x1381 sub }
{
    match sub {
        0 => highest(2),
        1 => Ok(Entry::Fixed(Value::U32(0x50300120))),
        2 => Ok(Entry::Fixed(Value::U32(0x50300220))),
        _ => Err(Missing::NoSub),
    }
}

// 1800h, the TPDO.
fn tpdo(sub: u8) -> Result<Entry, Missing>
    ensures { result ≡ Table.find 0x1800 sub }
{
    match sub {
        0 => highest(5),
        1 => Ok(Entry::Shown(Live::TpdoId)),
        2 => Ok(Entry::Setting(Parameter::P1800s2)),
        5 => Ok(Entry::Setting(Parameter::P1800s5)),
        _ => Err(Missing::NoSub),
    }
}

// 5030h, the bits of PV and their inverse.
fn pv_bits(sub: u8) -> Result<Entry, Missing>
    ensures { result ≡ Table.find 0x5030 sub }
{
    match sub {
        0 => highest(2),
        1 => Ok(Entry::Shown(Live::PvBits)),
        2 => Ok(Entry::Shown(Live::PvInverse)),
        _ => Err(Missing::NoSub),
    }
}

// ---- Looking up

// What stands at an index and sub.
pub fn find(index: u16, sub: u8) -> Result<Entry, Missing>
    ensures { result ≡ Table.find index sub }
{
    match index {
        0x1000 => single(sub, Entry::Fixed(Value::U32(0x00020194))),
        0x1001 => single(sub, Entry::Shown(Live::ErrorRegister)),
        0x1005 => single(sub, Entry::Fixed(Value::U32(0x80))),
        0x1008 => single(sub, Entry::Name),
        0x1010 => words(sub, Entry::SaveWord),
        0x1011 => words(sub, Entry::LoadWord),
        0x1014 => single(sub, Entry::Shown(Live::EmcyId)),
        0x1017 => single(sub, Entry::Setting(Parameter::P1017)),
        0x1018 => identity(sub),
        0x1200 => sdo_ids(sub),
        0x1301 => srdo(sub),
        0x1381 => srdo_mappings(sub),
        0x13fe => single(sub, Entry::Setting(Parameter::P13FE)),
        0x13ff => one(sub, Entry::Setting(Parameter::P13FF)),
        0x1800 => tpdo(sub),
        0x1a00 => one(sub, Entry::Fixed(Value::U32(0x91300120))),
        0x2330 => single(sub, Entry::Setting(Parameter::P2330)),
        0x5030 => pv_bits(sub),
        0x51fe => single(sub, Entry::Setting(Parameter::P51FE)),
        0x51ff => one(sub, Entry::Setting(Parameter::P51FF)),
        0x6121 => one(sub, Entry::Setting(Parameter::P6121)),
        0x6123 => one(sub, Entry::Setting(Parameter::P6123)),
        0x6124 => one(sub, Entry::Setting(Parameter::P6124)),
        0x6130 => one(sub, Entry::Shown(Live::PvReal)),
        0x6131 => one(sub, Entry::Fixed(Value::U32(0x004e0000))),
        0x6132 => one(sub, Entry::Setting(Parameter::P6132)),
        0x7100 => one(sub, Entry::Shown(Live::FvCount)),
        0x7120 => one(sub, Entry::Fixed(Value::U16(4000))),
        0x7122 => one(sub, Entry::Fixed(Value::U16(20000))),
        0x9130 => one(sub, Entry::Shown(Live::PvInteger)),
        _ => Err(Missing::NoObject),
    }
}

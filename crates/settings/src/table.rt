// The table of the saved parameters: each row's star, type, range, default and group, and the value in force.
ghost use Rattle.std.specs.Prelude.{◌≡◌, cond};
ghost use Rattle.model.specs.declared.Verdict.TheVariants.{Inside, Outside};
ghost use Rattle.model.specs.Settings as Table;
ghost use Rattle.model.specs.Store.{default_for};

use super::values::{float_of, number_of};
use model::{
    Application, Communication, Kind, Parameter, Scaling, Settings, SrdoSettings, TpdoSettings,
    Value, Verdict,
};
use reading::judge_real;

// ---- The columns

// Whether a parameter has the star *: it is not written while Operational.
pub fn star(p: Parameter) -> bool
    ensures { result ≡ (Table.row p).star }
{
    !matches!(
        p,
        Parameter::P1017 | Parameter::P1800s2 | Parameter::P1800s5 | Parameter::P2330
    )
}

// The type.
pub fn kind(p: Parameter) -> Kind
    ensures { result ≡ (Table.row p).kind }
{
    match p {
        Parameter::P1017
        | Parameter::P1301s2
        | Parameter::P1800s5
        | Parameter::P13FF
        | Parameter::P51FF => Kind::U16,
        Parameter::P1301s5 | Parameter::P1301s6 => Kind::U32,
        Parameter::P6121 | Parameter::P6123 | Parameter::P6124 => Kind::Real32,
        _ => Kind::U8,
    }
}

// ---- Ranges

// A value that is to lie from lo to hi.
#[tactic(auto, unfolding(model::specs::Settings::judge))]
fn judge_between(lo: u32, hi: u32, v: Value) -> Verdict
    ensures { result ≡ Table.judge (Table.between lo hi) v }
{
    let n = number_of(v);
    if n > hi {
        Verdict::Above
    } else if n < lo {
        Verdict::Below
    } else {
        Verdict::Inside
    }
}

// A value that is to be one of a set, by whether it is.
fn judge_member(member: bool) -> Verdict
    ensures { result ≡ cond member Inside Outside }
{
    if member {
        Verdict::Inside
    } else {
        Verdict::Outside
    }
}

// Whether a number is a COB-ID that 1301h:5 may have.
pub fn is_first_cob(n: u32) -> bool
    ensures { result ≡ Table.odd_cob n }
{
    matches!(n, 0x101..=0x17f if n % 2 == 1)
}

// Whether it is one that 1301h:6 may have: the one after a first.
pub fn is_second_cob(n: u32) -> bool
    ensures { result ≡ Table.even_cob n }
{
    0 < n && is_first_cob(n - 1)
}

// Whether it is a transmission type.
pub fn is_type(n: u32) -> bool
    ensures { result ≡ Table.tpdo_type n }
{
    matches!(n, 0..=240 | 252..=255)
}

// How a value stands to the range of a parameter.
#[tactic(auto, unfolding(model::specs::Settings::judge))]
pub fn judge(p: Parameter, v: Value) -> Verdict
    ensures { result ≡ Table.judge (Table.row p).range v }
{
    let n = number_of(v);
    match p {
        Parameter::P1301s1 | Parameter::P2330 => judge_between(0, 1, v),
        Parameter::P1301s2 => judge_between(1, 65535, v),
        Parameter::P1301s3 => judge_between(1, 255, v),
        Parameter::P1301s5 => judge_member(is_first_cob(n)),
        Parameter::P1301s6 => judge_member(is_second_cob(n)),
        Parameter::P1800s2 => judge_member(is_type(n)),
        Parameter::P6121 | Parameter::P6123 | Parameter::P6124 => judge_real(float_of(v)),
        Parameter::P6132 => judge_between(0, 4, v),
        _ => Verdict::Inside,
    }
}

// ---- Defaults

// The default of 1301h:5 for a Node-ID, the same for all above 64.
#[tactic(auto, unfolding(model::specs::Settings::first_cob))]
pub fn first_cob(id: u8) -> u32
    ensures { result ≡ Table.first_cob id }
{
    0xff + 2 * u32::from(id.min(64))
}

// The default of 1301h:6, the one after it.
#[tactic(auto, unfolding(model::specs::Settings::first_cob, model::specs::Settings::second_cob))]
pub fn second_cob(id: u8) -> u32
    ensures { result ≡ Table.second_cob id }
{
    first_cob(id) + 1
}

// All parameters at their defaults for a Node-ID, as they leave the factory.
pub fn defaults(id: u8) -> Settings
    ensures { result ≡ Table.made (default_for id) }
{
    Settings {
        communication: Communication {
            heartbeat: 0,
            srdo: SrdoSettings {
                direction: 1,
                refresh: 25,
                validation: 20,
                first: first_cob(id),
                second: second_cob(id),
            },
            tpdo: TpdoSettings {
                kind: 254,
                period: 100,
            },
            valid: 0,
            signature: 0,
        },
        application: Application {
            autostart: 0,
            scaling: Scaling {
                low: 0.0,
                high: 160.0,
                offset: 0.0,
            },
            digits: 2,
            valid: 0,
            signature: 0,
        },
    }
}

// ---- The values in force

// The value of a parameter in force.
pub fn value_of(k: Settings, p: Parameter) -> Value
    ensures { result ≡ Table.in_force k p }
{
    match p {
        Parameter::P1017 => Value::U16(k.communication.heartbeat),
        Parameter::P1301s1 => Value::U8(k.communication.srdo.direction),
        Parameter::P1301s2 => Value::U16(k.communication.srdo.refresh),
        Parameter::P1301s3 => Value::U8(k.communication.srdo.validation),
        Parameter::P1301s5 => Value::U32(k.communication.srdo.first),
        Parameter::P1301s6 => Value::U32(k.communication.srdo.second),
        Parameter::P1800s2 => Value::U8(k.communication.tpdo.kind),
        Parameter::P1800s5 => Value::U16(k.communication.tpdo.period),
        Parameter::P13FE => Value::U8(k.communication.valid),
        Parameter::P13FF => Value::U16(k.communication.signature),
        Parameter::P2330 => Value::U8(k.application.autostart),
        Parameter::P6121 => Value::Real32(k.application.scaling.low),
        Parameter::P6123 => Value::Real32(k.application.scaling.high),
        Parameter::P6124 => Value::Real32(k.application.scaling.offset),
        Parameter::P6132 => Value::U8(k.application.digits),
        Parameter::P51FE => Value::U8(k.application.valid),
        Parameter::P51FF => Value::U16(k.application.signature),
    }
}

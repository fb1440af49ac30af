// What a write does to the saved parameters in force, and what a load word does: the parameter, and the forced changes of validity bytes.
ghost use Rattle.std.specs.Prelude.{◌≡◌};
ghost use Rattle.model.specs.declared.Parameter.TheVariants.{P13FE, P51FE};
ghost use Rattle.model.specs.declared.Change.TheVariants.{Write, TakeOut};
ghost use Rattle.model.specs.Values.{kind_of};
ghost use Rattle.model.specs.Settings.{row};
ghost use Rattle.model.specs.Validity.{revokes};
ghost use Rattle.model.specs.Store.{nothing};
ghost use Rattle.model.specs.Changes.{applied};
ghost use Rattle.settings.specs.Put as Put;

use super::table::value_of;
use super::values::number_of;
use model::{Groups, Parameter, Settings, Value};

// One parameter set to a value of its type. None is an Integer32.
#[tactic(auto, unfolding(crate::specs::Put::put))]
fn put(k: &mut Settings, p: Parameter, v: Value)
    requires { kind_of v ≡ (row p).kind }
    ensures { k.new ≡ Put.put p v k.old }
{
    match (p, v) {
        (Parameter::P1017, Value::U16(n)) => k.communication.heartbeat = n,
        (Parameter::P1301s1, Value::U8(n)) => k.communication.srdo.direction = n,
        (Parameter::P1301s2, Value::U16(n)) => k.communication.srdo.refresh = n,
        (Parameter::P1301s3, Value::U8(n)) => k.communication.srdo.validation = n,
        (Parameter::P1301s5, Value::U32(n)) => k.communication.srdo.first = n,
        (Parameter::P1301s6, Value::U32(n)) => k.communication.srdo.second = n,
        (Parameter::P1800s2, Value::U8(n)) => k.communication.tpdo.kind = n,
        (Parameter::P1800s5, Value::U16(n)) => k.communication.tpdo.period = n,
        (Parameter::P13FE, Value::U8(n)) => k.communication.valid = n,
        (Parameter::P13FF, Value::U16(n)) => k.communication.signature = n,
        (Parameter::P2330, Value::U8(n)) => k.application.autostart = n,
        (Parameter::P6121, Value::Real32(x)) => k.application.scaling.low = x,
        (Parameter::P6123, Value::Real32(x)) => k.application.scaling.high = x,
        (Parameter::P6124, Value::Real32(x)) => k.application.scaling.offset = x,
        (Parameter::P6132, Value::U8(n)) => k.application.digits = n,
        (Parameter::P51FE, Value::U8(n)) => k.application.valid = n,
        (Parameter::P51FF, Value::U16(n)) => k.application.signature = n,
        _ => unreachable!(),
    }
}

// What a change of a parameter forces: 0 in the validity byte of the group whose signature covers the parameter, or is it.
#[tactic(auto, unfolding(crate::specs::Put::revoke, model::specs::Validity::revokes))]
fn revoke(k: &mut Settings, p: Parameter)
    ensures { k.new ≡ Put.revoke (revokes p P13FE) (revokes p P51FE) k.old }
{
    match p {
        Parameter::P1301s1
        | Parameter::P1301s2
        | Parameter::P1301s3
        | Parameter::P1301s5
        | Parameter::P1301s6
        | Parameter::P13FF => k.communication.valid = 0,
        Parameter::P6121
        | Parameter::P6123
        | Parameter::P6124
        | Parameter::P6132
        | Parameter::P51FF => k.application.valid = 0,
        _ => {}
    }
}

// The settings after a write. What counts as a change is told by the bytes: -0.0 over 0.0 is one, a value over itself is none.
#[tactic(auto, using(crate::proofs::Changed::changed, crate::proofs::Changed::unchanged))]
pub fn write(k: Settings, p: Parameter, v: Value) -> Settings
    requires { kind_of v ≡ (row p).kind }
    ensures { result ≡ applied (Write p v) k nothing }
{
    let mut t = k;
    put(&mut t, p, v);
    if number_of(v) != number_of(value_of(k, p)) {
        revoke(&mut t, p);
    }
    t
}

// The settings after a load word: it sets the validity bytes of its groups to 0, and the other values stay.
#[tactic(auto, unfolding(model::specs::Changes::applied, model::specs::Changes::effect))]
pub fn take_out(k: Settings, gs: Groups) -> Settings
    ensures { result ≡ applied (TakeOut gs) k nothing }
{
    let mut t = k;
    match gs {
        Groups::Both => {
            t.communication.valid = 0;
            t.application.valid = 0;
        }
        Groups::OnlyC => t.communication.valid = 0,
        Groups::OnlyA => t.application.valid = 0,
    }
    t
}

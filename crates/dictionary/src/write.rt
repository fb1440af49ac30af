// The checks of a write, in the order of the document: the first that is broken gives its abort code.
ghost use Rattle.std.specs.Prelude.{◌≡◌, true, not, [], ◌∷◌, ◌++◌, Ok};
ghost use Rattle.model.specs.declared.Kind.TheVariants as Kinds;
ghost use Rattle.model.specs.declared.Entry.TheVariants.{Setting};
ghost use Rattle.model.specs.Choice.{◌⇒◌};
ghost use Rattle.model.specs.Settings.{is_inside};
ghost use Rattle.model.specs.Sdo as Sdo;
ghost use Rattle.dictionary.specs.Codes.{coded, answered, Tells};

use super::abort::AbortCode;
use model::{Change, Entry, Kind, Missing, OPERATIONAL, Parameter, State, VALID, Value, Verdict};
use settings::table::{judge, kind, star};
use settings::values::{decode, number_of, width_of};
use validity::Parameters;

// The words that 1010h and 1011h take.
const SAVE_WORD: u32 = 0x65766173;

const LOAD_WORD: u32 = 0x64616f6c;

// ---- Access: the star * and the length

// A starred entry (*) is locked while Operational; then the length counts. Where no size is indicated, it is the entry's own.
#[tactic(auto, unfolding(model::specs::Choice::first_hit, model::specs::Sdo::size_for))]
fn access(star: bool, k: Kind, size: Option<u8>, s: State) -> Result<(), AbortCode>
    ensures { Tells (Sdo.access_checks star k size s) result }
{
    let w = width_of(k);
    let n = size.unwrap_or(w);
    if star && s.core.nmt == OPERATIONAL {
        return Err(AbortCode::Locked);
    }
    if w < n {
        return Err(AbortCode::TooLong);
    }
    if n < w {
        return Err(AbortCode::TooShort);
    }
    Ok(())
}

// ---- The value

// How a value stands to its range.
#[tactic(auto, unfolding(model::specs::Choice::first_hit))]
fn in_range(verdict: Verdict) -> Result<(), AbortCode>
    ensures { Tells ((not (is_inside verdict) ⇒ Sdo.range_code verdict) ∷ []) result }
{
    match verdict {
        Verdict::Inside => Ok(()),
        Verdict::Outside => Err(AbortCode::InvalidValue),
        Verdict::Above => Err(AbortCode::TooHigh),
        Verdict::Below => Err(AbortCode::TooLow),
    }
}

// A5h for a validity byte that could not vouch: by the values in force its group is not valid.
#[tactic(auto, unfolding(model::specs::Sdo::unearned))]
fn unearned(p: Parameter, v: Value, s: State) -> bool
    ensures { result ≡ Sdo.unearned p v s }
{
    let n = number_of(v);
    match p {
        Parameter::P13FE => n == u32::from(VALID) && !s.settings.communication.is_valid(),
        Parameter::P51FE => n == u32::from(VALID) && !s.settings.application.is_valid(),
        _ => false,
    }
}

// Such an A5h is refused.
#[tactic(auto, unfolding(model::specs::Choice::first_hit))]
fn earned(p: Parameter, v: Value, s: State) -> Result<(), AbortCode>
    ensures { Tells ((Sdo.unearned p v s ⇒ Sdo.not_valid) ∷ []) result }
{
    if unearned(p, v, s) {
        return Err(AbortCode::NotValid);
    }
    Ok(())
}

// ---- The write checks: size, bytes and state stay apart, as the definitions of the checks take them

// A write to a saved parameter: its access, its range, then its validity.
fn write_setting(p: Parameter, size: Option<u8>, d: u32, s: State) -> Result<Change, AbortCode>
    ensures { coded result ≡ Sdo.checked_write (Ok (Setting p)) size d s }
{
    let k = kind(p);
    let v = decode(k, d);
    access(star(p), k, size, s)?;
    in_range(judge(p, v))?;
    earned(p, v, s)?;
    Ok(Change::Write(p, v))
}

// A write to 1010h or 1011h, which takes one word alone.
#[tactic(auto, unfolding(model::specs::Choice::first_hit))]
fn write_word(
    word: u32,
    change: Change,
    size: Option<u8>,
    d: u32,
    s: State,
) -> Result<Change, AbortCode>
    ensures { coded result ≡ answered (Sdo.access_checks true Kinds.U32 size s ++ Sdo.word_checks word d) change }
{
    access(true, Kind::U32, size, s)?;
    if d != word {
        return Err(AbortCode::WrongWord);
    }
    Ok(change)
}

// A write to an entry.
#[tactic(auto, unfolding(model::specs::Sdo::checked_write, model::specs::Sdo::write_code))]
fn write_entry(e: Entry, size: Option<u8>, d: u32, s: State) -> Result<Change, AbortCode>
    ensures { coded result ≡ Sdo.checked_write (Ok e) size d s }
{
    match e {
        Entry::Fixed(_) | Entry::Name | Entry::Shown(_) => Err(AbortCode::ReadOnly),
        Entry::Setting(p) => write_setting(p, size, d, s),
        Entry::SaveWord(gs) => write_word(SAVE_WORD, Change::Save(gs), size, d, s),
        Entry::LoadWord(gs) => write_word(LOAD_WORD, Change::TakeOut(gs), size, d, s),
    }
}

// A write of `size` of four bytes to what was found: the change that it makes, or the abort code of the first check that is broken.
#[tactic(auto, unfolding(model::specs::Sdo::checked_write, model::specs::Sdo::write_code))]
pub fn checked_write(
    found: Result<Entry, Missing>,
    size: Option<u8>,
    d: u32,
    s: State,
) -> Result<Change, AbortCode>
    ensures { coded result ≡ Sdo.checked_write found size d s }
{
    write_entry(found?, size, d, s)
}

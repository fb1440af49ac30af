// Writing: an image is always built from all its records, so what a good store has besides goes into the next one.
ghost use Rattle.std.specs.Prelude.{◌≡◌, cond, [], ◌≤◌, length};
ghost use Rattle.model.specs.declared.Group.TheVariants as Group;
ghost use Rattle.model.specs.Settings.{in_force, has};
ghost use Rattle.model.specs.Store.{record_of, read, saved_n, saved, build, renewed, readdressed};

use super::saved::Contents;
use image::{Records, write_image};
use model::{Address, Group, Groups, Settings};
use records::codec::{Codec, encode_n};

// Whether a group is one of these.
fn has(gs: Groups, g: Group) -> bool
    ensures { result ≡ has gs g }
{
    matches!(
        (gs, g),
        (Groups::Both, _) | (Groups::OnlyC, Group::C) | (Groups::OnlyA, Group::A)
    )
}

// The records of these groups become c and a, and an empty one is taken out.
fn renew(gs: Groups, c: &[u8], a: &[u8], store: &mut [u8; 64])
    requires { (length c.now ≤ 21) × (length a.now ≤ 17) }
    ensures { let old = read store.old in store.new ≡ build (saved_n old) (cond (has gs Group.C) c.now (saved Group.C old)) (cond (has gs Group.A) a.now (saved Group.A old)) }
{
    let old = *store;
    let kept = Contents::read(&old).records();
    let c = if has(gs, Group::C) { c } else { kept.c };
    let a = if has(gs, Group::A) { a } else { kept.a };
    write_image(store, Records { n: kept.n, c, a });
}

// A save: the values in force of these groups; C goes with the active ID.
#[tactic(auto, unfolding(model::specs::Store::renewed, model::specs::Store::record_of))]
pub fn save(gs: Groups, id: u8, k: Settings, store: &mut [u8; 64])
    ensures { store.new ≡ renewed gs (λ g. record_of g id (in_force k)) (read store.old) }
{
    let c = k.communication.encode(id);
    let a = k.application.encode(id);
    renew(gs, &c, &a, store);
}

// A load word: these groups' records are taken out.
#[tactic(auto, unfolding(model::specs::Store::renewed))]
pub fn take_out(gs: Groups, store: &mut [u8; 64])
    ensures { store.new ≡ renewed gs (λ g. []) (read store.old) }
{
    renew(gs, &[], &[], store);
}

// LSS 17h: N is this pair.
#[tactic(auto, unfolding(model::specs::Store::readdressed))]
pub fn readdress(a: Address, store: &mut [u8; 64])
    ensures { store.new ≡ readdressed a (read store.old) }
{
    let old = *store;
    let kept = Contents::read(&old).records();
    let n = encode_n(a);
    write_image(store, Records { n: &n, ..kept });
}

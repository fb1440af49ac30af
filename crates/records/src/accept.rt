// Which records are accepted: each absent, or of its size with every value in range and no false validity byte.
#![tactic(auto, unfolding(model::specs::Store::sound_n, model::specs::Store::sound_record))]

ghost use Rattle.std.specs.Prelude.{◌≡◌, ◌||◌, ◌&&◌, ℕ, Bool, List, eqb, length};
ghost use Rattle.model.specs.declared.Group.TheVariants as Group;
ghost use Rattle.model.specs.Store as Store;
ghost use Rattle.records.specs.Accepted.{ok_n_lem, ok_lem};

use super::codec::Codec;
use model::{Address, Application, Communication};
use wire::address::{is_bit_index, is_node_id};
use wire::bytes::byte;

// What is saved in a record of SIZE bytes.
pub trait Record<const SIZE: usize> {
    // Which contents are sound.
    ghost sound: { List ℕ → Bool };

    // Which records are accepted.
    ghost ok: { List ℕ → Bool };

    // Whether the contents are sound.
    fn is_sound_record(r: &[u8]) -> bool
        ensures { result ≡ sound r.now };

    // A record is accepted if it is absent, or of its size and sound.
    ghost absent_or_sound: { (r : List ℕ) → ok r ≡ (eqb (length r) 0 || (eqb (length r) SIZE && sound r)) };

    // Whether a record is accepted.
    final fn is_ok(r: &[u8]) -> bool
        ensures { result ≡ ok r.now }
    {
        r.is_empty() || (r.len() == SIZE && Self::is_sound_record(r))
    }
}

// N.
impl Record<2> for Address {
    ghost sound = { Store.sound_n };

    ghost ok = { Store.ok_n };

    ghost absent_or_sound = { ok_n_lem };

    fn is_sound_record(r: &[u8]) -> bool {
        is_node_id(byte(r, 0)) & is_bit_index(byte(r, 1))
    }
}

// C, which begins with an ID.
impl Record<21> for Communication {
    ghost sound = { Store.sound_record Group.C };

    ghost ok = { Store.ok Group.C };

    ghost absent_or_sound = { ok_lem Group.C };

    fn is_sound_record(r: &[u8]) -> bool {
        is_node_id(byte(r, 0)) & Communication::is_sound_in(r)
    }
}

// A.
impl Record<17> for Application {
    ghost sound = { Store.sound_record Group.A };

    ghost ok = { Store.ok Group.A };

    ghost absent_or_sound = { ok_lem Group.A };

    fn is_sound_record(r: &[u8]) -> bool {
        Application::is_sound_in(r)
    }
}

// Loads: what a group is read from, its record in the store or, for want of one, the factory block.
ghost use Rattle.std.specs.Prelude.{◌≡◌};
ghost use Rattle.model.specs.declared.Group.TheVariants as Group;
ghost use Rattle.model.specs.declared.Change.TheVariants as Change;
ghost use Rattle.model.specs.Settings.{altered};
ghost use Rattle.model.specs.Store as Store;
ghost use Rattle.model.specs.Changes.{applied};
ghost use Rattle.records.specs.Decoded.{from_record};
ghost use Rattle.store.specs.Saved.{GroupPart, for_id, cobs_of};

use super::saved::Contents;
use model::{Address, Application, Communication, Group, Groups, Settings};
use records::codec::Codec;
use settings::table::{defaults, first_cob, second_cob};
use wire::bytes::{byte, copy};

// The factory block for an ID: its C, then its A.
pub fn factory(id: u8) -> [u8; 38]
    ensures { result ≡ Store.factory id }
{
    let k = defaults(id);
    let c = k.communication.encode(id);
    let a = k.application.encode(id);
    let mut block = [0u8; 38];
    copy(&mut block, 0, &c);
    copy(&mut block, 21, &a);
    block
}

// A record, or else another where it is absent.
fn or_else<'a>(saved: &'a [u8], other: &'a [u8]) -> &'a [u8]
    ensures { result.now ≡ Store.or_else saved.now other.now }
{
    if saved.is_empty() { other } else { saved }
}

// 1301h:5 and 1301h:6 with their defaults for an ID, and 13FEh 0.
fn follow_id(id: u8, k: Settings) -> Settings
    ensures { result ≡ altered (cobs_of id) k }
{
    let first = first_cob(id);
    let second = second_cob(id);
    let mut r = k;
    r.communication.srdo.first = first;
    r.communication.srdo.second = second;
    r.communication.valid = 0;
    r
}

// The settings k, with group C of a record. The COB-ID rule: what was chosen for another ID does not serve this one.
fn load_c(r: &[u8], id: u8, k: Settings) -> Settings
    ensures { result ≡ altered (for_id Group.C id r.now) k }
{
    let t = Settings {
        communication: Communication::decode(r),
        ..k
    };
    if byte(r, 0) == id {
        return t;
    }
    follow_id(id, t)
}

// The settings k, with group A of a record.
fn load_a(r: &[u8], k: Settings) -> Settings
    ensures { result ≡ altered (from_record Group.A r.now) k }
{
    Settings {
        application: Application::decode(r),
        ..k
    }
}

impl<'a> Contents<'a> {
    // A group at a load: a part of the store or of the factory block, by the sizes of what is saved.
    pub fn group(self, g: Group, factory: &'a [u8; 38]) -> &'a [u8]
        ensures { GroupPart g self.entry.store.now factory.now self.entry.sizes result.now }
    {
        let saved = self.records();
        match g {
            Group::C => or_else(saved.c, &factory[..21]),
            Group::A => or_else(saved.a, &factory[21..]),
        }
    }

    // The settings k, with these groups loaded for the active ID.
    #[tactic(auto, using(crate::proofs::Loads::only_c, crate::proofs::Loads::only_a, crate::proofs::Loads::both))]
    pub fn load(self, gs: Groups, id: u8, k: Settings) -> Settings
        ensures { result ≡ applied (Change.Load gs id) k (Store.read self.entry.store.now) }
    {
        let block = factory(id);
        match gs {
            Groups::OnlyC => load_c(self.group(Group::C, &block), id, k),
            Groups::OnlyA => load_a(self.group(Group::A, &block), k),
            Groups::Both => {
                let t = load_c(self.group(Group::C, &block), id, k);
                load_a(self.group(Group::A, &block), t)
            }
        }
    }

    // Node-ID and bit index at a load: those of N, and 1 and 3 where it is absent.
    #[tactic(auto, unfolding(model::specs::Store::address_from))]
    pub fn address(self) -> Address
        ensures { result ≡ Store.address_from (Store.read self.entry.store.now) }
    {
        let n = or_else(self.records().n, &[1, 3]);
        Address {
            id: byte(n, 0),
            bit: byte(n, 1),
        }
    }
}

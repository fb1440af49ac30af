// The records of a good store. Any other content: nothing is saved.
ghost use Rattle.std.specs.Prelude.{◌≡◌, ◌&&◌};
ghost use Rattle.model.specs.declared.Group.TheVariants as Group;
ghost use Rattle.model.specs.Store.{ok_n, ok};
ghost use Rattle.store.specs.Saved.{Kept, SavedIn};

use image::{Records, Sizes, is_own, sizes_in};
use model::{Address, Application, Communication};
use records::accept::Record;

// Whether these records are accepted.
fn accepted(r: Records) -> bool
    ensures { result ≡ (ok_n r.entry.n.now && (ok Group.C r.entry.c.now && ok Group.A r.entry.a.now)) }
{
    Address::is_ok(r.n) & (Communication::is_ok(r.c) & Application::is_ok(r.a))
}

// The sizes of the records that are saved, none where the store is not good. They stand in the order N, C, A from byte 0 on.
// A matching CRC alone says nothing: 64 zero bytes have one. The bytes are asked first: most bad stores are turned away by them.
pub fn saved_sizes(store: &[u8; 64]) -> Sizes
    ensures { Kept store.now result }
{
    let s = sizes_in(store);
    if is_own(store, s) && accepted(s.records(store)) {
        return s;
    }
    Sizes::default()
}

// A store, with the sizes of the records that are saved in it.
#[derive(Clone, Copy)]
pub struct Contents<'a> {
    pub store: &'a [u8; 64],
    pub sizes: Sizes,
    pub ghost kept: { Kept store.now sizes },
}

impl<'a> Contents<'a> {
    // What is saved in a store.
    pub fn read(store: &'a [u8; 64]) -> Contents<'a>
        ensures { result.store.now ≡ store.now }
    {
        Contents {
            store,
            sizes: saved_sizes(store),
        }
    }

    // The records that are saved.
    pub fn records(self) -> Records<'a>
        ensures { SavedIn self.entry.store.now self.entry.sizes result }
    {
        self.sizes.records(self.store)
    }
}

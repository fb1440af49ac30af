// The store's image of 64 bytes: written anew of the records N, C and A, and tested. An absent record is an empty slice.
#![tactic(auto)]

ghost use Rattle.std.specs.Prelude.{◌≡◌, ◌++◌, ◌+◌, ◌≤◌, ◌<◌, length, take};
ghost use Rattle.model.specs.Bytes.{low_bytes, part, same_bytes};
ghost use Rattle.model.specs.Signature.{crc_of};
ghost use Rattle.model.specs.Store.{packed, build, length_at};
ghost use Rattle.image.specs.Sizes.{place_by, Sized, Within};

// ---- The records in an image

// The records N, C and A of an image, side by side from byte 0 on.
#[derive(Clone, Copy)]
pub struct Records<'a> {
    pub n: &'a [u8],
    pub c: &'a [u8],
    pub a: &'a [u8],
}

// How many bytes of an image are records. That they fit into it stays a clause: `is_own` and `write_image` take all that fit.
#[derive(Clone, Copy, Default)]
pub struct Sizes {
    pub n: usize,
    pub c: usize,
    pub a: usize,
}

impl Sizes {
    // The records of these sizes in an image.
    pub fn records(self, image: &[u8; 64]) -> Records<'_>
        requires { self.n + self.c + self.a ≤ 64 }
        ensures { Within image.now self result }
    {
        Records {
            n: wire::bytes::part_of(image, 0, self.n),
            c: wire::bytes::part_of(image, self.n, self.c),
            a: wire::bytes::part_of(image, self.n + self.c, self.a),
        }
    }
}

// ---- Writing

// The place of a record of this size, FFFFh where it is absent.
fn place_of(size: usize, at: usize) -> u16
    requires { at < 65536 }
    ensures { result ≡ place_by size at }
{
    if size == 0 { 0xffff } else { at as u16 }
}

// The records from byte 0 on, and zeros to byte 55.
fn write_records(out: &mut [u8; 64], r: Records)
    requires { length r.n.now + length r.c.now + length r.a.now ≤ 56 }
    ensures { take 56 out.new ≡ packed r.entry.n.now r.entry.c.now r.entry.a.now }
{
    let to_c = r.n.len();
    let to_a = to_c + r.c.len();
    let end = to_a + r.a.len();
    wire::bytes::copy(out, 0, r.n);
    wire::bytes::copy(out, to_c, r.c);
    wire::bytes::copy(out, to_a, r.a);
    wire::bytes::zeros(out, end, 56 - end);
}

// The trailer's places of C, A and N, by the sizes of the records.
fn write_places(out: &mut [u8; 64], s: Sizes)
    requires { s.n + s.c + s.a ≤ 56 }
    ensures { take 62 out.new ≡ take 56 out.old ++ low_bytes 2 (place_by s.c s.n) ++ low_bytes 2 (place_by s.a (s.n + s.c)) ++ low_bytes 2 (place_by s.n 0) }
{
    let place_c = place_of(s.c, s.n);
    let place_a = place_of(s.a, s.n + s.c);
    let place_n = place_of(s.n, 0);
    wire::bytes::put16(out, 56, place_c);
    wire::bytes::put16(out, 58, place_a);
    wire::bytes::put16(out, 60, place_n);
}

// The CRC of bytes 0..61.
fn write_crc(out: &mut [u8; 64])
    ensures { out.new ≡ take 62 out.old ++ low_bytes 2 (crc_of (take 62 out.old)) }
{
    let crc = wire::crc::crc(&out[..62]);
    wire::bytes::put16(out, 62, crc);
}

// The whole image anew, of these records.
#[tactic(auto, unfolding(model::specs::Store::build, model::specs::Store::placed, model::specs::Store::place_in))]
pub fn write_image(out: &mut [u8; 64], r: Records)
    requires { length r.n.now + length r.c.now + length r.a.now ≤ 56 }
    ensures { out.new ≡ build r.entry.n.now r.entry.c.now r.entry.a.now }
{
    write_records(out, r);
    write_places(
        out,
        Sizes {
            n: r.n.len(),
            c: r.c.len(),
            a: r.a.len(),
        },
    );
    write_crc(out);
}

// ---- Testing

// The size of a record of k bytes, by its place in the trailer at `at`: 0 where the place is FFFFh.
#[tactic(auto, unfolding(model::specs::Store::length_at))]
fn size_at(image: &[u8], at: usize, k: usize) -> usize
    requires { at ≤ 62 }
    ensures { (result ≡ length_at at k image.now) × (result ≤ k) }
{
    if wire::bytes::get16(image, at) == 0xffff {
        0
    } else {
        k
    }
}

// The sizes of the records, as the trailer says.
pub fn sizes_in(image: &[u8]) -> Sizes
    ensures { Sized image.now result }
{
    Sizes {
        n: size_at(image, 60, 2),
        c: size_at(image, 56, 21),
        a: size_at(image, 58, 17),
    }
}

// Whether an image is the very one that records of these sizes in it make: it is built anew and compared, so that a place, a
// zero or the CRC that is wrong shows.
#[tactic(auto, using(crate::proofs::Compared::compared))]
pub fn is_own(image: &[u8; 64], s: Sizes) -> bool
    requires { s.n + s.c + s.a ≤ 56 }
    ensures { result ≡ same_bytes image.now (build (part 0 s.n image.now) (part s.n s.c image.now) (part (s.n + s.c) s.a image.now)) }
{
    let mut anew = [0u8; 64];
    write_image(&mut anew, s.records(image));
    *image == anew
}

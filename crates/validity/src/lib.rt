// The ranges, the signatures and the validity bytes of the two groups. Any float may be a NaN or an infinity.
#![tactic(auto)]

ghost use Rattle.std.specs.Prelude.{◌≡◌, refl};
ghost use Rattle.model.specs.declared.Group.{Group};
ghost use Rattle.model.specs.declared.Group.TheVariants as G;
ghost use Rattle.model.specs.declared.Settings.{Settings};
ghost use Rattle.model.specs.Settings as Table;
ghost use Rattle.model.specs.Validity as Validity;

use model::{Application, Communication, VALID};
use reading::{bits_of, real_fits};
use settings::table::{is_first_cob, is_second_cob, is_type};
use wire::crc::crc;

// The parameters of a group, and what is asked of them. The answers hold in any settings that have them: nothing else is looked at.
pub trait Parameters {
    // Which group it is.
    ghost group: { Group };

    // Those that some settings have.
    ghost own: { Settings → Self };

    // Some settings with these for their own.
    ghost set: { Settings → Self → Settings };

    // Whether every parameter is in range.
    fn in_range(&self) -> bool
        ensures { (k : Settings) → result ≡ Table.in_ranges (Table.rows group) (Table.in_force (set k self.now)) };

    // Whether the validity byte may be A5h.
    fn is_valid(&self) -> bool
        ensures { (k : Settings) → result ≡ Validity.valid group (Table.in_force (set k self.now)) };

    // Whether it is A5h.
    fn vouches(&self) -> bool
        ensures { (k : Settings) → result ≡ Validity.vouched group (Table.in_force (set k self.now)) };

    // Its own in their places change nothing: what is answered of `own k` is answered of k.
    ghost set_own: { (k : Settings) → set k (own k) ≡ k };

    // Whether it, where it vouches, does so rightly. The signature is computed only where it is asked for.
    final fn is_honest(&self) -> bool
        ensures { (k : Settings) → result ≡ Validity.honest group (Table.in_force (set k self.now)) }
    {
        !self.vouches() || self.is_valid()
    }

    // Whether the group may be in force, and be saved.
    final fn is_sound(&self) -> bool
        ensures { (k : Settings) → result ≡ Validity.sound group (Table.in_force (set k self.now)) }
    {
        self.in_range() & self.is_honest()
    }
}

impl Parameters for Communication {
    ghost group = { G.C };

    ghost own = { λ k. k.communication };

    ghost set = { λ k c. record { communication = c; application = k.application } };

    ghost set_own = { λ k. refl };

    // It is asked at every event, so the fields are compared as they stand, with no value made of them, and only those that have a range:
    // 1017h, 1800h:5, 13FEh and 13FFh:1 may be anything.
    fn in_range(&self) -> bool {
        (self.srdo.direction <= 1)
            & (1 <= self.srdo.refresh)
            & (1 <= self.srdo.validation)
            & is_first_cob(self.srdo.first)
            & is_second_cob(self.srdo.second)
            & is_type(self.tpdo.kind as u32)
    }

    // The SRDO's five parameters are signed, each by its bytes, and behind them how many mappings there are and what each one is. And the COB-IDs have to be a pair;
    // the sum is wide, since a COB-ID may be any 32 bits.
    fn is_valid(&self) -> bool {
        // A byte is read by the same method: behind a reference the check learns that it fits where it is read, and not where it is copied.
        let srdo = &self.srdo;
        let [direction] = srdo.direction.to_le_bytes();
        let [refresh0, refresh1] = srdo.refresh.to_le_bytes();
        let [validation] = srdo.validation.to_le_bytes();
        let [first0, first1, first2, first3] = srdo.first.to_le_bytes();
        let [second0, second1, second2, second3] = srdo.second.to_le_bytes();
        let bytes = [
            direction, refresh0, refresh1, validation, first0, first1, first2, first3, second0,
            second1, second2, second3, 2, 1, 0x20, 0x01, 0x30, 0x50, 2, 0x20, 0x02, 0x30, 0x50,
        ];
        (self.signature == crc(&bytes)) & (srdo.second as u64 == srdo.first as u64 + 1)
    }

    fn vouches(&self) -> bool {
        self.valid == VALID // 13FEh
    }
}

impl Parameters for Application {
    ghost group = { G.A };

    ghost own = { λ k. k.application };

    ghost set = { λ k a. record { communication = k.communication; application = a } };

    ghost set_own = { λ k. refl };

    // 51FEh and 51FFh:1 may be anything.
    fn in_range(&self) -> bool {
        (self.autostart <= 1)
            & real_fits(self.scaling.low)
            & real_fits(self.scaling.high)
            & real_fits(self.scaling.offset)
            & (self.digits <= 4)
    }

    // Scaling points, offset and digits are signed, each by its bytes.
    fn is_valid(&self) -> bool {
        let scaling = &self.scaling;
        let [low0, low1, low2, low3] = bits_of(scaling.low).to_le_bytes();
        let [high0, high1, high2, high3] = bits_of(scaling.high).to_le_bytes();
        let [offset0, offset1, offset2, offset3] = bits_of(scaling.offset).to_le_bytes();
        let [digits] = self.digits.to_le_bytes();
        let bytes = [
            low0, low1, low2, low3, high0, high1, high2, high3, offset0, offset1, offset2, offset3,
            digits,
        ];
        self.signature == crc(&bytes)
    }

    fn vouches(&self) -> bool {
        self.valid == VALID // 51FEh
    }
}

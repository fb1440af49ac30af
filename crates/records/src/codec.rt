// The parameters of a group as its record, and back. All numbers are low byte first, in the order of the table.
ghost use Rattle.std.specs.Prelude.{◌≡◌};
ghost use Rattle.model.specs.declared.Settings.{Settings};
ghost use Rattle.model.specs.Settings.{in_force, altered};
ghost use Rattle.model.specs.Validity.{sound};
ghost use Rattle.model.specs.Store.{record_n, record_of, field};
ghost use Rattle.records.specs.Decoded.{from_record, scaling_in};

use model::{Address, Application, Communication, Scaling, SrdoSettings, TpdoSettings};
use reading::{bits_of, real_of};
use validity::Parameters;
use wire::bytes::{byte, get16, get32};

// N: Node-ID and bit index.
pub fn encode_n(a: Address) -> [u8; 2]
    ensures { result ≡ record_n a }
{
    [a.id, a.bit]
}

// A group and its record of SIZE bytes. C begins with the active ID, and its rows follow; A is its rows alone.
pub trait Codec<const SIZE: usize>: Parameters + Copy {
    // The record, saved with an active ID.
    fn encode(self, id: u8) -> [u8; SIZE]
        ensures { (k : Settings) → result ≡ record_of Self.group id (in_force (Self.set k self)) };

    // The parameters that a record says.
    fn decode(r: &[u8]) -> Self
        ensures { (k : Settings) → Self.set k result ≡ altered (from_record Self.group r.now) k };

    // Whether a record says sound ones.
    final fn is_sound_in(r: &[u8]) -> bool
        ensures { result ≡ sound Self.group (field r.now) }
    {
        Self::decode(r).is_sound()
    }
}

impl Codec<21> for Communication {
    fn encode(self, id: u8) -> [u8; 21] {
        let [heartbeat0, heartbeat1] = self.heartbeat.to_le_bytes();
        let srdo = self.srdo;
        let [refresh0, refresh1] = srdo.refresh.to_le_bytes();
        let [first0, first1, first2, first3] = srdo.first.to_le_bytes();
        let [second0, second1, second2, second3] = srdo.second.to_le_bytes();
        let [period0, period1] = self.tpdo.period.to_le_bytes();
        let [signature0, signature1] = self.signature.to_le_bytes();
        [
            id,
            heartbeat0,
            heartbeat1,
            srdo.direction,
            refresh0,
            refresh1,
            srdo.validation,
            first0,
            first1,
            first2,
            first3,
            second0,
            second1,
            second2,
            second3,
            self.tpdo.kind,
            period0,
            period1,
            self.valid,
            signature0,
            signature1,
        ]
    }

    fn decode(r: &[u8]) -> Communication {
        let srdo = SrdoSettings {
            direction: byte(r, 3),
            refresh: get16(r, 4),
            validation: byte(r, 6),
            first: get32(r, 7),
            second: get32(r, 11),
        };
        let tpdo = TpdoSettings {
            kind: byte(r, 15),
            period: get16(r, 16),
        };
        Communication {
            heartbeat: get16(r, 1),
            srdo,
            tpdo,
            valid: byte(r, 18),
            signature: get16(r, 19),
        }
    }
}

impl Codec<17> for Application {
    // The ID is not in it. A float goes by its bits.
    fn encode(self, _id: u8) -> [u8; 17] {
        let scaling = self.scaling;
        let [low0, low1, low2, low3] = bits_of(scaling.low).to_le_bytes();
        let [high0, high1, high2, high3] = bits_of(scaling.high).to_le_bytes();
        let [offset0, offset1, offset2, offset3] = bits_of(scaling.offset).to_le_bytes();
        let [signature0, signature1] = self.signature.to_le_bytes();
        [
            self.autostart,
            low0,
            low1,
            low2,
            low3,
            high0,
            high1,
            high2,
            high3,
            offset0,
            offset1,
            offset2,
            offset3,
            self.digits,
            self.valid,
            signature0,
            signature1,
        ]
    }

    fn decode(r: &[u8]) -> Application {
        Application {
            autostart: byte(r, 0),
            scaling: scaling(r),
            digits: byte(r, 13),
            valid: byte(r, 14),
            signature: get16(r, 15),
        }
    }
}

// The two scaling points and the offset of an A record.
pub fn scaling(r: &[u8]) -> Scaling
    ensures { result ≡ scaling_in r.now }
{
    Scaling {
        low: real_of(get32(r, 1)),
        high: real_of(get32(r, 5)),
        offset: real_of(get32(r, 9)),
    }
}

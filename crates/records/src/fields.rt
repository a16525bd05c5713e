// The 24 bytes of a record as numbers.
ghost use Rattle.std.specs.Prelude.{◌≡◌};
ghost use Rattle.records.specs.Fields.{fields_of, spelled};

use causal::places::Place;

// Every record has its numbers at the same bytes: tag 0, part 1, replica 2, spare 3, low 4–5, high 6–7, place 8–15, code 16–23.
// Stays read by index: these are the bytes' names, and 24 others would say no more.
#[derive(Clone, Copy, Debug, PartialEq, Eq)]
pub struct Fields {
    pub tag: u8,
    pub part: u8,
    pub replica: u8,
    pub spare: u8,
    pub low: u16,
    pub high: u16,
    pub place: Place,
    pub code: u64,
}

// The fields of a record.
impl From<[u8; 24]> for Fields {
    ghost from_gives = { λ bytes f. f ≡ fields_of bytes };

    fn from(bytes: [u8; 24]) -> Fields {
        Fields {
            tag: bytes[0],
            part: bytes[1],
            replica: bytes[2],
            spare: bytes[3],
            low: u16::from_be_bytes([bytes[4], bytes[5]]),
            high: u16::from_be_bytes([bytes[6], bytes[7]]),
            place: read_place(bytes),
            code: read_code(bytes),
        }
    }
}

fn read_place(bytes: [u8; 24]) -> Place
    ensures { result ≡ (fields_of bytes).place }
{
    Place {
        first: u16::from_be_bytes([bytes[8], bytes[9]]),
        second: u16::from_be_bytes([bytes[10], bytes[11]]),
        third: u16::from_be_bytes([bytes[12], bytes[13]]),
        fourth: u16::from_be_bytes([bytes[14], bytes[15]]),
    }
}

fn read_code(bytes: [u8; 24]) -> u64
    ensures { result ≡ (fields_of bytes).code }
{
    u64::from_be_bytes([
        bytes[16], bytes[17], bytes[18], bytes[19], bytes[20], bytes[21], bytes[22], bytes[23],
    ])
}

// The record of these fields.
impl From<Fields> for [u8; 24] {
    ghost from_gives = { λ f bytes. bytes ≡ spelled f };

    fn from(f: Fields) -> [u8; 24] {
        let low = f.low.to_be_bytes();
        let high = f.high.to_be_bytes();
        let first = f.place.first.to_be_bytes();
        let second = f.place.second.to_be_bytes();
        let third = f.place.third.to_be_bytes();
        let fourth = f.place.fourth.to_be_bytes();
        let code = f.code.to_be_bytes();
        [
            f.tag, f.part, f.replica, f.spare, low[0], low[1], high[0], high[1], first[0],
            first[1], second[0], second[1], third[0], third[1], fourth[0], fourth[1], code[0],
            code[1], code[2], code[3], code[4], code[5], code[6], code[7],
        ]
    }
}

// The visibility byte of a record: the scales between which it is shown. (01, Record)
ghost use Rattle.std.specs.Prelude.{◌<◌, ◌≡◌};
ghost use Rattle.layout.specs.Shared.Visibility.{visibility_of};
ghost use Rattle.meanings.specs.Levels.{denominator_of};

use layout::Scales;

// The byte of a record that has none.
const UNSET: u8 = 0xFF;

// Source document 000, table 4.
const TABLE4: [u32; 16] = [
    500, 1000, 2000, 5000, 10000, 25000, 50000, 100000, 200000, 500000, 1000000, 2000000, 5000000,
    10000000, 20000000, 40000000,
];

// Source document 000, table 5.
const TABLE5: [u32; 16] = [
    5, 10, 25, 50, 100, 200, 500, 1000, 2000, 5000, 10000, 25000, 50000, 100000, 200000, 500000,
];

// Bit 7 of the passport's flags picks the table.
#[tactic(auto, unfolding(crate::specs::Levels::denominator_of))]
fn denominator(flags: u8, level: usize) -> u32
    requires { level < 16 }
    ensures { result ≡ denominator_of flags level }
{
    if flags / 128 % 2 == 1 {
        TABLE5[level]
    } else {
        TABLE4[level]
    }
}

// flags is the byte at +96 of the passport, byte the record's generalisation byte.
#[tactic(auto, unfolding(layout::specs::Shared::Visibility::visibility_of, crate::specs::Levels::denominator_of))]
pub fn visibility_of(flags: u8, byte: u8) -> Option<Scales>
    ensures { result ≡ visibility_of flags byte }
{
    if byte == UNSET {
        return None;
    }
    let low = (byte % 16) as usize;
    let high = (byte / 16 % 16) as usize;
    Some(Scales {
        lower: denominator(flags, low),
        upper: denominator(flags, 15 - high),
    })
}

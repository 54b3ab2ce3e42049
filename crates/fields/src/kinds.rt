// The kind of a semantic item by its type, and what follows from it: which scale byte is good, how long the value is, how many closing
// zeros it has. Names and meanings are those of layout's specs/Shared/Types.antt.
ghost use Rattle.std.specs.Prelude.{◌≡◌, ◌+◌, ◌≤◌, ◌<◌, ◌^◌, length, drop};
ghost use Rattle.fields.specs.Kinds.{kind_by};
ghost use Rattle.layout.specs.Reading.Items.{kind_in, value_at, value_size};
ghost use Rattle.layout.specs.Shared.Types.{kind_of, is_known, is_long, good_scale, length_bytes, value_length, good_length, closing as closingOf};

use crate::numbers;
use layout::item;

#[derive(Clone, Copy, PartialEq, Eq)]
pub enum Kind {
    Narrow,
    Wide,
    Long,
    Integer(u8),
    Double,
    Unknown,
}

// The kind of a type.
impl From<u64> for Kind {
    ghost from_gives = { λ t k. kind_by k ≡ kind_of t };

    fn from(t: u64) -> Kind {
        match t {
            item::NARROW | item::NARROW_126 => Kind::Narrow,
            item::WIDE => Kind::Wide,
            item::INTEGER_1 | item::INTEGER_2 | item::INTEGER_4 => Kind::Integer(t as u8),
            item::DOUBLE => Kind::Double,
            item::LONG => Kind::Long,
            _ => Kind::Unknown,
        }
    }
}

impl Kind {
    pub fn is_known(self) -> bool
        ensures { result ≡ is_known (kind_by self) }
    {
        self != Kind::Unknown
    }

    pub fn is_long(self) -> bool
        ensures { result ≡ is_long (kind_by self) }
    {
        self == Kind::Long
    }

    pub fn good_scale(self, scale: u64) -> bool
        ensures { result ≡ good_scale (kind_by self) scale }
    {
        match self {
            Kind::Long => scale == item::LONG_SCALE,
            Kind::Integer(_) => scale != item::INTEGER_NO_SCALE,
            Kind::Narrow | Kind::Wide | Kind::Double | Kind::Unknown => true,
        }
    }

    // How many bytes of length stand before the value.
    pub fn length_bytes(self) -> usize
        ensures { (result ≡ length_bytes (kind_by self)) × (result ≤ 4) }
    {
        if self.is_long() {
            item::LONG_LENGTH_WIDTH
        } else {
            0
        }
    }

    // The length of the value, by the scale byte and the length that stands before it.
    pub fn value_length(self, scale: u8, stated: usize) -> usize
        ensures { (result ≡ value_length (kind_by self) scale stated) × (result ≤ 512 + stated) }
    {
        match self {
            Kind::Narrow => scale as usize + 1,
            Kind::Wide => 2 * (scale as usize + 1),
            Kind::Long => stated,
            Kind::Integer(n) => n as usize,
            Kind::Double => item::DOUBLE_LENGTH,
            Kind::Unknown => 0,
        }
    }

    // Only a value of type 128 can have a bad length: its length is "even and at least 2".
    pub fn good_length(self, n: usize) -> bool
        ensures { result ≡ good_length (kind_by self) n }
    {
        !self.is_long() | ((n % 2 == 0) & (2 <= n))
    }

    // How many closing zeros the value ends with.
    pub fn closing(self) -> usize
        ensures { (result ≡ closingOf (kind_by self)) × (result ≤ 2) }
    {
        match self {
            Kind::Narrow => 1,
            Kind::Wide | Kind::Long => 2,
            Kind::Integer(_) | Kind::Double | Kind::Unknown => 0,
        }
    }
}

// The kind of the item at a place of a sheet.
pub fn kind_at(xs: &[u8], at: usize) -> Kind
    requires { at + 4 ≤ length xs.now }
    ensures { kind_by result ≡ kind_in (drop at xs.now) }
{
    Kind::from(numbers::at::<u8>(xs, at + item::TYPE) as u64)
}

// How long the value of the item at a place of a sheet is.
pub fn value_size(xs: &[u8], at: usize, k: Kind) -> usize
    requires { (kind_by k ≡ kind_in (drop at xs.now)) × (at + value_at (kind_by k) ≤ length xs.now) }
    ensures { (result ≡ value_size (drop at xs.now)) × (result < 2 ^ 32) }
{
    if k.is_long() {
        return numbers::at::<u32>(xs, at + item::LONG_LENGTH) as usize;
    }
    k.value_length(numbers::at::<u8>(xs, at + item::SCALE), 0)
}

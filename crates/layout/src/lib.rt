// What the library answers: the types of its answers, and beside them (specs/) the definitions of documents 01 and 02 that say
// which answer is given when. Only the number and the name of a refusal are code here, and nothing is relied on. The contracts of the crates
// above say what they mean by these definitions.
#![tactic(auto)]

pub mod block;
pub mod bounds;
pub mod carried;
pub mod codings;
pub mod descriptor;
pub mod header;
pub mod item;
pub mod lent;
pub mod passport;
pub mod pieces;
pub mod refusals;
pub mod rest;
pub mod row;
pub mod sheet;
pub mod structs;
pub mod subobject;
pub mod years;

use refusals::Reason;

// One named refusal: the reason, the place (a byte of the sheet or of the index file, or an index of the table or the text), and the year, which
// is 0 except for TOO NEW. What can be refused answers a Result with it. The year is a field of its own, since C and the
// theorems have all three.
#[derive(Clone, Copy, PartialEq, Eq)]
pub struct Refusal {
    pub reason: Reason,
    pub place: usize,
    pub year: u32,
}

// What an accepted sheet has: the low 32 bits of its sum, its count of records, and the lengths of the three outputs of unfolding it.
#[derive(Clone, Copy)]
pub struct Sizes {
    pub sum: u32,
    pub records: u32,
    pub numbers: usize,
    pub elements: usize,
    pub bytes: usize,
}

// One record: where it starts, its total length, its nine numbers, and its first part's points.
#[derive(Clone, Copy)]
pub struct RecordAt {
    pub place: usize,
    pub total: usize,
    pub code: u32,
    pub in_group: u16,
    pub group: u16,
    pub reference: u32,
    pub generalisation: u8,
    pub word: u32,
    pub parts: u32,
    pub items: usize,
    // a number and no bool, as the row and `sxf_record` have it
    pub mark: u8,
    pub points: u32,
}

// How long the text of a field is, and whether the field is clean: it has only zeros after its text.
#[derive(Clone, Copy)]
pub struct TextAt {
    pub length: usize,
    pub clean: bool,
}

// The head of a sheet, as the writer takes it: the four texts, which start at 16, 28, 64 and 408, and the scale. The carried bytes are the 304
// from 96 on and the four at 444.
#[derive(Clone, Copy)]
pub struct HeadAt {
    pub date: TextAt,
    pub designation: TextAt,
    pub scale: u32,
    pub title: TextAt,
    pub designation2: TextAt,
}

// What a code index has of a record: its class code, its place in the sheet, its localisation.
#[derive(Clone, Copy)]
pub struct Entry {
    pub code: u32,
    pub place: usize,
    pub localisation: u8,
}

// The two kinds of blocks: "new blocks carry 56 entries of 9 bytes with a 4-byte place [..]. Old blocks stay readable" (02, request 7).
#[derive(Clone, Copy)]
pub enum BlockKind {
    Old,
    New,
}

// What an index has: its entries, and the blocks in which they stand.
#[derive(Clone, Copy)]
pub struct IndexSizes {
    pub entries: usize,
    pub blocks: usize,
}

// A record that hopping finds: its number from 0, where it starts, and its total length.
#[derive(Clone, Copy)]
pub struct Hit {
    pub record: u32,
    pub place: usize,
    pub total: usize,
}

// What hopping from header to header finds: the first record of the code that is asked for, if there is one; and how many headers were looked at.
#[derive(Clone, Copy)]
pub struct Hop {
    pub hit: Option<Hit>,
    pub looked: u32,
}

// The unit of a sheet's coordinates; a real sheet of unknown unit keeps the byte that says so.
#[derive(Clone, Copy)]
pub enum SheetUnit {
    DevicePoints,
    Metres,
    Radians,
    Degrees,
    Unknown(u8),
}

// The unit of a sheet's heights, which have a byte of their own; one that names no unit is kept.
#[derive(Clone, Copy)]
pub enum HeightUnit {
    Metres,
    Unknown(u8),
}

// Which number of a point an element is, in the order in which they are stored.
#[derive(Clone, Copy)]
pub enum Dimension {
    North,
    East,
    Height,
}

// An element as stored: an integer of two or four bytes, or a floating number of four or eight.
#[derive(Clone, Copy)]
pub enum Stored {
    Short(u16),
    Long(u32),
    Single(u32),
    Double(u64),
}

// An element in the unit of the sheet that it stands in. A height has its own unit, and never that of the plane.
#[derive(Clone, Copy)]
pub enum Measured {
    Plane(SheetUnit, Stored),
    Height(HeightUnit, Stored),
}

// What an element stands for. A floating element that is no number (NaN) keeps its bits.
#[derive(Clone, Copy)]
pub enum Number {
    Whole(i64),
    Single(f32),
    Double(f64),
    NotNumber(u64),
}

// The eight plane corners, as stored or as doubles: south-west, north-west, north-east, south-east.
#[derive(Clone, Copy)]
pub struct PlaneCorners<T> {
    pub sw_x: T,
    pub sw_y: T,
    pub nw_x: T,
    pub nw_y: T,
    pub ne_x: T,
    pub ne_y: T,
    pub se_x: T,
    pub se_y: T,
}

// The corners of a sheet: doubles, or where at least one is a NaN, the place of the first that is one, and all eight as stored.
#[derive(Clone, Copy)]
pub enum Corners {
    Doubles(PlaneCorners<f64>),
    Bits(usize, PlaneCorners<u64>),
}

// The scales between which a record is shown, by their denominators.
#[derive(Clone, Copy)]
pub struct Scales {
    pub lower: u32,
    pub upper: u32,
}

// whole × 10 ^ power
#[derive(Clone, Copy)]
pub struct Decimal {
    pub whole: i64,
    pub power: i64,
}

// The value of a semantic item as a number: an integer with its scale, or a double. A double that is no number (NaN) keeps its bits.
#[derive(Clone, Copy)]
pub enum SemanticValue {
    Number(Decimal),
    Double(f64),
    NotNumber(u64),
    // The item is a text: its type.
    Other(u8),
}

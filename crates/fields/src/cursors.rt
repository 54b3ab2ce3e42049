// Where a pass over a sheet stands: in the sheet's bytes (place), in the record table (numbers) and in its two pools (elements, bytes). The
// reader takes bytes at the place and fills the three lists, and the writer takes from the three lists and writes bytes at the place.
#[derive(Clone, Copy)]
pub struct Cursor {
    pub place: usize,
    pub numbers: usize,
    pub elements: usize,
    pub bytes: usize,
}

// The three lent slices that a sheet's table is filled into: the record table (numbers) and the two pools.
#[derive(Drop)]
pub struct Filler<'a> {
    pub numbers: &'a mut [u64],
    pub elements: &'a mut [u64],
    pub bytes: &'a mut [u8],
}

/// The numbers of a link, in the units of a link's row.
#[derive(Clone, Copy)]
pub struct Measures {
    pub length: u32,
    pub speed: u32,
    pub capacity: u32,
    pub lanes: u32,
}

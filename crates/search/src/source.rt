// What a search reads, as it is lent: the bytes of a frame record and of a tile, records and a
// projection. The search says itself which of them are too short.
#[derive(Clone, Copy)]
pub struct Source<'a> {
    pub frame: &'a [u8],
    pub tile: &'a [u8],
    pub recs: &'a [u8],
    pub proj: &'a [u8],
}

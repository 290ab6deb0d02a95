// The sets found so far, in a lent buffer.
ghost use Rattle.cores.specs.Rows.{Row, Row-prop};

// A row of them stands in the first places. (The buffer is the caller's, so no `Vec` can hold them.)
#[derive(Drop)]
pub(crate) struct Found<'a> {
    pub(crate) places: &'a mut [u32],
    pub(crate) count: usize,
    ghost row: { Row count places.now } by { Row-prop count places.now },
}

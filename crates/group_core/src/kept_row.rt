use group_sample::Sampled;

/// The newest row of a property of a computer, with the number of the sample that had it.
#[derive(Drop)]
pub(crate) struct KeptRow {
    pub(crate) seq: u64,
    pub(crate) row: Sampled,
}

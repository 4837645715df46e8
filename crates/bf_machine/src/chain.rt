use std::snapshot::Snapshot;

/// Elements, each behind those before it, which only clauses see.
#[derive(Drop)]
pub(crate) enum Chain<T> {
    Nothing,
    Behind(Snapshot<Chain<T>>, Snapshot<T>),
}

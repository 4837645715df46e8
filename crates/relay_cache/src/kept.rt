/// What became of a file that was put into a cache.
#[derive(Clone, Copy)]
pub enum Kept {
    /// It is kept.
    Kept,
    /// The SHA-256 of its bytes isn't the stated one. Nothing is changed.
    WrongDigest { stated: [u8; 32], found: [u8; 32] },
    /// Want of memory. Nothing is changed.
    Memory,
}

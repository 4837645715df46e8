use crate::refusal::PieceRefusal;

/// What is found first in the text of a site. Lines are counted from 1 in that text.
#[derive(Drop)]
pub enum Finding {
    /// Every line and piece of the site is good. So many fixlets and baselines are in it.
    Good { fixlets: u64, baselines: u64 },
    /// The line at which no continuation can make the text good.
    BadLine(u32),
    /// The same, where that line has the id of a block before it.
    TwiceId(u32),
    /// All lines are those of a site, but it states another digest than that of its text.
    WrongDigest { stated: [u8; 32], found: [u8; 32] },
    /// The text has more than 4,194,304 bytes.
    TooLong,
    /// A question or a script is refused.
    BadPiece(PieceRefusal),
    /// Memory ran out.
    Memory,
}

//! Why a seed or a request is refused.

/// Why a generator isn't instantiated or reseeded.
#[derive(Debug, Clone, Copy, PartialEq, Eq)]
pub enum InvalidSeed {
    /// The entropy input has fewer or more than 48 bytes.
    EntropyLength,
    /// The personalization string or the additional input has more than 48 bytes.
    TooLong,
}

/// Why no bytes are generated.
#[derive(Debug, Clone, Copy, PartialEq, Eq)]
pub enum NotGenerated {
    /// More than 2^16 bytes, which are 2^19 bits, were requested at once.
    TooManyBytes,
    /// The additional input has more than 48 bytes.
    TooLong,
    /// There were 2^48 requests since the seed: reseed first.
    ReseedRequired,
}

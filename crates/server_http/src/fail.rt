ghost use Rattle.std.specs.Prelude.{◌≡◌};
ghost use Rattle.server_http.specs.declared.fail.HttpFail.TheVariants.{Failed, Memory};

use base_io::IoFail;
use std::alloc::{AllocError, AllocFailed};

/// Why there is no message. The first five refuse what came, and the first of them that fits stands.
#[derive(Clone, Copy, Debug, PartialEq, Eq)]
pub enum HttpFail {
    /// No head can come of the bytes, or its length of the body is no number or stands there twice.
    BadHead,
    /// A head of more than 16,384 bytes or 64 header lines.
    HeadTooLarge,
    /// A head with a Transfer-Encoding line.
    TransferEncoding,
    /// A POST or PATCH without a length of the body.
    LengthRequired,
    /// A body of more than 4,194,304 bytes.
    BodyTooLarge,
    /// The source failed.
    Failed,
    /// Out of memory.
    Memory,
}

impl From<AllocError> for HttpFail {
    ghost from_gives = { λ _ e. e ≡ Memory };

    fn from(_error: AllocError) -> Self {
        HttpFail::Memory
    }
}

impl From<IoFail> for HttpFail {
    ghost from_gives = { λ _ e. e ≡ Failed };

    fn from(_error: IoFail) -> Self {
        HttpFail::Failed
    }
}

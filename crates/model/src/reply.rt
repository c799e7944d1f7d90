use base_value::Bytes;
use http::StatusCode;

/// What a request is answered.
#[derive(Debug, Drop)]
pub struct Reply {
    /// The status of HTTP.
    pub status: StatusCode,
    /// The body, in JSON.
    pub body: Bytes,
}

use base_value::{Bytes, Text};
use http::Method;

/// A message of a connection.
#[derive(Debug, Drop)]
pub struct HttpMessage {
    pub method: Method,
    /// The request target as it was spelled.
    pub target: Text,
    /// What follows `Bearer ` in the only Authorization line, where that is text.
    pub bearer: Option<Text>,
    pub body: Bytes,
    /// Whether the connection ends behind the reply.
    pub close: bool,
}

/// What comes next on a connection.
#[derive(Debug, Drop)]
pub enum Next {
    Message(HttpMessage),
    /// The input ends between messages.
    End,
    /// The input ends within a message.
    Cut,
}

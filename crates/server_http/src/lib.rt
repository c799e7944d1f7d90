//! Messages of HTTP/1.1 out of bytes, and replies as bytes.
//!
//! It depends on `base_value` and `base_io`, on the grammar of request heads that `httparse` states, and on the statuses and
//! phrases of `http`. Its contract: `next_message` answers the item at the front of what the buffer and the source hold
//! together, however reads cut the bytes, leaves what stands behind it, and reads only where what has come ends between
//! messages or within one.
#![tactic(auto)]

mod close;
mod fail;
mod framing;
mod head;
mod input;
mod laws;
mod lines;
mod message;
mod next;
mod parts;
mod reply;

pub use crate::fail::HttpFail;
pub use crate::laws::{one_item, one_list};
pub use crate::message::{HttpMessage, Next};
pub use crate::next::{Buffer, next_message};
pub use crate::reply::{
    out_of_memory, out_of_memory_to, reply_bytes, reply_bytes_to, unavailable_to,
};

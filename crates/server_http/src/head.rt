ghost use Rattle.std.specs.Prelude.{◌≡◌, length, IsErrOf};
ghost use Rattle.std.specs.Io.KnownBytes.{Keeps, prepend_known};
ghost use Rattle.base_value.specs.Causes.{Cause};
ghost use Rattle.server_http.specs.Reads.{IsUnfinished, Reads};
ghost use Rattle.server_http.specs.Steps.{HeadAnswer};
ghost use Rattle.server_http.specs.declared.fail.HttpFail.TheVariants.{Failed};

use crate::fail::HttpFail;
use crate::input::read_more;
use base_io::Source;
use httparse::Status;
use httparse::spans::{HeaderSpan, RequestSpans, parse_request};

// A head has at most so many bytes, and at most so many lines are looked for in it: more than it can hold.
pub(crate) const HEAD_LIMIT: usize = 16384;

// Reads until a whole head is at hand, or it is sure that none comes.
pub(crate) fn read_head<S: Source>(
    source: &mut S,
    bytes: &mut Vec<u8>,
    lines: &mut [HeaderSpan],
) -> Result<Option<RequestSpans>, HttpFail>
    requires { length lines.old ≡ HEAD_LIMIT }
    ensures kept { Keeps (prepend_known bytes.old.items (S.left source.old)) (prepend_known bytes.new.items (S.left source.new)) }
    ensures answer { HeadAnswer bytes.new.items (S.left source.new) lines.new result }
    ensures reads { Reads S.left IsUnfinished bytes.old.items source.old bytes.new.items source.new }
    ensures stays { S.stays source.old source.new }
    ensures cause { Cause (S.faults source.old) (S.faults source.new) (IsErrOf result Failed) }
{
    loop {
        let hand = bytes.len().min(HEAD_LIMIT);
        match parse_request(&bytes[..hand], lines) {
            Ok(Status::Complete(spans)) => return Ok(Some(spans)),
            Ok(Status::Partial) => {
                if hand == HEAD_LIMIT {
                    return Err(HttpFail::HeadTooLarge);
                }
                if read_more(source, bytes)? == 0 {
                    return Ok(None);
                }
            }
            Err(_) => return Err(HttpFail::BadHead),
        }
    }
}

ghost use Rattle.std.specs.Prelude.{◌≡◌};
ghost use Rattle.api.specs.inner.Kinds.{made_with};

use crate::read_kind::ReadKind;
use crate::route_kind::RouteKind;
use base_value::Text;
use model_requests::Routed;

/// What a line of the table asks for, without its texts.
#[derive(Debug, Clone, Copy)]
pub enum Kind {
    /// A request that isn't a read.
    To(RouteKind),
    /// A read.
    Reads(ReadKind),
}

impl Kind {
    /// The request, with the query string of the target and the parts of its path, as many as it takes.
    pub fn routed(self, pairs: Text, first: Text, second: Text, third: Text) -> Routed
        ensures { result ≡ made_with self pairs first second third }
    {
        match self {
            Kind::To(kind) => Routed::To(kind.route(pairs, first, second, third)),
            Kind::Reads(kind) => Routed::Reads(kind.read(pairs, first, second, third)),
        }
    }
}

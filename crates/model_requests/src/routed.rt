use crate::route::Route;
use model_reads::Read;

/// What a method and a target come to.
#[derive(Debug, Drop)]
pub enum Routed {
    /// This request.
    To(Route),
    /// This read.
    Reads(Read),
    /// No route has such a path.
    NotFound,
    /// The routes of the path have other methods.
    NotAllowed,
}

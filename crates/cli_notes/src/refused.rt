ghost use Rattle.std.specs.Prelude.{◌≡◌};
ghost use Rattle.cli_notes.specs.Refused.{refused_in};

/// What of an input is refused.
#[derive(Clone, Copy, Debug, PartialEq, Eq)]
pub enum Refused {
    /// A record of the CSV text.
    Csv,
    /// A cell of its heading.
    Heading,
}

/// What a refusal refuses, by the first bytes of an output. None if they are no refusal of a CSV text or its heading.
pub fn refused_in(front: &[u8]) -> Option<Refused>
    ensures { result ≡ refused_in front.now }
{
    if front.starts_with(b"refused: CSV_REFUSED:".as_slice()) {
        Some(Refused::Csv)
    } else if front.starts_with(b"refused: HEADING_REFUSED:".as_slice()) {
        Some(Refused::Heading)
    } else {
        None
    }
}

//! What has a text, and lists of it.

ghost use Rattle.std.specs.Prelude.{◌≡◌, ◌++◌, OnOk};
ghost use Rattle.std.specs.List.{join_by};
ghost use Rattle.std.specs.Str.{IsAscii};

use crate::writer::Writer;
use base_value::Text;
use std::alloc::{AllocError, Global};

/// What has a text in a query.
pub trait Printed {
    ghost use Rattle.std.specs.Prelude.{List, ℕ};

    /// The text.
    ghost printed: { Self → List ℕ };

    fn print(&self, alloc: Global, out: &mut Writer) -> Result<(), AllocError>
        ensures { OnOk result (out.new ≡ out.old ++ printed self.now) };
}

/// A name.
impl Printed for Text {
    ghost printed = { λ name. name };

    fn print(&self, _alloc: Global, out: &mut Writer) -> Result<(), AllocError> {
        out.text(self)
    }
}

/// The texts of all, with the same between any two.
pub fn join<T: Printed>(
    alloc: Global,
    out: &mut Writer,
    between: &str,
    all: &[T],
) -> Result<(), AllocError>
    requires { IsAscii between.now }
    ensures { OnOk result (out.new ≡ out.old ++ join_by T.printed between.now all.now) }
{
    let Some((first, more)) = all.split_first() else {
        return Ok(());
    };
    first.print(alloc, out)?;
    let mut rest = more;
    'more: while let Some((next, behind)) = rest.split_first() {
        out.word(between)?;
        next.print(alloc, out)?;
        rest = behind;
    }
    Ok(())
}

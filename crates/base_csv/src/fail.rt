ghost use Rattle.std.specs.Prelude.{◌≡◌};
ghost use Rattle.base_csv.specs.declared.fail.TableFail.TheVariants.{Memory};

use std::alloc::AllocError;
use thiserror::Error;

/// Why a source isn't read as a table.
#[derive(Clone, Copy, Debug, PartialEq, Eq, Error)]
pub enum TableFail {
    /// A record isn't UTF-8 or has another number of cells than the heading; `row` is the number of the first such
    /// record, 0 for the heading. It is also 0 where there is no record, and where the source begins with two byte
    /// order marks. `line` is that in which the record begins, and `column` that of its first cell which is missing, too
    /// many or not UTF-8, both from 1.
    #[error("record {row} is refused")]
    Refused {
        row: usize,
        line: usize,
        column: usize,
    },
    #[error("out of memory")]
    Memory,
}

impl From<AllocError> for TableFail {
    ghost from_gives = { λ _ e. e ≡ Memory };

    fn from(_error: AllocError) -> TableFail {
        TableFail::Memory
    }
}

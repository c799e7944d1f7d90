//! What is loaded.

ghost use Rattle.std.specs.Prelude.{◌≡◌, None};
ghost use Rattle.base_csv.specs.Table.{first_refused};

use base_value::Bytes;
use cmd_load_plan::LoadPlan;

/// A text none of whose records is refused, and how it is loaded.
#[derive(Drop)]
pub(crate) struct Input {
    pub(crate) plan: LoadPlan,
    pub(crate) text: Bytes,
    pub(crate) ghost whole: { first_refused text ≡ None },
}

//! A data row, seen in its bytes: they are read to their end once, and a slot is decoded when it is asked for.
//!
//! It depends on `base_value`, on `store_codec` for what a part is, and on `store_rows` for what a row is. Its contract: `RowView::of`
//! returns a view exactly if key and bytes spell a row, and the view's calls return the parts of that row, without a copy.
#![tactic(auto)]

mod fronts;
mod slots;
mod view;

pub use crate::view::RowView;

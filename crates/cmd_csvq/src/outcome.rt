use base_value::Bytes;
use model::Refusal;

/// What a query over a CSV text comes to.
#[derive(Drop)]
pub enum Outcome {
    /// A line of the selected names, and a line for each record that is found.
    Rows(Bytes),
    /// The query, the input or its heading is refused.
    Refused(Refusal),
    /// The record of the row with this number is refused. Rows are counted from 1.
    RefusedIn(u64, Refusal),
}

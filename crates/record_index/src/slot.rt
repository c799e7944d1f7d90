use base_value::Id;

/// One slot of a record.
#[derive(Clone, Copy, Debug)]
pub struct RecordSlot {
    /// The organisation's number.
    pub org: u32,
    /// The object's number.
    pub object: u16,
    /// The record's id.
    pub id: Id,
    /// The slot, below 48.
    pub slot: u8,
}

//! The view of a row.

ghost use Rattle.std.specs.Prelude.{◌≡◌, IfSome, option_map};
ghost use Rattle.std.specs.Str.{chars};
ghost use Rattle.store_rows.specs.Forms.{read_row};
ghost use Rattle.store_rows.specs.Keys.{record_key};
ghost use Rattle.store_rows.specs.Rows.{data_form};
ghost use Rattle.store_codec.specs.Plain.{whole};
ghost use Rattle.store_codec.specs.Shapes.{taken};
ghost use Rattle.store_view.specs.Slots.{slot_in};
ghost use Rattle.store_view.specs.Seen as seen;

use crate::fronts::{
    id_front, number_front, optional_id_front, optional_text_front, short_front, signed_front,
};
use crate::slots::{are_slots, slot_of};
use base_value::Id;
use std::marker::Model;

// How many slots a row has.
const SLOT_COUNT: u8 = 48;

// The parts that a key spells, all of it.
fn key_of(key: &[u8]) -> Option<(u32, (u16, Id))>
    ensures { result ≡ whole (taken record_key) key.now }
{
    match number_front(key) {
        Some((org, rest)) => match short_front(rest) {
            Some((object, rest)) => match id_front(rest) {
                Some((id, rest)) => {
                    if rest.is_empty() {
                        Some((org, (object, id)))
                    } else {
                        None
                    }
                }
                None => None,
            },
            None => None,
        },
        None => None,
    }
}

// The moments and the slots that bytes spell, all of them. The slots are left as they are spelled.
fn dated_of(bytes: &[u8]) -> Option<(i64, (i64, &[u8]))>
    ensures parts { option_map seen.dated result ≡ whole (taken seen.Dated) bytes.now }
    ensures slots { IfSome result (λ x. seen.is_whole x.1.1.now) }
{
    match signed_front(bytes) {
        Some((created, rest)) => match signed_front(rest) {
            Some((modified, slots)) => {
                if are_slots(slots, SLOT_COUNT) {
                    Some((created, (modified, slots)))
                } else {
                    None
                }
            }
            None => None,
        },
        None => None,
    }
}

// The owner and what follows it, all of the bytes.
fn owned_of(bytes: &[u8]) -> Option<(Option<Id>, (i64, (i64, &[u8])))>
    ensures parts { option_map seen.owned result ≡ whole (taken seen.Owned) bytes.now }
    ensures slots { IfSome result (λ x. seen.is_whole x.1.1.1.now) }
{
    match optional_id_front(bytes) {
        Some((owner, rest)) => match dated_of(rest) {
            Some(parts) => Some((owner, parts)),
            None => None,
        },
        None => None,
    }
}

// The parts that a row spells, all of it. The slots are left as they are spelled.
fn rest_of(row: &[u8]) -> Option<(Option<&str>, (Option<Id>, (i64, (i64, &[u8]))))>
    ensures parts { option_map seen.rest result ≡ whole (taken data_form.rest) row.now }
    ensures slots { IfSome result (λ x. seen.is_whole x.1.1.1.1.now) }
{
    match optional_text_front(row) {
        Some((name, rest)) => match owned_of(rest) {
            Some(parts) => Some((name, parts)),
            None => None,
        },
        None => None,
    }
}

/// A data row, seen in its bytes. Contracts see it as the row.
#[derive(Drop)]
pub struct RowView<'a> {
    org: u32,
    object: u16,
    id: Id,
    name: Option<&'a str>,
    owner: Option<Id>,
    created: i64,
    modified: i64,
    slots: &'a [u8],
}

impl<'a> Model for RowView<'a> {
    ghost use Rattle.std.specs.Prelude.{option_map};
    ghost use Rattle.std.specs.Str.{chars};
    ghost use Rattle.store_rows.specs.declared.data.DataRow.{DataRow};
    ghost use Rattle.store_view.specs.Seen.{is_whole, or_none, slots_in};

    ghost Value = { DataRow };

    ghost view = { λ v. record {
      org = v.org;
      object = v.object;
      id = v.id;
      name = option_map (λ t. chars t.now) v.name;
      owner = v.owner;
      created = v.created;
      modified = v.modified;
      slots = or_none (slots_in v.slots.now);
    } };

    ghost invariant = { λ v. is_whole v.slots.now };
}

impl<'a> RowView<'a> {
    /// The row that a key and bytes spell; none exactly if they spell none.
    pub fn of(key: &[u8], row: &'a [u8]) -> Option<RowView<'a>>
        ensures { result ≡ read_row data_form key.now row.now }
    {
        match key_of(key) {
            Some((org, (object, id))) => match rest_of(row) {
                Some((name, (owner, (created, (modified, slots))))) => Some(RowView {
                    org,
                    object,
                    id,
                    name,
                    owner,
                    created,
                    modified,
                    slots,
                }),
                None => None,
            },
            None => None,
        }
    }

    /// The organisation's number.
    pub fn org(&self) -> u32
        ensures { result ≡ self.now.org }
    {
        self.org
    }

    /// The object's number.
    pub fn object(&self) -> u16
        ensures { result ≡ self.now.object }
    {
        self.object
    }

    /// The record's id.
    pub fn id(&self) -> Id
        ensures { result ≡ self.now.id }
    {
        self.id
    }

    /// Its name.
    pub fn name(&self) -> Option<&'a str>
        ensures { option_map (λ s. chars s.now) result ≡ self.now.name }
    {
        self.name
    }

    /// Its owner. A detail has none.
    pub fn owner(&self) -> Option<Id>
        ensures { result ≡ self.now.owner }
    {
        self.owner
    }

    /// When it was created, in seconds from 1970-01-01T00:00:00Z.
    pub fn created(&self) -> i64
        ensures { result ≡ self.now.created }
    {
        self.created
    }

    /// When it was last changed, in seconds from 1970-01-01T00:00:00Z.
    pub fn modified(&self) -> i64
        ensures { result ≡ self.now.modified }
    {
        self.modified
    }

    /// What a slot holds, as printed; nothing where there is no such slot.
    pub fn slot(&self, slot: usize) -> Option<&'a str>
        ensures { option_map (λ s. chars s.now) result ≡ slot_in self.now.slots slot }
    {
        slot_of(self.slots, SLOT_COUNT, slot)
    }
}

//! How rows begin.

ghost use Rattle.std.specs.Prelude.{◌≡◌, ◌∷◌, ◌++◌, IfOk, OnOk, codes};
ghost use Rattle.std.specs.Str.{chars, encode_utf8_all};
ghost use Rattle.api_output.specs.Rows.{attributes_member, row_front};
ghost use Rattle.api_output.specs.Written.{Wrote};

use crate::parts::{addresses, write_mark, write_name, write_text_member};
use base_json::{Mark, Writer};
use base_value::{Bytes, Id, Text};
use std::alloc::{AllocError, Global};
use std::marker::Model;

/// How each row of an object begins, seen as the name of the object: a comma, its type, and its address up to the id. It is made once
/// a query.
#[derive(Drop)]
pub struct RowFront {
    object: Text,
    bytes: Bytes,
}

impl Model for RowFront {
    ghost use Rattle.std.specs.Prelude.{◌≡◌, List, ℕ};
    ghost use Rattle.std.specs.Str.{encode_utf8_all};
    ghost use Rattle.api_output.specs.Rows.{row_front};

    ghost Value = { List ℕ };

    ghost view = { λ f. f.object };

    ghost invariant = { λ f. f.bytes ≡ encode_utf8_all (row_front f.object) };
}

// The front of rows, and the quotation mark behind an address.
fn write_front(alloc: Global, writer: &mut Writer, object: &str) -> Result<(), AllocError>
    ensures { Wrote result writer.old writer.new (row_front (chars object.now) ++ codes "\"") }
{
    write_mark(alloc, writer, Mark::Comma)?;
    write_mark(alloc, writer, Mark::OpenObject)?;
    write_name(alloc, writer, "attributes")?;
    write_mark(alloc, writer, Mark::OpenObject)?;
    write_text_member(alloc, writer, "type", object)?;
    write_mark(alloc, writer, Mark::Comma)?;
    let addresses = addresses(alloc, object)?;
    write_text_member(alloc, writer, "url", addresses.as_str())
}

impl RowFront {
    /// The front of the rows of the object with this name.
    ///
    /// # Errors
    ///
    /// When out of memory.
    pub fn new(alloc: Global, object: &str) -> Result<RowFront, AllocError>
        ensures { IfOk result (λ front. front ≡ chars object.now) }
    {
        let mut writer = Writer::new(alloc);
        write_front(alloc, &mut writer, object)?;
        let mut bytes = writer.finish().into_vec();
        // Behind the address comes the id, and then the quotation mark.
        bytes.pop();
        let object = Text::from_str(alloc, object)?;
        Ok(RowFront {
            object,
            bytes: Bytes::from_vec(bytes),
        })
    }

    /// Begins the row of the record with this id.
    ///
    /// # Errors
    ///
    /// When out of memory.
    pub fn put(&self, id: &Id, out: &mut Vec<u8>) -> Result<(), AllocError>
        ensures { OnOk result (out.new.items
            ≡ out.old.items ++ encode_utf8_all (44 ∷ 123 ∷ attributes_member self.now id.now)) }
    {
        // That these are an id's characters.
        let _ = id.as_bytes();
        out.extend_from_slice(self.bytes.as_slice())?;
        out.extend_from_slice(&id.print18())?;
        out.extend_from_slice(b"\"}")?;
        Ok(())
    }
}

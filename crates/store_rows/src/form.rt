ghost use Rattle.std.specs.Prelude.{◌≡◌, ◌++◌, OnOk, IfOk, Some};
ghost use Rattle.store_codec.specs.Gives.{Gives};
ghost use Rattle.store_codec.specs.Shapes.{Val, spelled, FitsIn};
ghost use Rattle.store_rows.specs.Forms.{Form, FitsForm, key_bytes, row_bytes, read_row};

use base_value::Bytes;
use std::alloc::{AllocError, Global};
use store_codec::{CodecFail, Part, shape_laws};

/// A form of rows of one table.
pub trait RowForm {
    /// The parts of its key.
    type Key: Part;

    ghost form: { Form Self };

    // What contracts see of a key.
    ghost parts: { Self.Key → Val form.key };

    /// The number of its table.
    fn table() -> u8
        ensures { result ≡ form.table };

    /// Appends the parts of the row's key.
    ///
    /// # Errors
    ///
    /// If out of memory.
    fn put_key(&self, out: &mut Vec<u8>) -> Result<(), AllocError>
        requires { FitsIn form.key (form.keyed self.now) }
        ensures { OnOk result (out.new.items ≡ out.old.items ++ key_bytes form self.now) };

    /// Appends the other parts of the row.
    ///
    /// # Errors
    ///
    /// If out of memory.
    fn put_rest(&self, out: &mut Vec<u8>) -> Result<(), AllocError>
        requires { FitsIn form.rest (form.rested self.now) }
        ensures { OnOk result (out.new.items ≡ out.old.items ++ row_bytes form self.now) };

    /// The row that a key and bytes spell, made from their parts. Callers use `read`, which says the same of spellings.
    ///
    /// # Errors
    ///
    /// `Damaged` exactly if a key and bytes spell none, `Memory` if out of memory.
    fn of_parts(alloc: Global, key: &[u8], row: &[u8]) -> Result<Self, CodecFail>
        ensures { Gives result (read_row form key.now row.now) };

    // A key is spelled by its parts.
    ghost key_spelled: { (k : Self.Key) → Self.Key.spell k ≡ spelled form.key (parts k) };

    ghost key_fits: { (k : Self.Key) → FitsIn form.key (parts k) → Self.Key.Fits k };

    /// The row's key.
    ///
    /// # Errors
    ///
    /// If out of memory.
    final fn key(&self, alloc: Global) -> Result<Bytes, AllocError>
        requires { FitsIn form.key (form.keyed self.now) }
        ensures { IfOk result (λ b. b ≡ key_bytes form self.now) }
    {
        let mut out = Vec::new(alloc);
        self.put_key(&mut out)?;
        Ok(Bytes::from_vec(out))
    }

    /// The row's bytes.
    ///
    /// # Errors
    ///
    /// If out of memory.
    final fn write(&self, alloc: Global) -> Result<Bytes, AllocError>
        requires { FitsIn form.rest (form.rested self.now) }
        ensures { IfOk result (λ b. b ≡ row_bytes form self.now) }
    {
        let mut out = Vec::new(alloc);
        self.put_rest(&mut out)?;
        Ok(Bytes::from_vec(out))
    }

    /// The row that a key and bytes spell.
    ///
    /// # Errors
    ///
    /// `Damaged` exactly if they spell none, `Memory` if out of memory.
    final fn read(alloc: Global, key: &[u8], row: &[u8]) -> Result<Self, CodecFail>
        ensures found { IfOk result (λ u. (key.now ≡ key_bytes form u) × (row.now ≡ row_bytes form u) × FitsForm form u) }
        ensures only { (u : Self) → FitsForm form u → key.now ≡ key_bytes form u → row.now ≡ row_bytes form u → Gives result (Some u) }
    {
        shape_laws();
        Self::of_parts(alloc, key, row)
    }
}

//! What a read leaves.

ghost use Rattle.std.specs.Prelude.{◌≡◌, ℕ};
ghost use Rattle.model.specs.Paths.{Asked};
ghost use Rattle.model_reads.specs.Reads.{read_verdict};
ghost use Rattle.model_reads.specs.declared.read.Read.{Read};

/// A read leaves the organisation as it was. The call does nothing.
pub fn read_laws()
    ensures same { (org : ℕ) (a : Asked) (r : Read) → (read_verdict org a r).tenant ≡ a.tenant }
{}

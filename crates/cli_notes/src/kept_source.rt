ghost use Rattle.std.specs.Prelude.{◌≡◌, ◌++◌, [], None, Some, if◌then◌else◌};
ghost use Rattle.std.specs.Option.{option_map};
ghost use Rattle.cli_notes.specs.Copies.{AddsOrDrops, CopyGoesOn, copy_of, inner_source};
ghost use Rattle.cli_notes.specs.inner.CopyLaws.{CopyGoesOn-refl, CopyGoesOn-trans};

use base_io::{IoFail, Source};
use std::alloc::Global;

/// A source that hands on what another reads, and keeps a copy of it if asked to.
///
/// It asks the other source for nothing more than it is asked for. If memory for the copy runs out, the copy is dropped,
/// and reading goes on.
#[derive(Debug, Drop)]
pub struct KeptSource<S> {
    source: S,
    copy: Option<Vec<u8>>,
}

// Adds bytes to a copy, if there is one. It is dropped if memory runs out.
fn add_to(copy: &mut Option<Vec<u8>>, bytes: &[u8])
    ensures { AddsOrDrops (option_map (λ v. v.items) copy.old) (option_map (λ v. v.items) copy.new) bytes.now }
{
    let Some(kept) = copy else {
        return;
    };
    if kept.extend_from_slice(bytes).is_err() {
        *copy = None;
    }
}

impl<S> KeptSource<S> {
    /// The source that hands on what this one reads, and keeps a copy of it if `keeps`.
    pub fn new(alloc: Global, source: S, keeps: bool) -> KeptSource<S>
        ensures source { inner_source result ≡ source }
        ensures copy { copy_of result ≡ (if keeps then Some [] else None) }
    {
        KeptSource {
            source,
            copy: if keeps { Some(Vec::new(alloc)) } else { None },
        }
    }

    /// The bytes read so far, if they are kept.
    pub fn kept(&self) -> Option<&[u8]>
        ensures { option_map (λ bytes. bytes.now) result ≡ copy_of self.now }
    {
        match &self.copy {
            Some(copy) => Some(copy.as_slice()),
            None => None,
        }
    }
}

impl<S: Source> Source for KeptSource<S> {
    ghost left = { λ k. S.left (inner_source k) };

    ghost faults = { λ k. S.faults (inner_source k) };

    ghost stays = { λ a b. S.stays (inner_source a) (inner_source b)
        × CopyGoesOn (copy_of a) (S.left (inner_source a)) (copy_of b) (S.left (inner_source b)) };

    ghost stays_refl = { λ a.
        (S.stays_refl (inner_source a), CopyGoesOn-refl (copy_of a) (S.left (inner_source a))) };

    ghost stays_trans = { λ a b c h k. (
      S.stays_trans (inner_source a) (inner_source b) (inner_source c) h.0 k.0,
      CopyGoesOn-trans (copy_of a) (S.left (inner_source a)) (copy_of b) (S.left (inner_source b)) (copy_of c) (S.left (inner_source c)) h.1 k.1,
    ) };

    fn read(&mut self, into: &mut [u8]) -> Result<usize, IoFail> {
        let count = self.source.read(into)?;
        add_to(&mut self.copy, &into[..count]);
        Ok(count)
    }
}

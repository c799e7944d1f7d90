//! The next tokens: what readers of the parts of a grammar ask of them.

ghost use Rattle.std.specs.Prelude.{◌≡◌, ℕ, ◌∷◌, ◌-◌, ◌<◌, [], length, map, slice_index_or, IfOk, MatchOption};
ghost use Rattle.base_grammar.specs.Reader.{Gives, begins_with, elem, sign, taken};

use crate::fail::Fail;

/// The kinds of a language's tokens.
pub trait TokenKind: Copy {
    ghost number: { Self → ℕ };

    /// The number by which the definitions name the kind.
    fn number(self) -> u8
        ensures { result ≡ number self };
}

/// A token of a grammar, which has a kind.
pub trait Kinded {
    type Kind: TokenKind;

    ghost kind: { Self → ℕ };

    /// Its kind.
    fn kind(&self) -> Self::Kind
        ensures { Self.Kind.number result ≡ kind self.now };
}

/// The next token, and those behind it.
pub fn next<K>(tokens: &[K]) -> Option<(&K, &[K])>
    ensures { MatchOption result (tokens.now ≡ []) (λ p. tokens.now ≡ p.0.now ∷ p.1.now) }
{
    tokens.split_first()
}

// Whether the kind of this number is one of these.
fn is_one_of<T: TokenKind>(number: u8, kinds: &[T]) -> bool
    ensures { result ≡ elem number (map T.number kinds.now) }
{
    for kind in kinds {
        if number == kind.number() {
            return true;
        }
    }
    false
}

/// Whether a token of one of these kinds comes next.
pub fn begins_with<K: Kinded>(tokens: &[K], kinds: &[K::Kind]) -> bool
    ensures { result ≡ begins_with K.kind (map K.Kind.number kinds.now) tokens.now }
{
    match next(tokens) {
        Some((token, _)) => is_one_of(token.kind().number(), kinds),
        None => false,
    }
}

/// What was made of the next token, and the tokens behind it.
///
/// # Errors
///
/// `Stuck` if nothing was made of it, or no token is left.
pub fn taken<K, A: Drop>(found: Option<A>, tokens: &[K]) -> Result<(A, &[K]), Fail>
    ensures value { Gives (λ x. (x.0, x.1.now)) result (taken found tokens.now) }
    ensures shorter { IfOk result (λ x. length x.1.now < length tokens.now) }
{
    match next(tokens) {
        Some((_, rest)) => match found {
            Some(value) => Ok((value, rest)),
            None => Err(Fail::Stuck(tokens.len())),
        },
        None => Err(Fail::Stuck(0)),
    }
}

/// The tokens behind one of this kind.
///
/// # Errors
///
/// `Stuck` if no token of this kind comes next.
#[tactic(auto, unfolding(crate::specs::Reader::sign))]
pub fn skip<K: Kinded>(tokens: &[K], kind: K::Kind) -> Result<&[K], Fail>
    ensures value { Gives (λ rest. (tt, rest.now)) result (sign K.kind (K.Kind.number kind) tokens.now) }
    ensures shorter { IfOk result (λ rest. length rest.now < length tokens.now) }
{
    match next(tokens) {
        Some((token, rest)) => {
            if token.kind().number() == kind.number() {
                Ok(rest)
            } else {
                Err(Fail::Stuck(tokens.len()))
            }
        }
        None => Err(Fail::Stuck(0)),
    }
}

/// The byte at which the token begins from which on so many are left, or the end of the text.
pub(crate) fn place(starts: &[usize], left: usize, end: usize) -> usize
    ensures { result ≡ slice_index_or starts.now (length starts.now - left) end }
{
    match starts.get(starts.len().saturating_sub(left)) {
        Some(start) => *start,
        None => end,
    }
}

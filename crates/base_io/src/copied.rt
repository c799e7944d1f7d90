ghost use Rattle.std.specs.Prelude.{◌≡◌, ◌<◌, ◌≤◌, ◌+◌, ◌-◌, ◌++◌, [], drop, length, min, take};

// Copies as many bytes from a place on as a piece has room for, to the start of the piece.
pub(crate) fn copy_from(bytes: &[u8], at: usize, into: &mut [u8]) -> usize
    requires { at ≤ length bytes.now }
    ensures count { result ≡ min (length into.old) (length (drop at bytes.now)) }
    ensures within { at + result ≤ length bytes.now }
    ensures moved { drop at bytes.now ≡ take result into.new ++ drop (at + result) bytes.now }
    ensures all { result ≡ 0 → 0 < length into.new → drop (at + result) bytes.now ≡ [] }
{
    let count = into.len().min(bytes.len() - at);
    into[..count].copy_from_slice(&bytes[at..at + count]);
    count
}

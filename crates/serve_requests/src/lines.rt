//! Lines among bytes.

ghost use Rattle.std.specs.Prelude.{◌≡◌, ◌<◌, ◌++◌, ◌∷◌, MatchOption, length, false};
ghost use Rattle.serve_requests.specs.Requests.{has_lf, without_cr};

use memchr::memchr;

/// Returns a line without the CR at its end, if it has one.
pub(crate) fn without_cr(line: &[u8]) -> &[u8]
    ensures { result.now ≡ without_cr line.now }
{
    let n = line.len();
    if n > 0 && line[n - 1] == b'\r' {
        let (front, _) = line.split_at(n - 1);
        front
    } else {
        line
    }
}

/// Returns the bytes before the first LF and those after it; `None` where there is no LF.
pub(crate) fn split_at_lf(bytes: &[u8]) -> Option<(&[u8], &[u8])>
    ensures { MatchOption result (has_lf bytes.now ≡ false)
        (λ r. (bytes.now ≡ r.0.now ++ 10 ∷ r.1.now) × (has_lf r.0.now ≡ false)
        × (length r.1.now < length bytes.now)) }
{
    let Some(n) = memchr(b'\n', bytes) else {
        return None;
    };
    let (line, rest) = bytes.split_at(n);
    let (_, after) = rest.split_at(1);
    Some((line, after))
}

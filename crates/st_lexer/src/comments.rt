//! Where a comment ends.

ghost use Rattle.std.specs.Prelude.{◌≡◌, ◌≤◌, length, IfSome};
ghost use Rattle.st_lexer.specs.Reading.{closing_len, line_len};

use crate::bytes::begins_with;

/// How many bytes a comment has after its two opening bytes, up to the first `*` that this byte follows; `None` where
/// it stays open.
pub fn closing_len(mark: u8, inner: &[u8]) -> Option<usize>
    ensures found { result ≡ closing_len 0 mark inner.now }
    ensures within { IfSome result (λ n. n ≤ length inner.now) }
{
    for (i, byte) in inner.iter().enumerate() {
        if *byte == b'*' && begins_with(mark, &inner[i + 1..]) {
            return Some(i + 2);
        }
    }
    None
}

/// How many bytes a comment has after `//`: up to the next LF, or the end of the text.
#[tactic(auto, unfolding(crate::specs::Reading::line_len))]
pub fn line_len(inner: &[u8]) -> usize
    ensures found { result ≡ line_len inner.now }
    ensures within { result ≤ length inner.now }
{
    let mut n = 0;
    for byte in inner {
        if *byte == b'\n' {
            return n;
        }
        n += 1;
    }
    n
}

//! Where a head ends.

ghost use Rattle.std.specs.Prelude.{◌≡◌, ◌≤◌, length, take, IfNone, IfSome};
ghost use Rattle.http_requests.specs.Heads.{HasNoEnd, IsHeadText, ends_head};
ghost use Rattle.http_requests.specs.Limits.{head_limit};

/// The length of the head that the bytes begin with. The first `searched` of them are known to hold no end of one.
pub(crate) fn head_end(bytes: &[u8], searched: usize) -> Option<usize>
    requires limit { length bytes.now ≤ head_limit }
    requires within { searched ≤ length bytes.now }
    requires searched { HasNoEnd (take searched bytes.now) }
    ensures within { IfSome result (λ end. end ≤ length bytes.now) }
    ensures found { IfSome result (λ end. IsHeadText (take end bytes.now)) }
    ensures none { IfNone result (HasNoEnd bytes.now) }
{
    for end in searched + 1..bytes.len() + 1 {
        if ends_head(&bytes[..end]) {
            return Some(end);
        }
    }
    None
}

// Whether the bytes end with an empty line behind a line.
fn ends_head(bytes: &[u8]) -> bool
    ensures { result ≡ ends_head bytes.now }
{
    bytes.ends_with(b"\n\n") || bytes.ends_with(b"\n\r\n")
}

// A stretch of the file, handed back as that part of the caller's own bytes.
#![tactic(auto)]

ghost use Rattle.std.specs.Prelude.{◌≡◌, ◌+◌, ◌≤◌, length};
ghost use Rattle.stretch.specs.Stretch.{bytes_of, StretchOf};

// A stretch of the file.
#[derive(Clone, Copy)]
pub struct Span {
    pub start: usize,
    pub len: usize,
}

// A stretch of a lent slice, as that part of it; what the slice has of it, where it runs past the end.
pub fn stretch_of(s: &[u8], p: Span) -> &[u8]
    ensures { StretchOf s.entry p result }
{
    let start = p.start.min(s.len());
    let end = start + p.len.min(s.len() - start);
    &s[start..end]
}

// The bytes of a stretch.
// Kept: no plainer without it: each of its callers would take the bytes out of the three promises of `stretch_of`.
pub fn bytes(s: &[u8], p: Span) -> &[u8]
    ensures { result.now ≡ bytes_of s.now p }
{
    stretch_of(s, p)
}

// The bytes of a stretch that lies within the slice: nothing is compared.
// Kept: no plainer without it: each of its callers would write the range out, or ask `bytes` to compare what they know.
#[tactic(auto, unfolding(crate::specs::Stretch::bytes_of))]
pub fn within(s: &[u8], p: Span) -> &[u8]
    requires { p.start + p.len ≤ length s.now }
    ensures { result.now ≡ bytes_of s.now p }
{
    &s[p.start..p.start + p.len]
}

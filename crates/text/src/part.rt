// Texts as places in another.
ghost use Rattle.std.specs.Prelude.{◌≡◌};
ghost use Rattle.text.specs.Parts.{part_of};

#[derive(Clone, Copy)]
pub struct Part {
    pub start: usize,
    pub len: usize,
}

// The bytes of a part, as many of them as there are.
pub fn bytes_of(s: &[u8], p: Part) -> &[u8]
    ensures { result.now ≡ part_of s.now p }
{
    let start = p.start;
    let len = p.len;
    if s.len() <= start {
        return &s[s.len()..];
    }
    if s.len() - start <= len {
        return &s[start..];
    }
    let end = start + len;
    &s[start..end]
}

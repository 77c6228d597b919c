ghost use Rattle.std.specs.Prelude.{ℕ, ◌≡◌, ◌≤◌, ◌<◌, ◌+◌, length, get_or, slice_range, IsCharBoundary, IsUtf8};
ghost use Rattle.al_spec.specs.Bytes.{at, is_cut, is_blank, begins_name, goes_on, begun, Run, First, cut, cut_front, cut_back};
ghost use Rattle.al_spec.specs.declared.bytes.Begins.TheVariants as begins;

use memchr::memchr;

/// What a byte begins.
#[derive(Clone, Copy, Debug, Drop)]
pub enum Begins {
    /// A blank, which is one byte.
    Blank,
    /// A comment.
    Comment,
    /// A word or a plain name.
    Name,
    /// A name in double quotes.
    Quote,
    /// A block.
    Block,
    /// A marker.
    Paren,
    /// No token.
    Nothing,
}

pub fn at(text: &[u8], place: usize) -> u8
    ensures { result ≡ at text.now place }
{
    match text.get(place) {
        Some(byte) => *byte,
        None => 0,
    }
}

pub fn is_cut(byte: u8) -> bool
    ensures { result ≡ is_cut byte }
{
    byte == b' ' || byte == b'\t' || byte == b'\r' || byte == b'\x0c'
}

fn is_blank(byte: u8) -> bool
    ensures { result ≡ is_blank byte }
{
    is_cut(byte) || byte == b'\n'
}

/// Whether a byte begins a plain name.
pub fn begins_name(byte: u8) -> bool
    ensures { result ≡ begins_name byte }
{
    byte.is_ascii_alphabetic() || byte == b'_' || 128 <= byte
}

/// Whether a byte goes on a plain name.
pub fn goes_on(byte: u8) -> bool
    ensures { result ≡ goes_on byte }
{
    begins_name(byte) || byte.is_ascii_digit() || byte == b'$'
}

#[tactic(auto, unfolding(crate::specs::Bytes::begun))]
pub fn begun(byte: u8) -> Begins
    ensures { result ≡ begun byte }
{
    if is_blank(byte) {
        return Begins::Blank;
    }
    if byte == b'#' {
        return Begins::Comment;
    }
    if begins_name(byte) {
        return Begins::Name;
    }
    if byte == b'"' {
        return Begins::Quote;
    }
    if byte == b'{' {
        return Begins::Block;
    }
    if byte == b'(' {
        return Begins::Paren;
    }
    Begins::Nothing
}

/// The end of the bytes that go on a name from a place on.
pub fn run_end(text: &[u8], from: usize) -> usize
    requires from_within { from ≤ length text.now }
    ensures { Run text.now from result }
{
    let mut end = from;
    while end < text.len() && goes_on(text[end]) {
        end += 1;
    }
    end
}

/// The first place of a byte from one place on and before another, or that other one.
pub fn seek(byte: u8, text: &[u8], from: usize, to: usize) -> usize
    requires rises { from ≤ to }
    requires within { to ≤ length text.now }
    ensures { First byte text.now from to result }
{
    match memchr(byte, &text[from..to]) {
        None => to,
        Some(after) => from + after,
    }
}

// The first byte of a block's text that isn't cut, or the block's end.
fn cut_from(text: &str, start: usize, close: usize) -> usize
    requires rises { start ≤ close }
    requires within { close < length text.now }
    requires boundary { IsCharBoundary text.now start }
    ensures rises { result ≤ close }
    ensures cut { cut_front (slice_range text.now start close) ≡ slice_range text.now result close }
    ensures boundary { IsCharBoundary text.now result }
{
    let bytes = text.as_bytes();
    let mut from = start;
    while from < close && is_cut(bytes[from]) {
        from += 1;
    }
    from
}

// The end of a block's text without what is cut.
fn cut_to(text: &[u8], from: usize, close: usize) -> usize
    requires rises { from ≤ close }
    requires within { close < length text.now }
    requires small { at text.now close < 128 }
    ensures from { from ≤ result }
    ensures to { result ≤ close }
    ensures cut { cut_back (slice_range text.now from close) ≡ slice_range text.now from result }
    ensures small { at text.now result < 128 }
{
    let mut to = close;
    while from < to && is_cut(text[to - 1]) {
        to -= 1;
    }
    to
}

/// A block's text, without the bytes that are cut at both ends.
pub fn trimmed<'a>(text: &'a str, start: usize, close: usize) -> &'a str
    requires rises { start ≤ close }
    requires within { close < length text.now }
    requires boundary { IsCharBoundary text.now start }
    requires small { at text.now close < 128 }
    ensures { result.now ≡ cut (slice_range text.now start close) }
{
    let from = cut_from(text, start, close);
    let to = cut_to(text.as_bytes(), from, close);
    &text[from..to]
}

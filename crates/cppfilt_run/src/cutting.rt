//! Cutting bytes into lines.

ghost use Rattle.std.specs.Prelude.{◌≡◌, ◌+◌, ◌≤◌, length, take, drop, MatchOption, fold, false, ◌==◌, ◌||◌};
ghost use Rattle.cppfilt_lines.specs.Lines.{before_feed, body};

/// The byte that ends a line.
pub(crate) const LINE_FEED: u8 = 10;

const CARRIAGE_RETURN: u8 = 13;

/// How many bytes a line has before its ending: a line feed, if there is one, and one carriage return before it, or else
/// at the end.
pub(crate) fn body_len(line: &[u8]) -> usize
    ensures bytes { body line.now ≡ take result line.now }
    ensures within { result ≤ length line.now }
{
    let without_feed = match line {
        [front @ .., LINE_FEED] => front,
        _ => line,
    };
    match without_feed {
        [front @ .., CARRIAGE_RETURN] => front.len(),
        _ => without_feed.len(),
    }
}

/// How many bytes are tested together.
pub(crate) const CHUNK: usize = 32;

/// Whether there is a line feed. Every byte is looked at, so that several can be tested at once.
fn has_line_feed(bytes: &[u8]) -> bool
    ensures { result ≡ fold (λ seen byte. seen || (byte == 10)) false bytes.now }
{
    bytes
        .iter()
        .fold(false, |seen, byte| seen | (*byte == LINE_FEED))
}

/// How many bytes at the front have no line feed, chunk by chunk.
fn clear_chunks(bytes: &[u8]) -> usize
    ensures within { result ≤ length bytes.now }
    ensures clear { before_feed bytes.now ≡ result + before_feed (drop result bytes.now) }
{
    let mut clear = 0;
    while bytes.len() - clear >= CHUNK && !has_line_feed(&bytes[clear..clear + CHUNK]) {
        clear += CHUNK;
    }
    clear
}

/// How many bytes there are through the first line feed, byte by byte; `None` where there is no line feed.
fn through_near_feed(bytes: &[u8]) -> Option<usize>
    ensures { MatchOption result (before_feed bytes.now ≡ length bytes.now)
        (λ end. (before_feed bytes.now + 1 ≡ end) × (end ≤ length bytes.now)) }
{
    bytes
        .iter()
        .position(|byte| *byte == LINE_FEED)
        .map(|at| at + 1)
}

/// How many bytes there are through the first line feed; `None` where there is no line feed.
pub(crate) fn through_line_feed(bytes: &[u8]) -> Option<usize>
    ensures { MatchOption result (before_feed bytes.now ≡ length bytes.now)
        (λ end. (before_feed bytes.now + 1 ≡ end) × (end ≤ length bytes.now)) }
{
    let clear = clear_chunks(bytes);
    through_near_feed(&bytes[clear..]).map(|end| clear + end)
}

// Counts over the lines of a text, each in one pass over its bytes: lines split off one by one take up to three times the time where
// they are short. None of them wraps, since it is at most the text's length.
ghost use Rattle.std.specs.Prelude.{◌≡◌, ◌==◌, ◌≤◌, max, length, fold, count_by};
ghost use Rattle.line_ends.specs.LineEnds.{parts, dotted, breadth, line_feeds, leading_dots, widest};

// How many lines are ended.
pub fn count_lines(text: &[u8]) -> usize
    ensures feeds { result ≡ line_feeds text.now }
    ensures count { result ≡ count_by (λ b. b == 10) text.now }
{
    text.iter().fold(
        0usize,
        |lines, b| lines.wrapping_add(usize::from(*b == b'\n')),
    )
}

// How many lines begin with a dot.
pub fn count_leading_dots(text: &[u8]) -> usize
    ensures dots { result ≡ leading_dots 10 text.now }
    ensures lines { result ≡ count_by dotted (parts text.now) }
    ensures few { result ≤ length text.now }
{
    text.iter()
        .fold((b'\n', 0usize), |(before, dots), b| {
            (
                *b,
                dots.wrapping_add(usize::from(*b == b'.' && before == b'\n')),
            )
        })
        .1
}

// The widest line: its bytes but for 0D and 0A.
pub fn widest_line(text: &[u8]) -> usize
    ensures width { result ≡ widest 0 0 text.now }
    ensures lines { result ≡ fold (λ best line. max best (breadth line)) 0 (parts text.now) }
{
    let (width, best) = text
        .iter()
        .fold((0usize, 0usize), |(width, best), b| match b {
            b'\n' => (0, best.max(width)),
            b'\r' => (width, best),
            _ => (width.wrapping_add(1), best),
        });
    best.max(width)
}

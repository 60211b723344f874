//! The lines of a mailbox.
ghost use Rattle.std.specs.Prelude.{◌≡◌, ◌<◌, ◌==◌, ◌^◌, [], ◌∷◌, ◌++◌, IfSome, length, option_map};
ghost use Rattle.std.specs.List.{slice_split};
ghost use Rattle.ssim_mailbox.specs.Lines.{begins_with_dot, drop_while, drop_while_at_end};
ghost use Rattle.ssim_mailbox.specs.Lines.{is_control, is_dropped_at_end, lines_in, shown};
ghost use Rattle.ssim_mailbox.specs.internal.Lines.{IsNextLine, line_of, lines_left, pieces_left};
ghost use Rattle.ssim_mailbox.specs.internal.Lines.{split_rest};

/// A line of a mailbox.
#[derive(Clone, Copy)]
pub(crate) struct MailboxLine<'a> {
    /// Its number among all lines, from 1.
    pub number: usize,
    /// Its bytes, without control characters at both ends, nor blanks and CR bytes at the end.
    pub bytes: &'a [u8],
    /// Whether the last line above it that is not empty begins with a dot.
    pub under_dot: bool,
}

fn is_control(byte: u8) -> bool
    ensures { result ≡ is_control byte }
{
    1 <= byte && byte <= 3
}

fn is_dropped_at_end(byte: u8) -> bool
    ensures { result ≡ is_dropped_at_end byte }
{
    is_control(byte) || byte == b'\r' || byte == b' '
}

fn drop_controls(line: &[u8]) -> &[u8]
    ensures { result.now ≡ drop_while is_control line.now }
{
    let mut line = line;
    while let [first, rest @ ..] = line {
        if !is_control(*first) {
            return line;
        }
        line = rest;
    }
    line
}

fn drop_end(line: &[u8]) -> &[u8]
    ensures { result.now ≡ drop_while_at_end is_dropped_at_end line.now }
{
    let mut line = line;
    while let [rest @ .., last] = line {
        if !is_dropped_at_end(*last) {
            return line;
        }
        line = rest;
    }
    line
}

/// A line as it is read.
pub(crate) fn shown(line: &[u8]) -> &[u8]
    ensures { result.now ≡ shown line.now }
{
    drop_end(drop_controls(line))
}

pub(crate) fn begins_with_dot(line: &[u8]) -> bool
    ensures { result ≡ begins_with_dot line.now }
{
    matches!(line, [b'.', ..])
}

/// The bytes before the first `mark`, and those after it, if there is one.
pub(crate) fn split_once(bytes: &[u8], mark: u8) -> (&[u8], Option<&[u8]>)
    ensures parts { slice_split (λ b. b == mark) bytes.now
        ≡ result.0.now ∷ split_rest mark (option_map (λ r. r.now) result.1) }
    ensures shorter { IfSome result.1 (λ r. length r.now < length bytes.now) }
{
    for (at, byte) in bytes.iter().enumerate() {
        if *byte == mark {
            return (&bytes[..at], Some(&bytes[at + 1..]));
        }
    }
    (bytes, None)
}

/// The bytes before the last `mark`, if there is one, and those after it.
pub(crate) fn rsplit_once(bytes: &[u8], mark: u8) -> (Option<&[u8]>, &[u8])
    ensures parts { slice_split (λ b. b == mark) bytes.now
        ≡ split_rest mark (option_map (λ r. r.now) result.0) ++ result.1.now ∷ [] }
    ensures shorter { IfSome result.0 (λ r. length r.now < length bytes.now) }
{
    let mut rest = bytes;
    while let [before @ .., last] = rest {
        if *last == mark {
            return (Some(before), &bytes[rest.len()..]);
        }
        rest = before;
    }
    (None, bytes)
}

/// The lines of a mailbox from one on.
#[derive(Clone, Copy)]
pub(crate) struct Lines<'a> {
    /// The bytes from the line on, if there is one.
    rest: Option<&'a [u8]>,
    /// How many lines are above it.
    pub above: usize,
    /// Whether the last line above it that is not empty begins with a dot.
    under_dot: bool,
}

impl<'a> Lines<'a> {
    /// The lines of a mailbox.
    pub(crate) fn new(mailbox: &'a [u8]) -> Lines<'a>
        ensures lines { lines_left result ≡ lines_in mailbox.now }
        ensures pieces { pieces_left result ≡ slice_split (λ b. b == 10) mailbox.now }
        ensures above { result.above ≡ 0 }
    {
        Lines {
            rest: Some(mailbox),
            above: 0,
            under_dot: false,
        }
    }

    /// The next line.
    pub(crate) fn next(&mut self) -> Option<MailboxLine<'a>>
        requires { self.old.above < 2 ^ 63 }
        ensures { IsNextLine (option_map line_of result) self.old self.new }
    {
        let (line, rest) = split_once(self.rest?, b'\n');
        let line = MailboxLine {
            number: self.above + 1,
            bytes: shown(line),
            under_dot: self.under_dot,
        };
        self.rest = rest;
        self.above += 1;
        if !line.bytes.is_empty() {
            self.under_dot = begins_with_dot(line.bytes);
        }
        Some(line)
    }
}

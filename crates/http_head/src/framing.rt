//! Request framing: the search for the empty line that ends the head (RFC 9112, section 2.1).
ghost use Rattle.std.specs.Prelude.{◌≡◌, ◌≤◌, ◌+◌, ◌<◌, ◌++◌, ℕ, List, length, Some, None, IfSome, IfNone};
ghost use Rattle.http_head.specs.Framing.{is_empty, longer, scan_start, ends_head, end_from, after};

/// The state of the line that a scan is in.
#[derive(Clone, Copy, Debug, PartialEq, Eq)]
pub enum LineState {
    /// No byte of the line was read.
    Fresh,
    /// Only a CR was read.
    Returned,
    /// The line is not empty.
    Filled,
}

impl LineState {
    // Whether the line is empty if it ends here.
    fn is_empty(self) -> bool
        ensures { result ≡ is_empty self }
    {
        match self {
            LineState::Fresh => true,
            LineState::Returned => true,
            LineState::Filled => false,
        }
    }

    // The line with one more byte.
    fn longer(self, byte: u8) -> LineState
        ensures { result ≡ longer self byte }
    {
        match self {
            LineState::Fresh => {
                if byte == b'\r' {
                    LineState::Returned
                } else {
                    LineState::Filled
                }
            }
            LineState::Returned => LineState::Filled,
            LineState::Filled => LineState::Filled,
        }
    }
}

/// The state of the search for the end of the head.
#[derive(Clone, Copy, Debug)]
pub struct Scan {
    /// The number of bytes scanned.
    pub at: usize,
    /// The number of lines read that are not empty.
    pub lines: usize,
    /// The present line.
    pub line: LineState,
}

/// The end of a head.
#[derive(Clone, Copy, Debug)]
pub struct HeadEnd {
    /// The length of the head in bytes, its empty line included.
    pub length: usize,
    /// The number of its lines that are not empty, the request line included.
    pub lines: usize,
}

impl Scan {
    pub(crate) fn start() -> Scan
        ensures { result ≡ scan_start }
    {
        Scan {
            at: 0,
            lines: 0,
            line: LineState::Fresh,
        }
    }

    // Whether the byte ends an empty line after one that is not empty.
    fn ends_head(&self, byte: u8) -> bool
        ensures { result ≡ ends_head self.now byte }
    {
        byte == b'\n' && self.line.is_empty() && self.lines > 0
    }

    // Scans one more byte.
    fn step(&mut self, byte: u8)
        requires room { self.old.at < 16384 }
        requires sane { self.old.lines ≤ self.old.at }
        ensures { self.new ≡ after self.old byte }
    {
        if byte == b'\n' {
            if !self.line.is_empty() {
                self.lines += 1;
            }
            self.line = LineState::Fresh;
        } else {
            self.line = self.line.longer(byte);
        }
        self.at += 1;
    }

    /// Scans further bytes, up to the end of the head.
    pub(crate) fn go_on(&mut self, bytes: &[u8]) -> Option<HeadEnd>
        requires sane { self.old.lines ≤ self.old.at }
        requires room { self.old.at + length bytes.now ≤ 16384 }
        ensures found { IfSome result (λ end. (more : List ℕ) →
            end_from self.old (bytes.now ++ more) ≡ Some (end.length, end.lines)) }
        ensures within { IfSome result (λ end. end.length ≤ self.old.at + length bytes.now) }
        ensures more { IfNone result ((more : List ℕ) →
            end_from self.old (bytes.now ++ more) ≡ end_from self.new more) }
        ensures at { IfNone result (self.new.at ≡ self.old.at + length bytes.now) }
        ensures still_sane { self.new.lines ≤ self.new.at }
    {
        for byte in bytes {
            if self.ends_head(*byte) {
                return Some(HeadEnd {
                    length: self.at + 1,
                    lines: self.lines,
                });
            }
            self.step(*byte);
        }
        None
    }
}

//! The refusals that the head of a request alone decides.
ghost use Rattle.std.specs.Prelude.{◌≡◌};
ghost use Rattle.http_head.specs.Refusals.{head_number, head_name, head_status};

/// Why the head of a request is refused.
#[derive(Clone, Copy, Debug, PartialEq, Eq)]
pub enum HeadRefusal {
    /// The head has more than 16384 bytes or more than 65 non-empty lines (status 431).
    HeadTooLong,
    /// The head is malformed, or its `Content-Length` is no number of 1 to 9 digits or is repeated (400).
    BadHead,
    /// `Host` is missing in HTTP/1.1, or is repeated (400).
    BadHost,
    /// The request has a `Transfer-Encoding` (501).
    NotImplemented,
    /// A POST has no `Content-Length` (411).
    NoLength,
    /// The body is longer than 65536 bytes (413).
    TooLong,
}

impl HeadRefusal {
    /// The error number in the reply.
    pub fn number(self) -> u16
        ensures { result ≡ head_number self }
    {
        match self {
            HeadRefusal::HeadTooLong => 86,
            HeadRefusal::BadHead => 80,
            HeadRefusal::BadHost => 88,
            HeadRefusal::NotImplemented => 87,
            HeadRefusal::NoLength => 84,
            HeadRefusal::TooLong => 85,
        }
    }

    /// The error name in the reply.
    pub fn name(self) -> &'static str
        ensures { result.now ≡ head_name self }
    {
        match self {
            HeadRefusal::HeadTooLong => "HeadTooLong",
            HeadRefusal::BadHead => "BadHead",
            HeadRefusal::BadHost => "BadHost",
            HeadRefusal::NotImplemented => "NotImplemented",
            HeadRefusal::NoLength => "NoLength",
            HeadRefusal::TooLong => "TooLong",
        }
    }

    /// The HTTP status of the reply.
    pub fn status(self) -> u16
        ensures { result ≡ head_status self }
    {
        match self {
            HeadRefusal::HeadTooLong => 431,
            HeadRefusal::BadHead => 400,
            HeadRefusal::BadHost => 400,
            HeadRefusal::NotImplemented => 501,
            HeadRefusal::NoLength => 411,
            HeadRefusal::TooLong => 413,
        }
    }
}

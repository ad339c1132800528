//! The reasons why a record is refused.

ghost use Rattle.std.specs.Prelude.{◌≡◌};
ghost use Rattle.club_rules.specs.RecordRefusal.{by_format, record_refusal_number, record_refusal_name};
ghost use Rattle.club_rules.specs.internal.RecordRefusal.{record_refusal_text};

use crate::records::RecordFormat;
use crate::refusals::MoveRefusal;
use std::fmt;

/// The reason why a record is refused. Plies count from 1; each format has its own refusal numbers.
#[derive(Clone, Copy, Debug, PartialEq, Eq)]
pub enum RecordRefusal {
    /// Syntax error: at this byte of a PDN text, counted from 0, or on this line of a CSA text, counted from 1.
    BadText(RecordFormat, usize),
    /// CSA: the text does not begin with a supported version.
    Version,
    /// PDN: the `GameType` tag names another kind of draughts.
    OtherType,
    /// The game does not begin from the club's initial position.
    OtherOpening(RecordFormat),
    /// PDN: two or more legal captures match the text of this ply.
    Ambiguous {
        ply: usize,
    },
    /// The move of this ply is illegal, with the reason.
    Illegal {
        format: RecordFormat,
        ply: usize,
        cause: MoveRefusal,
    },
    /// The rules had ended the game before this ply.
    AfterEnd {
        format: RecordFormat,
        ply: usize,
    },
    /// The record does not state how the game ended.
    Unfinished(RecordFormat),
    /// The result differs from the rules' result or from the text's own `Result` tag.
    ResultDiffers(RecordFormat),
}

fn by_format(format: RecordFormat, pdn: u8, csa: u8) -> u8
    ensures { result ≡ by_format format pdn csa }
{
    match format {
        RecordFormat::Pdn => pdn,
        RecordFormat::Csa => csa,
    }
}

impl RecordRefusal {
    /// The number of the refusal: 20 to 27 for a PDN text, 40 to 46 for a CSA text.
    pub fn number(self) -> u8
        ensures { result ≡ record_refusal_number self }
    {
        match self {
            RecordRefusal::BadText(format, _) => by_format(format, 20, 40),
            RecordRefusal::Version => 41,
            RecordRefusal::OtherType => 23,
            RecordRefusal::OtherOpening(format) => by_format(format, 24, 42),
            RecordRefusal::Ambiguous { ply: _ } => 21,
            RecordRefusal::Illegal {
                format,
                ply: _,
                cause: _,
            } => by_format(format, 22, 43),
            RecordRefusal::AfterEnd { format, ply: _ } => by_format(format, 26, 45),
            RecordRefusal::Unfinished(format) => by_format(format, 25, 44),
            RecordRefusal::ResultDiffers(format) => by_format(format, 27, 46),
        }
    }

    /// The name of the refusal, without its parameters.
    pub fn name(self) -> &'static str
        ensures { result.now ≡ record_refusal_name self }
    {
        match self {
            RecordRefusal::BadText(_, _) => "BadText",
            RecordRefusal::Version => "Version",
            RecordRefusal::OtherType => "OtherType",
            RecordRefusal::OtherOpening(_) => "OtherOpening",
            RecordRefusal::Ambiguous { ply: _ } => "Ambiguous",
            RecordRefusal::Illegal {
                format: _,
                ply: _,
                cause: _,
            } => "Illegal",
            RecordRefusal::AfterEnd { format: _, ply: _ } => "AfterEnd",
            RecordRefusal::Unfinished(_) => "Unfinished",
            RecordRefusal::ResultDiffers(_) => "ResultDiffers",
        }
    }
}

/// Writes the number, the name and the parameters, separated by spaces: `20 BadText 0` or `41 Version`. The text is `22
/// Illegal 3 11` if the move of ply 3 is refused with number 11.
impl fmt::Display for RecordRefusal {
    ghost use Rattle.std.specs.Prelude.{Some};

    ghost output = { λ refusal. Some (record_refusal_text refusal) };

    fn fmt<W: fmt::Write>(&self, f: &mut fmt::Formatter<W>) -> fmt::Result {
        let number = self.number();
        let name = self.name();
        write!(f, "{number} {name}")?;
        match self {
            RecordRefusal::BadText(_, place) => write!(f, " {place}"),
            RecordRefusal::Ambiguous { ply } => write!(f, " {ply}"),
            RecordRefusal::Illegal {
                format: _,
                ply,
                cause,
            } => {
                let by = cause.number();
                write!(f, " {ply} {by}")
            }
            RecordRefusal::AfterEnd { format: _, ply } => write!(f, " {ply}"),
            _ => Ok(()),
        }
    }
}

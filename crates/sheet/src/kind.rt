// The kinds of sections.
ghost use Rattle.std.specs.Prelude.{◌≡◌, ok_or};
ghost use Rattle.sheet.specs.declared.fault.Problem.TheVariants.{UnknownKind};
ghost use Rattle.sheet.specs.Formats.{kind_of, head_size, term_size};

use crate::fault::Problem;

#[derive(Clone, Copy)]
pub enum Kind {
    Enrols,
    Enters,
    Transfers,
    Meters,
}

impl TryFrom<u8> for Kind {
    type Error = Problem;

    ghost try_from_gives = { λ number r. r ≡ ok_or (kind_of number) UnknownKind };

    fn try_from(number: u8) -> Result<Kind, Problem> {
        match number {
            1 => Ok(Kind::Enrols),
            2 => Ok(Kind::Enters),
            3 => Ok(Kind::Transfers),
            4 => Ok(Kind::Meters),
            _ => Err(Problem::UnknownKind),
        }
    }
}

impl Kind {
    // How many bytes the head of an item takes.
    pub(crate) fn head_size(self) -> usize
        ensures { result ≡ head_size self }
    {
        match self {
            Kind::Enrols => 1,
            Kind::Enters => 4,
            Kind::Transfers => 8,
            Kind::Meters => 1,
        }
    }

    // How many bytes the term of an item takes.
    pub(crate) fn term_size(self) -> usize
        ensures { result ≡ term_size self }
    {
        match self {
            Kind::Enrols => 5,
            Kind::Enters => 14,
            Kind::Transfers => 13,
            Kind::Meters => 16,
        }
    }
}

// A plant of the book, by its number.
ghost use Rattle.std.specs.Prelude.{◌≡◌, ◌-◌, ◌<◌, true};
ghost use Rattle.book.specs.Rows.{plant_ok};

use crate::accounts::PLANTS;
use crate::refusal::Refusal;
use crate::row::Row;

#[derive(Clone, Copy)]
pub(crate) struct Plant {
    pub(crate) number: u8,
    ghost known: { plant_ok number ≡ true },
}

impl TryFrom<u8> for Plant {
    ghost use Rattle.book.specs.Plants.{NamesPlant};

    type Error = Refusal;

    ghost try_from_gives = { NamesPlant };

    fn try_from(number: u8) -> Result<Plant, Refusal> {
        if number == 0 || usize::from(number) > PLANTS {
            return Err(Refusal::PastLimit);
        }
        Ok(Plant { number })
    }
}

impl Plant {
    // The plant that holds a contract of the book.
    pub(crate) fn holding(row: Row) -> Plant
        requires { plant_ok row.plant ≡ true }
        ensures { result.number ≡ row.plant }
    {
        Plant { number: row.plant }
    }

    // Plant 1 stands first.
    pub(crate) fn index(self) -> usize
        ensures place { result ≡ self.number - 1 }
        ensures within { result < 24 }
    {
        usize::from(self.number) - 1
    }
}

// The statement of a sheet: loaded into a new book, and every metered plant issued.
ghost use Rattle.std.specs.Prelude.{◌≡◌, true, false, is_some, IfOk, Some, string_bytes, OnOk};
ghost use Rattle.market.specs.Figures.{settlement_of};
ghost use Rattle.book.specs.declared.call.Call.TheVariants.{Issue};
ghost use Rattle.book.specs.Accounts.{is_issued};
ghost use Rattle.book.specs.Calls.{accepted, at, reading_of};
ghost use Rattle.book.specs.Holds.{ledger_of};
ghost use Rattle.book.specs.Ledgers.{plant_in};
ghost use Rattle.statement.specs.Statements.{Unissued, all_lines, line_of, statement_of};

use crate::line::{PlantLine, fault_line, plant_line};
use book::{Book, Reading};
use market::Settlement;
use sharing::{EqualRatio, Share};
use sheet::load;
use std::alloc::{AllocError, Global};
use units::{Energy, Grains};

// What the program prints for a sheet: a line for each metered plant, in rising number, or the line of the first fault.
pub fn statement(heap: Global, sheet: &[u8]) -> Result<String, AllocError>
    ensures { IfOk result (λ s. string_bytes s ≡ statement_of sheet.now) }
{
    let mut book = Book::new(heap, EqualRatio)?;
    match load(&mut book, EqualRatio, sheet) {
        Ok(()) => issue_all(heap, &mut book),
        Err(fault) => fault_line(heap, fault),
    }
}

// Issues every metered plant and writes its line.
fn issue_all<R: Share>(heap: Global, book: &mut Book<R>) -> Result<String, AllocError>
    requires { Unissued 1 (ledger_of R.Share.shares book.old) }
    ensures { IfOk result (λ s. string_bytes s ≡ all_lines (ledger_of R.Share.shares book.old)) }
{
    let mut text = String::new(heap);
    for plant in 1..25 {
        if let Some(reading) = book.reading(plant) {
            let line = issue_plant(heap, book, plant, reading)?;
            text.push_str(plant_line(heap, line)?.as_str())?;
        }
    }
    Ok(text)
}

// Issues one plant, and tells what its line says.
fn issue_plant<R: Share>(
    heap: Global,
    book: &mut Book<R>,
    plant: u8,
    reading: Reading,
) -> Result<PlantLine, AllocError>
    requires reading { reading_of (ledger_of R.Share.shares book.old) plant ≡ Some reading }
    requires unissued { is_issued (at (ledger_of R.Share.shares book.old) plant) ≡ false }
    ensures line { IfOk result (λ l. l ≡ line_of (ledger_of R.Share.shares book.old) plant reading) }
    ensures issued { OnOk result (ledger_of R.Share.shares book.new ≡ accepted (ledger_of R.Share.shares book.old) (Issue plant)) }
{
    let settlement = settle_plant(heap, book, plant)?;
    Ok(PlantLine {
        plant,
        metered: reading.metered,
        over_generation: settlement.over_generation,
        shortfall: settlement.shortfall,
        payment: book.issue(plant).unwrap(),
    })
}

fn settle_plant<R: Share>(heap: Global, book: &Book<R>, plant: u8) -> Result<Settlement, AllocError>
    requires { is_some (reading_of (ledger_of R.Share.shares book.now) plant) ≡ true }
    ensures { IfOk result (λ s. s ≡ settlement_of (plant_in (ledger_of R.Share.shares book.now) plant)) }
{
    let count = book.contract_count(plant);
    let mut energies = vec![in heap; Energy::from_kwh(0); count]?;
    let mut amounts = vec![in heap; Grains::from_count(0); count]?;
    let settlement = book.settle(plant, energies.as_mut_slice(), amounts.as_mut_slice());
    Ok(settlement.unwrap())
}

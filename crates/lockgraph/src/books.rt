// Book: the surviving types under every naming, in one lent store. Assumes nothing.
ghost use Rattle.std.specs.Prelude.{◌*◌};
ghost use Rattle.limits.specs.Limits.{usual};
ghost use Rattle.outcomes.specs.Outcomes.{BookIs};

use fitted::books::fitted_book;
use limits::{Limits, usual_limits};
use outcomes::Booked;
use refusal::Refusal;

// The surviving types under every naming, one after the other in a store.
pub fn book_within(l: Limits, sheet: &[u8], store: &mut [u64]) -> Result<Booked, Refusal>
    ensures { BookIs l sheet.now store.old result store.new }
{
    let u = frame::set_up(l, sheet)?;
    let needed = u.namings as usize * u.words;
    if store.len() < needed {
        return Err(Refusal::Store);
    }
    let namings = u.namings;
    let words = u.words;
    fitted_book(sheet, &u, store);
    Ok(Booked { namings, words })
}

// The same without limits.
pub fn book(sheet: &[u8], store: &mut [u64]) -> Result<Booked, Refusal>
    ensures { BookIs usual sheet.now store.old result store.new }
{
    book_within(usual_limits(), sheet, store)
}

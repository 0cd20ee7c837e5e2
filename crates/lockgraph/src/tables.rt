// Table: the surviving types under one naming, in two lent stores. Assumes nothing.
ghost use Rattle.limits.specs.Limits.{usual};
ghost use Rattle.outcomes.specs.Outcomes.{TableIs};
ghost use Rattle.outcomes.specs.Demands.{TableDemand2, TableDemand3};

use fitted::tables::fitted_table;
use limits::{Limits, usual_limits};
use outcomes::Tabled;
use refusal::Refusal;

// The surviving types under a naming, in both stores, each of which has room for as many types as the lean's limit allows.
pub fn table_within(
    l: Limits,
    sheet: &[u8],
    naming: u64,
    first: &mut [u64],
    second: &mut [u64],
) -> Result<Tabled, Refusal>
    ensures table_is { TableIs l sheet.now naming first.old second.old result first.new second.new }
    ensures table_demand2 { TableDemand2 sheet.now naming result first.new second.new }
    ensures table_demand3 { TableDemand3 l sheet.now naming result first.new second.new }
{
    let u = frame::set_up(l, sheet)?;
    if u.namings <= naming {
        return Err(Refusal::Naming);
    }
    let needed = prepare::words_for(l.lean);
    if first.len() < needed {
        return Err(Refusal::Store);
    }
    if second.len() < needed {
        return Err(Refusal::Store);
    }
    let words = u.words;
    let c = fitted_table(sheet, &u, naming, first, second);
    Ok(Tabled {
        words,
        start: c.start,
        left: c.left,
        rounds: c.rounds,
    })
}

// The same without limits.
pub fn table(
    sheet: &[u8],
    naming: u64,
    first: &mut [u64],
    second: &mut [u64],
) -> Result<Tabled, Refusal>
    ensures table_is { TableIs usual sheet.now naming first.old second.old result first.new second.new }
    ensures table_demand2 { TableDemand2 sheet.now naming result first.new second.new }
    ensures table_demand3 { TableDemand3 usual sheet.now naming result first.new second.new }
{
    table_within(usual_limits(), sheet, naming, first, second)
}

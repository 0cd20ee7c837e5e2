// Verdict: whether the goal is open or unsatisfiable. Assumes nothing.
ghost use Rattle.std.specs.Prelude.{◌≡◌};
ghost use Rattle.refusal.specs.Number.{refused_as};
ghost use Rattle.limits.specs.Limits.{refusal_under, usual};
ghost use Rattle.outcomes.specs.Outcomes.{verdict_of};
ghost use Rattle.outcomes.specs.Demands.{VerdictDemand2, VerdictDemand3};

use fitted::verdicts::fitted_verdict;
use judge::Verdict;
use limits::{Limits, usual_limits};
use refusal::Refusal;

// Whether the goal is unsatisfiable: crossed out of the design.
pub fn verdict_within(l: Limits, sheet: &[u8]) -> Result<Verdict, Refusal>
    ensures value { result ≡ verdict_of l sheet.now }
    ensures number { refused_as result ≡ refusal_under l sheet.now }
    ensures verdict_demand2 { VerdictDemand2 l sheet.now result }
    ensures verdict_demand3 { VerdictDemand3 l sheet.now result }
{
    let u = frame::set_up(l, sheet)?;
    Ok(fitted_verdict(sheet, &u))
}

// The same without limits.
pub fn verdict(sheet: &[u8]) -> Result<Verdict, Refusal>
    ensures value { result ≡ verdict_of usual sheet.now }
    ensures number { refused_as result ≡ refusal_under usual sheet.now }
    ensures verdict_demand2 { VerdictDemand2 usual sheet.now result }
    ensures verdict_demand3 { VerdictDemand3 usual sheet.now result }
{
    verdict_within(usual_limits(), sheet)
}

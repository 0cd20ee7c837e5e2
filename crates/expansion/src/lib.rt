// Operators with their expansions, as members of a table: each in two dual forms, told apart by a Boolean. Assumes nothing.
#![tactic(auto)]

ghost use Rattle.std.specs.Prelude.{◌≡◌, [], ◌∷◌, ◌+◌, ◌-◌, ◌^◌, ◌≤◌, ◌<◌, get_or, take};
ghost use Rattle.ctl.specs.Formula.{tru};
ghost use Rattle.ctl.specs.Closure.{spine};
ghost use Rattle.members.specs.Members.{forms};
ghost use Rattle.members.specs.Grown.{Ready, Answer};
ghost use Rattle.expansion.specs.Operators.{next_form, join_form, unit_form, next_tag, join_tag, unit_tag, join_all, join_spine, next_spine, each_of, plain_form, strong_form, plain_tag, strong_tag, first_join, both_joins, step_form, step_parts};
ghost use Rattle.members.specs.ModeLists.{modes_from};

use members::parts::first_mode;
use members::{Added, bit, make};

fn next_tag(some: bool) -> u64
    ensures { result ≡ next_tag some }
{
    if some { 6 } else { 7 }
}

fn join_tag(some: bool) -> u64
    ensures { result ≡ join_tag some }
{
    if some { 5 } else { 4 }
}

fn unit_tag(some: bool) -> u64
    ensures { result ≡ unit_tag some }
{
    if some { 1 } else { 0 }
}

// EX (AX where `some` is false) over a set of modes.
fn next_one(tab: &mut [u64], n: usize, some: bool, mask: u64, body: usize) -> Option<Added>
    requires { Ready tab.old n × ((mask < 65536) × (body < n)) }
    ensures { Answer tab.old n tab.new (next_form some mask (get_or (forms (take n tab.old)) body tru) ∷ []) (next_form some mask (get_or (forms (take n tab.old)) body tru)) result }
{
    make(tab, n, next_tag(some), mask, body, 0)
}

// Two members joined by `|` (by `&` where `some` is false).
pub fn join(tab: &mut [u64], n: usize, some: bool, left: usize, right: usize) -> Option<Added>
    requires { Ready tab.old n × ((left < n) × (right < n)) }
    ensures { Answer tab.old n tab.new
        (join_form some (get_or (forms (take n tab.old)) left tru) (get_or (forms (take n tab.old)) right tru) ∷ [])
        (join_form some (get_or (forms (take n tab.old)) left tru) (get_or (forms (take n tab.old)) right tru)) result }
{
    make(tab, n, join_tag(some), 0, left, right)
}

// `0` (`1` where `some` is false): none joined.
pub fn unit(tab: &mut [u64], n: usize, some: bool) -> Option<Added>
    requires { Ready tab.old n }
    ensures { Answer tab.old n tab.new (unit_form some ∷ []) (unit_form some) result }
{
    make(tab, n, unit_tag(some), 0, 0, 0)
}

// EX (AX) over each mode alone, joined: of the modes from m on, which are the bits of `rest`.
fn each(tab: &mut [u64], n: usize, some: bool, rest: u64, m: u64, body: usize) -> Option<Added>
    requires { Ready tab.old n × ((body < n) × ((m ≤ 16) × ((0 < rest) × (rest < 2 ^ (16 - m))))) }
    ensures { Answer tab.old n tab.new
        (join_spine some (each_of some (modes_from m rest) (get_or (forms (take n tab.old)) body tru)))
        (join_all some (each_of some (modes_from m rest) (get_or (forms (take n tab.old)) body tru))) result }
{
    if rest % 2 == 0 {
        return each(tab, n, some, rest / 2, m + 1, body);
    }
    if rest == 1 {
        return next_one(tab, n, some, bit(m), body);
    }
    let later = each(tab, n, some, rest / 2, m + 1, body)?;
    let first = next_one(tab, later.count, some, bit(m), body)?;
    join(tab, first.count, some, first.index, later.index)
}

// EX (AX) over a set of modes, with its expansion.
pub fn next(tab: &mut [u64], n: usize, some: bool, mask: u64, body: usize) -> Option<Added>
    requires { Ready tab.old n × ((mask < 65536) × (body < n)) }
    ensures { Answer tab.old n tab.new (next_spine some mask (get_or (forms (take n tab.old)) body tru)) (next_form some mask (get_or (forms (take n tab.old)) body tru)) result }
{
    let whole = next_one(tab, n, some, mask, body)?;
    if mask == 0 {
        let none = unit(tab, whole.count, some)?;
        return Some(Added {
            count: none.count,
            ..whole
        });
    }
    let m = first_mode(mask);
    let joined = each(tab, whole.count, some, mask >> m, m, body)?;
    Some(Added {
        count: joined.count,
        ..whole
    })
}

fn plain_tag(some: bool) -> u64
    ensures { result ≡ plain_tag some }
{
    if some { 8 } else { 11 }
}

fn strong_tag(some: bool) -> u64
    ensures { result ≡ strong_tag some }
{
    if some { 9 } else { 10 }
}

// EU (AR where `some` is false) of two members, with its expansion.
pub fn plain(
    tab: &mut [u64],
    n: usize,
    some: bool,
    mask: u64,
    left: usize,
    right: usize,
) -> Option<Added>
    requires { Ready tab.old n × ((mask < 65536) × ((left < n) × (right < n))) }
    ensures { Answer tab.old n tab.new
        (spine (plain_form some mask (get_or (forms (take n tab.old)) left tru) (get_or (forms (take n tab.old)) right tru)))
        (plain_form some mask (get_or (forms (take n tab.old)) left tru) (get_or (forms (take n tab.old)) right tru)) result }
{
    let whole = make(tab, n, plain_tag(some), mask, left, right)?;
    let step = next(tab, whole.count, some, mask, whole.index)?;
    let both = join(tab, step.count, !some, left, step.index)?;
    let last = join(tab, both.count, some, right, both.index)?;
    Some(Added {
        count: last.count,
        ..whole
    })
}

// The left operand joined to the member x by `&` (by `|` where `some` is false), and the right one to that by the other.
fn joins(
    tab: &mut [u64],
    n: usize,
    some: bool,
    left: usize,
    right: usize,
    x: usize,
) -> Option<Added>
    requires { Ready tab.old n × ((left < n) × ((right < n) × (x < n))) }
    ensures { Answer tab.old n tab.new
        (both_joins some (get_or (forms (take n tab.old)) left tru) (get_or (forms (take n tab.old)) right tru) (get_or (forms (take n tab.old)) x tru))
        (join_form some (get_or (forms (take n tab.old)) right tru) (first_join some (get_or (forms (take n tab.old)) left tru) (get_or (forms (take n tab.old)) x tru))) result }
{
    let both = join(tab, n, !some, left, x)?;
    join(tab, both.count, some, right, both.index)
}

// The step of AU (ER) to the next nodes, with its parts.
fn step(tab: &mut [u64], n: usize, some: bool, mask: u64, whole: usize) -> Option<Added>
    requires { Ready tab.old n × ((mask < 65536) × (whole < n)) }
    ensures { Answer tab.old n tab.new (step_parts some mask (get_or (forms (take n tab.old)) whole tru)) (step_form some mask (get_or (forms (take n tab.old)) whole tru)) result }
{
    let base = unit(tab, n, !some)?;
    let first = next(tab, base.count, some, mask, base.index)?;
    let second = next(tab, first.count, !some, mask, whole)?;
    join(tab, second.count, !some, first.index, second.index)
}

// AU (ER where `some` is false) of two members, with its expansion.
pub fn strong(
    tab: &mut [u64],
    n: usize,
    some: bool,
    mask: u64,
    left: usize,
    right: usize,
) -> Option<Added>
    requires { Ready tab.old n × ((mask < 65536) × ((left < n) × (right < n))) }
    ensures { Answer tab.old n tab.new
        (spine (strong_form some mask (get_or (forms (take n tab.old)) left tru) (get_or (forms (take n tab.old)) right tru)))
        (strong_form some mask (get_or (forms (take n tab.old)) left tru) (get_or (forms (take n tab.old)) right tru)) result }
{
    let whole = make(tab, n, strong_tag(some), mask, left, right)?;
    let next = step(tab, whole.count, some, mask, whole.index)?;
    let last = joins(tab, next.count, some, left, right, next.index)?;
    Some(Added {
        count: last.count,
        ..whole
    })
}

// The naming in hand, moved on to the next until none is left. Assumes nothing.
#![tactic(auto)]

ghost use Rattle.std.specs.Prelude.{◌≡◌};
ghost use Rattle.naming.specs.Next.{start_of, next_of, is_one};

// The number of the naming in hand, and how many there are. None is in hand where the number is not below the count.
#[derive(Clone, Copy)]
pub struct Naming {
    pub number: u64,
    pub count: u64,
}

// The first of so many namings.
pub fn first(count: u64) -> Naming
    ensures { result ≡ start_of count }
{
    Naming { number: 0, count }
}

// The naming after the one given. Past the last, the number is the count.
pub fn step(n: Naming) -> Naming
    ensures { result ≡ next_of n }
{
    let number = n.number;
    let count = n.count;
    if number < count {
        let next = number + 1;
        return Naming {
            number: next,
            count,
        };
    }
    Naming {
        number: count,
        count,
    }
}

// Moves the naming in hand on to the next, in place. The answer says whether there is one.
pub fn advance(n: &mut Naming) -> bool
    ensures { (n.new ≡ next_of n.old) × (result ≡ is_one (next_of n.old)) }
{
    *n = step(*n);
    n.number < n.count
}

// The same by value. Loops call this one: each turn reads the naming in hand and puts the next in its place, with no answer to drop.
pub fn advanced(n: Naming) -> Naming
    ensures { result ≡ next_of n }
{
    let mut m = n;
    advance(&mut m);
    m
}

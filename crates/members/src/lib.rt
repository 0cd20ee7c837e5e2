// The table of closure members: a word for each, over the places of those before it. A member is appended where it is new. Assumes nothing.
#![tactic(auto)]

ghost use Rattle.std.specs.Prelude.{◌≡◌, [], ◌∷◌, ℕ, ◌+◌, ◌-◌, ◌*◌, ◌^◌, ◌≤◌, ◌<◌, length, get_or, take, ◌==◌, position};
ghost use Rattle.ctl.specs.Formula.{tru};
ghost use Rattle.members.specs.Members.{word_of, form_of, form_by, forms, Canon};
ghost use Rattle.members.specs.Grown.{Ready, Answer};

pub mod parts;

// What adding a formula gives: its place, and how many members there are then.
#[derive(Clone, Copy)]
pub struct Added {
    pub index: usize,
    pub count: usize,
}

// The place of a word.
fn find(words: &[u64], w: u64) -> Option<usize>
    ensures { result ≡ position (λ x. x == w) words.now }
{
    words.iter().position(|x| *x == w)
}

// The place of a member's word, appended where it is new; none where the table has no room for it.
fn intern(tab: &mut [u64], n: usize, w: u64) -> Option<Added>
    requires { Ready tab.old n × Canon n w }
    ensures { Answer tab.old n tab.new (form_of (forms (take n tab.old)) w ∷ []) (form_of (forms (take n tab.old)) w) result }
{
    if let Some(index) = find(&tab[..n], w) {
        return Some(Added { index, count: n });
    }
    if n < tab.len() {
        tab[n] = w;
        return Some(Added {
            index: n,
            count: n + 1,
        });
    }
    None
}

fn word(tag: u64, arg: u64, left: usize, right: usize) -> u64
    requires { (tag < 16) × ((arg < 65536) × ((left < 256) × (right < 256))) }
    ensures { result ≡ word_of tag arg left right }
{
    tag + 16 * arg + 1048576 * (left as u64) + 268435456 * (right as u64)
}

// The place of the member of a tag, a number and two places, appended where it is new.
pub fn make(
    tab: &mut [u64],
    n: usize,
    tag: u64,
    arg: u64,
    left: usize,
    right: usize,
) -> Option<Added>
    requires { Ready tab.old n × ((tag < 16) × ((arg < 65536) × ((left < 256) × ((right < 256) × Canon n (word_of tag arg left right))))) }
    ensures { Answer tab.old n tab.new
        (form_by tag arg (get_or (forms (take n tab.old)) left tru) (get_or (forms (take n tab.old)) right tru) ∷ [])
        (form_by tag arg (get_or (forms (take n tab.old)) left tru) (get_or (forms (take n tab.old)) right tru)) result }
{
    let w = word(tag, arg, left, right);
    intern(tab, n, w)
}

pub fn bit(m: u64) -> u64
    requires { m < 16 }
    ensures { (result ≡ 2 ^ m) × (result < 65536) }
{
    1 << m
}

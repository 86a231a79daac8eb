// Whether a number stands in a list of a listing. Most lists ascend, and there a long one is not looked through.
ghost use Rattle.std.specs.Prelude.{◌≡◌, true};
ghost use Rattle.order.specs.Lists.{has, Ascending};

use listing::Index;

// The longest list that is looked through from its start at once.
const SHORT: usize = 8;

// Whether x stands at its own place in a list, as each number does in a list that counts up from 0.
fn stands_at_own_place(list: &[Index], x: Index) -> bool
    ensures { result ≡ true → has list.now x ≡ true }
{
    match list.get(usize::from(x)) {
        Some(&y) => y == x,
        None => false,
    }
}

// Whether halving finds x in a list: it does if x is there and the list ascends. In another list it may miss x.
#[tactic(auto, using(crate::proofs::Halving::halved))]
fn found_by_halving(list: &[Index], x: Index) -> bool
    ensures { (result ≡ true → has list.now x ≡ true)
        × (Ascending list.now → result ≡ has list.now x) }
{
    list.binary_search(&x).is_ok()
}

// Whether x is one of the numbers of a short list, looking from its start. By a loop: a search comes here at nearly
// each change, and the library's test is a call.
fn found_by_scanning(list: &[Index], x: Index) -> bool
    ensures { result ≡ has list.now x }
{
    for &y in list {
        if y == x {
            return true;
        }
    }
    false
}

// Whether x is one of the numbers of a list.
pub fn contains(list: &[Index], x: Index) -> bool
    ensures { result ≡ has list.now x }
{
    if stands_at_own_place(list, x) {
        return true;
    }
    if list.len() <= SHORT {
        return list.contains(&x);
    }
    found_by_halving(list, x) || list.contains(&x)
}

// The same for a list that ascends.
pub fn ascending_contains(list: &[Index], x: Index) -> bool
    requires { Ascending list.now }
    ensures { result ≡ has list.now x }
{
    if stands_at_own_place(list, x) {
        return true;
    }
    if list.len() <= SHORT {
        return found_by_scanning(list, x);
    }
    found_by_halving(list, x)
}

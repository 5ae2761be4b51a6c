// The order of at most four keys by a test, as numbers of places: the sorts of factorize and of finish, in which ties stay in their earlier order.
// It rests on `float` and `facts`; the large factors, `large_factors`, and the finished roots, `finish`, rest on it.
#![tactic(auto)]

ghost use Rattle.std.specs.Prelude.{◌≡◌, ◌≤◌, ◌<◌, Float, Bool};
ghost use Rattle.order.specs.Order.{falling_of, order_of, insertion_of, entry_of, Tells, Places};

// How many of the first i numbers stand before i, up to the first that does not.
fn place<F: Fn(f64, f64) -> bool>(key: [f64; 4], at: [usize; 4], i: usize, before: &F) -> usize
    requires i_high { i < 4 }
    requires places { Places at }
    requires callable { F.IsAlwaysCallable before.now }
    ensures place { (f : Float → Float → Bool) → Tells (F.post before.now) f → result ≡ insertion_of f key at i }
    ensures low { result ≤ i }
{
    at[..i]
        .iter()
        .take_while(|&&j| before(key[j], key[i]))
        .count()
}

// Entry k, once i is put in at p and those from there on have gone one further.
#[tactic(auto, unfolding(crate::specs::Order::entry_of))]
fn entry(at: &[usize; 4], i: usize, p: usize, k: usize) -> usize
    requires { k < 4 }
    ensures { result ≡ entry_of at.now i p k }
{
    if k < p {
        at[k]
    } else if k == p {
        i
    } else if k <= i {
        at[k - 1]
    } else {
        at[k]
    }
}

// The numbers 0..n in the order that the test gives their keys: whether a stands before b, or level with it. (By hand: std's stable sort takes a heap, and for
// its unstable one an order of (key, place), NaN first, and its laws would be longer.)
// (key with n beside it, here and below: the places are below 4, whatever n is, so each is one of an array of four, and not of a slice of n.)
#[tactic(auto, using(crate::proofs::Laws::order_none))]
pub fn sorted<F: Fn(f64, f64) -> bool>(key: [f64; 4], n: usize, before: F) -> [usize; 4]
    requires n_high { n ≤ 4 }
    requires callable { F.IsAlwaysCallable before }
    ensures order { (f : Float → Float → Bool) → Tells (F.post before) f → result ≡ order_of f key n }
    ensures places { Places result }
{
    let mut at = [0, 1, 2, 3];
    for i in 0..n {
        let p = place(key, at, i, &before);
        // (By entry, and not by `rotate_right`, which calls `memmove`: a controller's archive would need that name.)
        let next = std::array::from_fn(|k| entry(&at, i, p, k));
        at = next;
    }
    at
}

// The largest first.
#[tactic(auto, unfolding(crate::specs::Order::falling_of))]
pub fn falling(key: [f64; 4], n: usize) -> [usize; 4]
    requires { n ≤ 4 }
    ensures { (result ≡ falling_of key n) × Places result }
{
    sorted(key, n, |a, b| float::total_le(b, a))
}

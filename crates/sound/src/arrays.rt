// Arrays with a count (Parts 9i): the first places are in use and pass one test, the others are free and pass another.
ghost use Rattle.std.specs.Prelude.{◌≡◌, ◌&&◌, Bool, eqb, take};
ghost use Rattle.std.specs.Fn.{FnReturnsAt};
ghost use Rattle.lists.specs.Places.{fits};

// There are n places at least, the first n pass the test `used`, and the others the test `free`.
pub(crate) fn fits<T, U: Fn(&T) -> bool, F: Fn(&T) -> bool>(
    places: &[T],
    n: u8,
    used: U,
    free: F,
) -> bool
    requires can_test_used { U.IsAlwaysCallable used }
    requires can_test_free { F.IsAlwaysCallable free }
    ensures { (p : T → Bool) (q : T → Bool) → ((x : T) (r : Bool) → FnReturnsAt U.Fn used x r → r ≡ p x) →
        ((x : T) (r : Bool) → FnReturnsAt F.Fn free x r → r ≡ q x) → result ≡ fits p q n places.now }
{
    let n = n as usize;
    n <= places.len()
        && places[..n].iter().all(|place| used(place))
        && places[n..].iter().all(|place| free(place))
}

// The first n of the items; all, where there are fewer.
pub(crate) fn first<T>(items: &[T], n: u8) -> &[T]
    ensures { result.now ≡ take n items.now }
{
    items.get(..n as usize).unwrap_or(items)
}

// None of the places is in use, and all pass the test `free`.
pub(crate) fn none_in_use<T, F: Fn(&T) -> bool + Copy>(count: u8, places: &[T], free: F) -> bool
    requires can_test_free { F.IsAlwaysCallable free }
    ensures { (q : T → Bool) → ((x : T) (r : Bool) → FnReturnsAt F.Fn free x r → r ≡ q x) → result ≡ (eqb count 0 && fits q q 0 places.now) }
{
    count == 0 && fits(places, 0, free, free)
}

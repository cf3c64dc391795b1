// An array of which the first places are in use, with their count: one more put behind them, one taken out and the gap
// closed, one put anew.
ghost use Rattle.std.specs.Prelude.{◌≡◌, Bool, cond, ◌+◌, ◌-◌, ◌≤◌, ltb, set, length};
ghost use Rattle.lists.specs.Places.{removed, none_of};

// One more behind the last; where there is no place for it, nothing changes.
pub(crate) fn put<T: Copy>(places: &mut [T], count: &mut u8, new: T)
    requires few { length places.now ≤ 255 }
    ensures put { places.new ≡ set places.old count.old new }
    ensures counted { count.new ≡ cond (ltb count.old (length places.old)) (count.old + 1) count.old }
{
    let at = *count as usize;
    if at < places.len() {
        places[at] = new;
        *count += 1;
    }
}

// The one at the position anew; where there is no such place, nothing changes.
pub(crate) fn replace<T: Copy>(places: &mut [T], position: usize, new: T)
    ensures { places.new ≡ set places.old position new }
{
    if position < places.len() {
        places[position] = new;
    }
}

// The one at the position leaves, those behind it close the gap, and the last place is free. They are taken from a
// copy, since to move them within the array the archive for C would need `memmove`.
pub(crate) fn take_out<T: Copy, const N: usize>(
    places: &mut [T; N],
    count: &mut u8,
    position: usize,
    free: T,
)
    ensures closed { places.new ≡ removed free position places.old }
    ensures counted { count.new ≡ count.old - 1 }
{
    *count = count.saturating_sub(1);
    if position < N {
        let old = *places;
        let (new, old) = (&mut places[..], &old[..]);
        // Before the copy: behind it a compiler would see that the array still holds what is copied, and move it there.
        new[N - 1] = free;
        new[position..N - 1].copy_from_slice(&old[position + 1..]);
    }
}

// None of the first n has what is looked for, and there are so many places.
pub(crate) fn none_of<T, F: Fn(&T) -> bool>(places: &[T], n: usize, has: F) -> bool
    requires { (state : F) (x : _) → F.pre state x }
    ensures { (test : T → Bool) → ((x : _) (b : Bool) → F.post has x b → b ≡ test x.now) → result ≡ none_of test n places.now }
{
    n <= places.len() && places[..n].iter().all(|x| !has(x))
}

// The words of a line and their marks: four places, the first n of them in use, the others 0.
ghost use Rattle.std.specs.Prelude.{◌≡◌, cond};
ghost use Rattle.model.specs.Sets.{words_fit, marks_fit};

use crate::arrays::fits;
use model::Value;

#[tactic(auto, using(crate::proofs::InUse::whole_array), unfolding(model::specs::Sets::words_fit))]
pub(crate) fn words_fit(n: u8, values: &[Value; 4]) -> bool
    ensures { result ≡ words_fit n values.now }
{
    fits(values, n, |_| true, |value| *value == 0)
}

#[tactic(auto, using(crate::proofs::InUse::whole_array), unfolding(model::specs::Sets::marks_fit))]
pub(crate) fn marks_fit(n: u8, marks: &[bool; 4]) -> bool
    ensures { result ≡ marks_fit n marks.now }
{
    fits(marks, n, |_| true, |mark| !*mark)
}

// So many words where some ride, and none elsewhere.
pub(crate) fn riding(some: bool, n: u8) -> u8
    ensures { result ≡ cond some n 0 }
{
    if some { n } else { 0 }
}

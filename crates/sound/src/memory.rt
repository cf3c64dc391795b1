// Memory: the lines in use hold so many words, the others 0.
ghost use Rattle.std.specs.Prelude.{◌≡◌};
ghost use Rattle.model.specs.Sound.{memory_fits};

use crate::arrays::fits;
use crate::words::words_fit;
use model::{Line, Sizes};

#[tactic(auto, using(crate::proofs::InUse::whole_array), unfolding(model::specs::Sound::memory_fits))]
pub(crate) fn memory_fits(z: &Sizes, memory: &[Line; 16]) -> bool
    ensures { result ≡ memory_fits z.now memory.now }
{
    fits(
        memory,
        z.lines,
        |line| words_fit(z.words, &line.values),
        |line| words_fit(0, &line.values),
    )
}

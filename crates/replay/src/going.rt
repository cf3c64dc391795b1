// Where a listing goes on.
#![tactic(auto)]

ghost use Rattle.std.specs.Prelude.{◌≡◌, true, ◌+◌, ◌<◌, ◌≤◌};
ghost use Rattle.model.specs.Limits.{in_limits};
ghost use Rattle.model.specs.Fresh.{blank};
ghost use Rattle.model.specs.Sound.{sound};
ghost use Rattle.model.specs.Steps.{step_of};
ghost use Rattle.steps.specs.After.{after};

use model::{Outcome, Sizes, Step, System};
use steps::step_sound;

// A sound system, the offset of the next step, and the count of steps listed. The count is never above the offset,
// since each step took a byte.
#[derive(Clone, Copy)]
pub struct Going {
    pub system: System,
    pub at: usize,
    pub count: u64,
    pub ghost is_sound: { sound system ≡ true },
    pub ghost counted: { count ≤ at },
}

impl Going {
    // Before the first step. A fresh system of sizes within their limits is sound (`fresh_is_sound`,
    // promises/proofs/Demands).
    #[tactic(auto, using(promises::proofs::Demands::fresh_is_sound), unfolding(model::specs::Fresh::fresh_of))]
    pub(crate) fn first(z: Sizes, past: usize) -> Going
        requires { in_limits z ≡ true }
        ensures system { result.system ≡ blank z }
        ensures at { result.at ≡ past }
        ensures count { result.count ≡ 0 }
    {
        Going {
            system: System::fresh(z).system,
            at: past,
            count: 0,
        }
    }

    // Takes a step whose bytes end before `next`. It does not look whether the system is sound: what a step of a sound
    // one leaves is sound (`sound_again`, steps/proofs/Again).
    pub(crate) fn take(&mut self, x: Step, next: usize) -> Outcome
        requires { self.old.at < next }
        ensures after { after result self.new.system ≡ step_of self.old.system x }
        ensures at { self.new.at ≡ next }
        ensures count { self.new.count ≡ self.old.count + 1 }
    {
        self.at = next;
        self.count += 1;
        step_sound(&mut self.system, x)
    }
}

// The names of the steps.
ghost use Rattle.std.specs.Prelude.{◌≡◌};
ghost use Rattle.numbers.specs.Groups.{put_to, put_bytes};
ghost use Rattle.model.specs.Replay.{name_of};

use crate::put_text;
use model::Step;

// A step's name, in ASCII.
#[tactic(auto, unfolding(model::specs::Replay::name_of, model::specs::Replay::text))]
fn name(x: Step) -> &'static [u8]
    ensures { result.now ≡ name_of x }
{
    match x {
        Step::Issue { .. } => b"issue",
        Step::Retry(_) => b"retry",
        Step::Send(_) => b"send",
        Step::ArriveMemory(_) => b"arrive-memory",
        Step::Serve => b"serve",
        Step::SendBack => b"send-back",
        Step::ArriveSite(_) => b"arrive-site",
        Step::Take(_) => b"take",
    }
}

// Writes a step's name at an offset of the buffer, and gives the offset past it; nothing is written where it has no
// room.
pub fn put_name(buf: &mut [u8], at: usize, x: Step) -> usize
    ensures { put_to result buf.new ≡ put_bytes (name_of x) buf.old at }
{
    put_text(buf, at, name(x))
}

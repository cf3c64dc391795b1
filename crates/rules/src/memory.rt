// What memory does with a request (Serve 1, 2): the line after a write-back, and the reply.
ghost use Rattle.std.specs.Prelude.{◌≡◌, cond, eqb};
ghost use Rattle.model.specs.Kinds.{fetch};
ghost use Rattle.model.specs.Serve.{stored, reply_to};

use model::{Line, Message, Value};
use state::kinds::{ACKNOWLEDGEMENT, FETCH, FETCH_REPLY};
use std::array;

// A word of the line after a write-back: the one that came, if it is marked Dirty.
fn word(dirty: bool, new: Value, old: Value) -> Value
    ensures { result ≡ cond dirty new old }
{
    if dirty { new } else { old }
}

// The request's line after it: of a write-back it takes over each Dirty word, no Clean one; of a fetch nothing.
#[tactic(auto, using(lists::proofs::Long::length_mapped, lists::proofs::Long::four), unfolding(model::specs::Serve::merged))]
pub fn line_after(l: Line, m: Message) -> Line
    ensures { result ≡ cond (eqb m.kind fetch) l (stored l m) }
{
    if m.kind == FETCH {
        l
    } else {
        Line {
            values: array::from_fn(|k| word(m.dirty[k], m.values[k], l.values[k])),
        }
    }
}

// A fetch gets the line's words back, a write-back an acknowledgement with nothing in it.
#[tactic(auto, unfolding(model::specs::Serve::reply_to))]
pub fn reply_to(l: Line, m: Message) -> Message
    ensures { result ≡ reply_to l m }
{
    let words = l.values;
    let (kind, values) = if m.kind == FETCH {
        (FETCH_REPLY, words)
    } else {
        (ACKNOWLEDGEMENT, [0; 4])
    };
    Message {
        kind,
        site: m.site,
        line: m.line,
        dirty: [false; 4],
        values,
    }
}

// Handling 2 to 12: the facts of a site, and what each action changes there.
// w: a waiting instruction; p: a place of the cache; t: a set of it; e: a pend entry; m: a message; a: an action.
ghost use Rattle.std.specs.Prelude.{◌≡◌, ◌≤◌, ◌<◌, T};
ghost use Rattle.model.specs.Sets.{set_of, anew};
ghost use Rattle.model.specs.Handling.{place_of, facts_of, put_set, dropped, entry_of, fetch_of, write_back_of, asked, written, performed};
ghost use Rattle.steps.specs.View.{site_of, with_site, made, made_of, asks};

use crate::here::Here;
use model::{Action, Answer, CacheSet, Entry, Facts, Message, Place, Value, Waiting};
use state::kinds;
use state::pends::{entry_put, no_line};
use state::queues::site_put;
use state::sets::{all_clean, anew, holds, seat, set_number, without, written};

impl Here {
    // Where the line is, if it is cached.
    pub(crate) fn place_of(&self, line: u8) -> Place
        ensures { result ≡ place_of self.now.home.sizes (site_of self.now) line }
    {
        seat(self.set_of(line), line)
    }

    // The facts that decide what becomes of the instruction, whose line is at p if it is cached.
    pub(crate) fn facts_of(&self, w: Waiting, p: Place) -> Facts
        requires { w.word < 4 }
        ensures { result ≡ facts_of self.now.home.sizes (site_of self.now) w p }
    {
        let cached = holds(p, w.line);
        Facts {
            cached,
            dirty: cached && p.dirty[w.word as usize],
            stained: cached && !all_clean(p.dirty),
            pending: !no_line(&self.pends, self.pends.count as usize, w.line),
            full: self.home.sizes.pend <= self.pends.count,
            crowded: self.home.sizes.stall <= self.stalls.count,
        }
    }

    // The set in which the line lives.
    pub(crate) fn set_of(&self, line: u8) -> CacheSet
        ensures { result ≡ set_of self.now.home.sizes self.now.cache.sets line }
    {
        self.cache.sets[set_number(self.home.sizes, line) as usize]
    }

    // The line's set anew.
    pub(crate) fn put_set(&mut self, line: u8, t: CacheSet)
        ensures { self.new ≡ with_site self.old (put_set self.old.home.sizes (site_of self.old) line t) }
    {
        self.cache.sets[set_number(self.home.sizes, line) as usize] = t;
    }

    // The line is cached no more.
    fn drop_line(&mut self, line: u8)
        ensures { self.new ≡ with_site self.old (dropped self.old.home.sizes (site_of self.old) line) }
    {
        let rest = without(self.set_of(line), line);
        self.put_set(line, rest);
    }

    // The cached word overwritten and marked Dirty (Handling 4).
    fn store(&mut self, w: Waiting, p: Place)
        ensures { self.new ≡ with_site self.old (put_set self.old.home.sizes (site_of self.old) w.line (anew (set_of self.old.home.sizes self.old.cache.sets w.line) w.line (written p w.word w.value))) }
    {
        let new = written(p, w.word, w.value);
        let set = anew(self.set_of(w.line), w.line, new);
        self.put_set(w.line, set);
    }

    // One more pend entry, behind the last, and its request at the tail of the outgoing queue.
    fn ask(&mut self, e: Entry, m: Message)
        requires { (self.old.pends.count < 5) × (self.old.outgoing.count < 5) }
        ensures { self.new ≡ with_site self.old (asked (site_of self.old) e m) }
    {
        entry_put(&mut self.pends, e);
        site_put(&mut self.outgoing, m);
    }

    // The line goes from the cache to memory, and an entry with these words waits for the acknowledgement.
    fn write_back(&mut self, w: Waiting, p: Place, values: [Value; 4])
        requires { (self.old.pends.count < 5) × (self.old.outgoing.count < 5) }
        ensures { self.new ≡ with_site self.old (asked (dropped self.old.home.sizes (site_of self.old) w.line) (entry_of w values) (write_back_of self.old.home.site p)) }
    {
        self.drop_line(w.line);
        let m = write_back_of(self.home.site, p);
        self.ask(entry_of(w, values), m);
    }

    pub(crate) fn acknowledged(&self, tag: u32) -> Answer
        ensures { result ≡ Answer.Acknowledged self.now.home.site tag }
    {
        Answer::Acknowledged {
            site: self.home.site as u32,
            tag,
        }
    }

    pub(crate) fn loaded(&self, tag: u32, value: Value) -> Answer
        ensures { result ≡ Answer.Loaded self.now.home.site tag value }
    {
        Answer::Loaded {
            site: self.home.site as u32,
            tag,
            value,
        }
    }

    // What the site makes of the instruction w, whose line is at p if it is cached.
    #[tactic(auto, unfolding(model::specs::Handling::performed))]
    pub(crate) fn perform(&mut self, w: Waiting, p: Place, a: Action) -> Answer
        requires { (w.word < 4) × (T (asks a) → (self.old.pends.count < 5) × (self.old.outgoing.count < 5)) }
        ensures { made result self.new ≡ made_of self.old (performed self.old.home.sizes self.old.home.site (site_of self.old) w p a) }
    {
        let ack = self.acknowledged(w.tag);
        match a {
            Action::Load => self.loaded(w.tag, p.values[w.word as usize]),
            Action::Store => {
                self.store(w, p);
                ack
            }
            Action::Acknowledge => ack,
            Action::Drop => {
                self.drop_line(w.line);
                ack
            }
            Action::Fetch => {
                let m = fetch_of(self.home.site, w.line);
                self.ask(entry_of(w, [0; 4]), m);
                Answer::Nothing
            }
            Action::WriteBackKept => {
                self.write_back(w, p, p.values);
                Answer::Nothing
            }
            Action::WriteBackDropped => {
                self.write_back(w, p, [0; 4]);
                Answer::Nothing
            }
            Action::Wait => Answer::Nothing,
        }
    }
}

fn entry_of(w: Waiting, values: [Value; 4]) -> Entry
    ensures { result ≡ entry_of w values }
{
    Entry {
        kind: w.kind,
        line: w.line,
        word: w.word,
        tag: w.tag,
        value: w.value,
        values,
    }
}

fn fetch_of(site: u8, line: u8) -> Message
    ensures { result ≡ fetch_of site line }
{
    Message {
        kind: kinds::FETCH,
        site,
        line,
        ..Message::none()
    }
}

// Every word of the line, and every mark (Handling 8c).
pub(crate) fn write_back_of(site: u8, p: Place) -> Message
    ensures { result ≡ write_back_of site p }
{
    let Place {
        used: _,
        line,
        dirty,
        values,
    } = p;
    Message {
        kind: kinds::WRITE_BACK,
        site,
        line,
        dirty,
        values,
    }
}

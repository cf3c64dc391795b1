// Taking a reply (Take 2 to 9): the line goes into the cache, and its entry goes or becomes that of the displaced line.
ghost use Rattle.std.specs.Prelude.{◌≡◌, ◌<◌};
ghost use Rattle.model.specs.Take.{voluntary_entry, settled, caching, clean_place, taken};
ghost use Rattle.steps.specs.View.{site_of, with_site, made, made_of};

use crate::handling::write_back_of;
use crate::here::Here;
use model::{Answer, Entry, Message, Place, Value};
use state::kinds;
use state::pends::{entry_removed, entry_replaced};
use state::queues::site_put;
use state::sets::{all_clean, displaced, placed, written};

impl Here {
    // The line that was displaced: all Clean, it and the entry are dropped; with a word Dirty it is written back,
    // and a voluntary entry takes the entry's place (Take 8, 9).
    #[tactic(auto, unfolding(model::specs::Take::settled))]
    fn settle(&mut self, position: usize, old: Place)
        requires { self.old.outgoing.count < 5 }
        ensures { self.new ≡ with_site self.old (settled self.old.home.site (site_of self.old) position old) }
    {
        if old.used && !all_clean(old.dirty) {
            entry_replaced(&mut self.pends, position, voluntary_entry(old.line));
            site_put(&mut self.outgoing, write_back_of(self.home.site, old));
        } else {
            entry_removed(&mut self.pends, position);
        }
    }

    // The line goes into the cache, for the entry at the position.
    fn cache_line(&mut self, position: usize, new: Place)
        requires { self.old.outgoing.count < 5 }
        ensures { self.new ≡ with_site self.old (caching self.old.home.sizes self.old.home.site (site_of self.old) position new) }
    {
        let set = self.set_of(new.line);
        self.put_set(new.line, placed(self.home.sizes, set, new));
        self.settle(position, displaced(self.home.sizes, set));
    }

    // The entry e, at the position, has its reply m.
    #[tactic(auto, unfolding(model::specs::Take::taken))]
    pub(crate) fn take(&mut self, position: usize, e: Entry, m: Message) -> Answer
        requires { (self.old.outgoing.count < 5) × (e.word < 4) }
        ensures { made result self.new ≡ made_of self.old (taken self.old.home.sizes self.old.home.site (site_of self.old) position e m) }
    {
        let ack = self.acknowledged(e.tag);
        match e.kind {
            kinds::LOADL => {
                self.cache_line(position, clean_place(e.line, m.values));
                self.loaded(e.tag, m.values[e.word as usize])
            }
            kinds::STOREL => {
                self.cache_line(
                    position,
                    written(clean_place(e.line, m.values), e.word, e.value),
                );
                ack
            }
            kinds::COMMIT => {
                self.cache_line(position, clean_place(e.line, e.values));
                ack
            }
            kinds::RECONCILE => {
                entry_removed(&mut self.pends, position);
                ack
            }
            _ => {
                entry_removed(&mut self.pends, position);
                Answer::Nothing
            }
        }
    }
}

fn voluntary_entry(line: u8) -> Entry
    ensures { result ≡ voluntary_entry line }
{
    Entry {
        kind: kinds::VOLUNTARY,
        line,
        ..Entry::none()
    }
}

fn clean_place(line: u8, values: [Value; 4]) -> Place
    ensures { result ≡ clean_place line values }
{
    Place {
        used: true,
        line,
        dirty: [false; 4],
        values,
    }
}

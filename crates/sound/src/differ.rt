// What must differ at a site (Parts 9f, 9g, 9h): the lines of its pend entries, the tags outstanding,
// and the lines cached from those pending. The entries and the waiting instructions here are those in use.
ghost use Rattle.std.specs.Prelude.{◌≡◌, Bool, ◌&&◌, length};
ghost use Rattle.std.specs.Fn.{FnReturnsAtPair};
ghost use Rattle.lists.specs.Places.{each_of, none_of, unlike};
ghost use Rattle.model.specs.declared.Waiting.{Waiting};
ghost use Rattle.model.specs.Sets.{cached};
ghost use Rattle.model.specs.Sound.{cached_apart, lines_differ, pends_under, same_tag, same_pend_tag, tags_differ};

use model::{CacheSet, Entry, Sizes, Waiting};
use state::kinds::VOLUNTARY;
use state::sets::{holds, seat, set_number};

// No two of the items are alike.
#[tactic(auto, unfolding(lists::specs::Places::unlike))]
fn unlike<T, S: Fn(&T, &T) -> bool>(items: &[T], same: S) -> bool
    requires { S.IsAlwaysCallable same }
    ensures { (p : T → T → Bool) → ((x : T) (y : T) (r : Bool) → FnReturnsAtPair S.Fn same x y r → r ≡ p x y) →
        result ≡ unlike p (length items.now) items.now }
{
    let mut rest = items;
    while let Some((first, others)) = rest.split_first() {
        if others.iter().any(|other| same(first, other)) {
            return false;
        }
        rest = others;
    }
    true
}

// A line pends at most once (Parts 9g).
fn lines_differ(entries: &[Entry]) -> bool
    ensures { result ≡ lines_differ (length entries.now) entries.now }
{
    unlike(entries, |a, b| a.line == b.line)
}

// No two waiting instructions have one tag.
fn waits_differ(waiting: &[Waiting]) -> bool
    ensures { result ≡ unlike same_tag (length waiting.now) waiting.now }
{
    unlike(waiting, |a, b| a.tag == b.tag)
}

// No two entries, but voluntary ones, have one tag.
fn pends_differ(entries: &[Entry]) -> bool
    ensures { result ≡ unlike same_pend_tag (length entries.now) entries.now }
{
    unlike(
        entries,
        |a, b| a.kind != VOLUNTARY && b.kind != VOLUNTARY && a.tag == b.tag,
    )
}

// No entry has the tag, voluntary ones aside.
fn tag_free(entries: &[Entry], tag: u32) -> bool
    ensures { result ≡ none_of (pends_under tag) (length entries.now) entries.now }
{
    !entries.iter().any(|e| e.kind != VOLUNTARY && e.tag == tag)
}

// No stalled instruction has the tag of an entry, voluntary ones aside.
fn tags_apart(entries: &[Entry], waiting: &[Waiting]) -> bool
    ensures { result ≡ each_of (λ (w : Waiting). none_of (pends_under w.tag) (length entries.now) entries.now) (length waiting.now) waiting.now }
{
    waiting.iter().all(|w| tag_free(entries, w.tag))
}

// A site uses no tag twice at a time (Parts 9h).
#[tactic(auto, unfolding(model::specs::Sound::tags_differ))]
fn tags_differ(entries: &[Entry], waiting: &[Waiting]) -> bool
    ensures { result ≡ tags_differ (length entries.now) entries.now (length waiting.now) waiting.now }
{
    waits_differ(waiting) && pends_differ(entries) && tags_apart(entries, waiting)
}

// The line is cached.
#[tactic(auto, using(std::proofs::lemmas::List::get_or_past), unfolding(model::specs::Sets::seat))]
fn is_cached(z: &Sizes, sets: &[CacheSet; 8], line: u8) -> bool
    ensures { result ≡ cached z.now sets.now line }
{
    match sets.get(set_number(*z, line) as usize) {
        Some(set) => holds(seat(*set, line), line),
        None => false,
    }
}

// A line that pends is not in the cache (Parts 9f).
fn cached_apart(z: &Sizes, sets: &[CacheSet; 8], entries: &[Entry]) -> bool
    ensures { result ≡ cached_apart z.now sets.now (length entries.now) entries.now }
{
    !entries.iter().any(|e| is_cached(z, sets, e.line))
}

// Lines and tags differ as they must.
pub(crate) fn all_differ(
    z: &Sizes,
    sets: &[CacheSet; 8],
    entries: &[Entry],
    waiting: &[Waiting],
) -> bool
    ensures { result ≡ (cached_apart z.now sets.now (length entries.now) entries.now && lines_differ (length entries.now) entries.now &&
        tags_differ (length entries.now) entries.now (length waiting.now) waiting.now) }
{
    cached_apart(z, sets, entries) && lines_differ(entries) && tags_differ(entries, waiting)
}

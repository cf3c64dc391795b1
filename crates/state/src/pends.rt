// Pend entries: one more behind the last, the one for a line, one replaced, one removed and the gap closed, and whether
// a tag or a line is in them.
ghost use Rattle.std.specs.Prelude.{◌≡◌, cond, ◌+◌, ◌-◌, ltb, eqb, set};
ghost use Rattle.lists.specs.Places.{removed, first_at, none_of};
ghost use Rattle.model.specs.declared.Entry.{Entry};
ghost use Rattle.model.specs.Fresh.{no_entry};
ghost use Rattle.model.specs.Sound.{pends_under};

use crate::kinds::VOLUNTARY;
use crate::places::{none_of, put, replace, take_out};
use model::{Entry, Pends};

// One more entry behind the last; where there is no place for it, they stay as they are.
pub fn entry_put(p: &mut Pends, e: Entry)
    ensures { p.new ≡ cond (ltb p.old.count 5) (record { entries = set p.old.entries p.old.count e; count = p.old.count + 1 }) p.old }
{
    put(&mut p.entries, &mut p.count, e)
}

// Where the first entry for the line is; where there is none, the count, or 5 if that is less.
pub fn entry_for(p: &Pends, line: u8) -> usize
    ensures { result ≡ first_at (λ e. eqb e.line line) p.now.count p.now.entries }
{
    let entries: &[Entry] = &p.entries;
    let n = (p.count as usize).min(entries.len());
    entries[..n]
        .iter()
        .position(|e| e.line == line)
        .unwrap_or(n)
}

// The entry at the position anew.
pub fn entry_replaced(p: &mut Pends, position: usize, e: Entry)
    ensures { p.new ≡ record { entries = set p.old.entries position e; count = p.old.count } }
{
    replace(&mut p.entries, position, e)
}

// The entry at the position leaves.
pub fn entry_removed(p: &mut Pends, position: usize)
    ensures { p.new ≡ record { entries = removed no_entry position p.old.entries; count = p.old.count - 1 } }
{
    take_out(&mut p.entries, &mut p.count, position, Entry::none())
}

// None of the first n entries, but voluntary ones, has the tag, and there are so many places.
pub fn no_tag(p: &Pends, n: usize, tag: u32) -> bool
    ensures { result ≡ none_of (pends_under tag) n p.now.entries }
{
    none_of(&p.entries, n, |e| e.kind != VOLUNTARY && e.tag == tag)
}

// None of the first n entries is for the line, and there are so many places.
pub fn no_line(p: &Pends, n: usize, line: u8) -> bool
    ensures { result ≡ none_of (λ e. eqb e.line line) n p.now.entries }
{
    none_of(&p.entries, n, |e| e.line == line)
}

// A loop over lent entries that lends two `&mut` slices again in each turn, one of them a list of entries, which no program does yet.
#![tactic(auto)]

ghost use Rattle.std.specs.Prelude.{◌≡◌, map, min, length, set};
ghost use Rattle.sheet_entries.specs.Table.{overlaid};
ghost use Rattle.walks_lent_again.specs.Ids.{id_of};

use store::Entry;

// Stores the entry's id; an index past the end changes nothing.
fn put_id(e: Entry, ids: &mut [u64], i: usize)
    ensures { ids.new ≡ set ids.old i (id_of e) }
{
    if i < ids.len() {
        ids[i] = e.id;
    }
}

// Stores the ids of the entries, and the entries themselves, as many as there is room for, and answers how many entries were stored.
pub fn ids_of(entries: &[Entry], ids: &mut [u64], kept: &mut [Entry]) -> usize
    ensures { (result ≡ min (length entries.now) (length kept.old)) × (ids.new ≡ overlaid ids.old (map id_of entries.now))
        × (kept.new ≡ overlaid kept.old entries.now) }
{
    let mut place = 0;
    for (i, e) in entries.iter().enumerate() {
        put_id(*e, ids, i);
        place = restore_entries::set_entry(kept, place, *e);
    }
    place
}

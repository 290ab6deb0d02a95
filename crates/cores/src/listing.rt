// Lists the cores of a scope: from a core of it on, through the scopes that lack an item of that core.
ghost use Rattle.std.specs.Prelude.{◌≡◌, true, length};
ghost use Rattle.cores.specs.Answers.{Lists};
ghost use Rattle.cores.specs.Founds.{Explored, Grown, Pivoted, Turns};
ghost use Rattle.cores.specs.Rows.{Fewest};

use crate::found::Found;
use crate::scope::Scope;
use crate::search::core_of;
use base::Refusal;
use criterion::Criterion;
use itemset::{Items, WordSet};

// Of the sets in a row that lie within another, one with the fewest items outside `held`.
fn pick(row: &[u32], within: u32, held: u32) -> Option<u32>
    ensures { Fewest row.now within held result }
{
    let mut best = None;
    let mut fewest = 33;
    for set in row {
        if *set & within != *set {
            continue;
        }
        let spare = (*set & !held).count_ones();
        // leaves early, since none has fewer, and to go on through a long row would cost most of the time of a list
        if spare == 0 {
            return Some(*set);
        }
        if spare < fewest {
            best = Some(*set);
            fewest = spare;
        }
    }
    best
}

// A core within the scope: one that is known, or else a new one.
fn pivot<C: Criterion>(
    criterion: &mut C,
    scope: Scope,
    held: u32,
    found: &mut Found<'_>,
) -> Result<Option<u32>, Refusal>
    ensures row { Grown found.old found.new }
    ensures core { Turns scope.set found.new result }
    ensures answer { Pivoted (C.Criterion.meaning criterion.old) scope.set found.old found.new result }
    ensures same { C.Criterion.meaning criterion.new ≡ C.Criterion.meaning criterion.old }
{
    if let Some(core) = pick(found.known(), scope.set, held) {
        return Ok(Some(core));
    }
    let Ok(core) = core_of(criterion, scope) else {
        return Ok(None);
    };
    found.insert(core)?;
    Ok(Some(core))
}

// Finds every core within the scope that contains `held`. A core other than the pivot lacks an item of it, and is found in
// the turn of the lowest such item, since it has the items that are held by then.
fn explore<C: Criterion>(
    criterion: &mut C,
    scope: Scope,
    mut held: u32,
    found: &mut Found<'_>,
) -> Result<(), Refusal>
    ensures row { Grown found.old found.new }
    ensures answer { Explored (C.Criterion.meaning criterion.old) scope.set held found.old found.new result }
    ensures same { C.Criterion.meaning criterion.new ≡ C.Criterion.meaning criterion.old }
{
    let Some(core) = pivot(criterion, scope, held, found)? else {
        return Ok(());
    };
    for item in Items(core & !held) {
        explore(criterion, scope.lacking(item), held, found)?;
        held |= 1 << item;
    }
    Ok(())
}

// The cores of the scope in rising order, and their count.
pub fn list_of<C: Criterion>(
    criterion: &mut C,
    scope: Scope,
    places: &mut [u32],
) -> Result<u32, Refusal>
    ensures lists_every_core { let m = C.Criterion.meaning criterion.old in m.order ≡ true → Lists m scope.set (length places.old) places.new result }
    ensures keeps_the_meaning { C.Criterion.meaning criterion.new ≡ C.Criterion.meaning criterion.old }
{
    let mut found = Found::new(places);
    // no `?`: the places, which were lent to the row until here, become 0 first
    if let Err(refusal) = explore(criterion, scope, 0, &mut found) {
        places.fill(0);
        return Err(refusal);
    }
    if found.count == 0 {
        return Err(Refusal::GetsNo);
    }
    Ok(found.count as u32)
}

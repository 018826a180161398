//! Tests of journals: entries, notes and shares of several makers.

ghost use Rattle.std.specs.Prelude.{◌≡◌, [], ◌∷◌, IfOk};

use super::*;
use seuss_base::{List, Memory};
use std::alloc::Global;
use std::sync::Arc;
use std::test::Fail;

fn one<T: Drop>(alloc: Global, item: T) -> Result<List<T>, Memory>
    ensures { IfOk result (λ list. list ≡ item ∷ []) }
{
    let mut list = List::new(alloc);
    list.push(item)?;
    Ok(list)
}

fn two<T: Drop>(alloc: Global, first: T, second: T) -> Result<List<T>, Memory>
    ensures { IfOk result (λ list. list ≡ first ∷ second ∷ []) }
{
    let mut list = one(alloc, first)?;
    list.push(second)?;
    Ok(list)
}

fn three<T: Drop>(alloc: Global, first: T, second: T, third: T) -> Result<List<T>, Memory>
    ensures { IfOk result (λ list. list ≡ first ∷ second ∷ third ∷ []) }
{
    let mut list = two(alloc, first, second)?;
    list.push(third)?;
    Ok(list)
}

/// Only what may go to another thread.
fn sent<T: Send>(value: T) -> T
    ensures { result ≡ value }
{
    value
}

#[test]
fn one_maker_appends_twice(rt: HostRuntime) -> Result<(), Fail> {
    let mut journal = Journal::<u64>::open(rt.alloc())?;
    let (mut note, mut share) = journal.seat()?;
    let first = journal.append(&mut note, &mut share, 5)?;
    let second = journal.append(&mut note, &mut share, 6)?;
    let count = share.count();
    let notes = one(rt.alloc(), note)?;
    let shares = one(rt.alloc(), share)?;
    let closed = journal.close(notes, shares);
    assert!(rt; first == 0 && second == 1 && count == 2);
    assert_eq!(rt; closed.entries.as_slice(), [5, 6].as_slice());
    assert_eq!(rt; closed.makers.as_slice(), [0, 0].as_slice());
    Ok(())
}

#[test]
fn two_makers_take_turns(rt: HostRuntime) -> Result<(), Fail> {
    let mut journal = Journal::<u64>::open(rt.alloc())?;
    let (mut note_a, mut share_a) = journal.seat()?;
    let (mut note_b, mut share_b) = journal.seat()?;
    let first = journal.append(&mut note_a, &mut share_a, 5)?;
    journal.meet(&mut note_b);
    let second = journal.append(&mut note_b, &mut share_b, 6)?;
    let counts = (share_a.count(), share_b.count());
    let notes = two(rt.alloc(), note_a, note_b)?;
    let shares = two(rt.alloc(), share_a, share_b)?;
    let closed = journal.close(notes, shares);
    assert!(rt; first == 0 && second == 1 && counts == (1, 1));
    assert_eq!(rt; closed.entries.as_slice(), [5, 6].as_slice());
    assert_eq!(rt; closed.makers.as_slice(), [0, 1].as_slice());
    Ok(())
}

#[test]
fn three_notes_meet_in_turns(rt: HostRuntime) -> Result<(), Fail> {
    let mut journal = Journal::<u8>::open(rt.alloc())?;
    let (mut note_a, mut share_a) = journal.seat()?;
    let (mut note_b, mut share_b) = journal.seat()?;
    journal.append(&mut note_a, &mut share_a, 1)?;
    let (mut note_c, mut share_c) = journal.seat()?;
    journal.meet(&mut note_b);
    journal.append(&mut note_c, &mut share_c, 2)?;
    journal.meet(&mut note_a);
    journal.append(&mut note_b, &mut share_b, 3)?;
    journal.meet(&mut note_c);
    let last = journal.append(&mut note_a, &mut share_a, 4)?;
    let counts = (share_a.count(), share_b.count(), share_c.count());
    let notes = three(rt.alloc(), note_a, note_b, note_c)?;
    let shares = three(rt.alloc(), share_a, share_b, share_c)?;
    let closed = journal.close(notes, shares);
    assert!(rt; last == 3 && counts == (2, 1, 1));
    assert_eq!(rt; closed.entries.as_slice(), [1, 2, 3, 4].as_slice());
    assert_eq!(rt; closed.makers.as_slice(), [0, 2, 1, 0].as_slice());
    Ok(())
}

#[test]
fn entries_that_own_memory_are_dropped_once(rt: HostRuntime) -> Result<(), Fail> {
    let counted = Arc::new(rt.alloc(), 7u8)?;
    let mut journal = Journal::<List<Arc<u8>>>::open(rt.alloc())?;
    let (mut note, mut share) = journal.seat()?;
    let entry = one(rt.alloc(), Arc::try_clone(&counted)?)?;
    journal.append(&mut note, &mut share, entry)?;
    let journal = sent(journal);
    let notes = one(rt.alloc(), sent(note))?;
    let shares = one(rt.alloc(), sent(share))?;
    let closed = journal.close(notes, shares);
    assert!(rt; Arc::strong_count(&counted) == 2);
    drop(closed);
    assert!(rt; Arc::strong_count(&counted) == 1);
    Ok(())
}

#[test]
fn a_dropped_journal_drops_its_entries_once(rt: HostRuntime) -> Result<(), Fail> {
    let counted = Arc::new(rt.alloc(), 7u8)?;
    let mut journal = Journal::<List<Arc<u8>>>::open(rt.alloc())?;
    let (mut note, mut share) = journal.seat()?;
    let entry = one(rt.alloc(), Arc::try_clone(&counted)?)?;
    journal.append(&mut note, &mut share, entry)?;
    drop(journal);
    assert!(rt; Arc::strong_count(&counted) == 1);
    Ok(())
}

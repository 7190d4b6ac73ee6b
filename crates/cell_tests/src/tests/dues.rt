//! Both ways to keep due moments.

ghost use Rattle.std.specs.Prelude.{◌≡◌, ◌<◌, length, slice_set, Some};
ghost use Rattle.cell_control.specs.Dues.{due_at};

use cell_control::{Dues, ScanDues, TourneyDues};
use shop_base::Moment;
use std::process::Abort;
use std::test::Fail;

/// Gives the key this due moment, and answers the one that it had.
fn replace<D: Dues>(dues: &mut D, key: u32, due: Moment) -> Option<Moment>
    requires { key < length (D.dues dues.old) }
    ensures before { result ≡ due_at (D.dues dues.old) key }
    ensures after { D.dues dues.new ≡ slice_set (D.dues dues.old) key (Some due) }
{
    let before = dues.get(key);
    dues.set(key, due);
    before
}

/// Whether these are the least due moment, and those of keys 0 and 3.
fn are_due<D: Dues>(
    dues: &D,
    least: Option<Moment>,
    first: Option<Moment>,
    third: Option<Moment>,
) -> bool {
    dues.least() == least && dues.get(0) == first && dues.get(3) == third
}

fn notes_each_change<D: Dues>(rt: &(impl Abort + AllocGlobal)) -> Result<(), Fail> {
    let mut dues = D::sized(rt.alloc(), 5)?;
    dues.set(0, 7);
    dues.set(3, 4);
    dues.set(4, 4);
    let set = are_due(&dues, Some(4), Some(7), Some(4));
    dues.clear(3);
    let one_cleared = are_due(&dues, Some(4), Some(7), None);
    dues.clear(4);
    let two_cleared = are_due(&dues, Some(7), Some(7), None);
    let before = replace(&mut dues, 0, 9);
    let replaced = are_due(&dues, Some(9), Some(9), None);
    let past_the_end = dues.get(5);
    dues.clear(0);
    dues.clear(0);
    let all_cleared = are_due(&dues, None, None, None);
    drop(dues);
    assert!(rt; set && one_cleared && two_cleared);
    assert!(rt; before == Some(7) && replaced);
    assert!(rt; past_the_end.is_none() && all_cleared);
    Ok(())
}

fn takes_any_size_and_moment<D: Dues>(rt: &(impl Abort + AllocGlobal)) -> Result<(), Fail> {
    let none = D::sized(rt.alloc(), 0)?;
    let is_empty = are_due(&none, None, None, None);
    drop(none);
    let mut one = D::sized(rt.alloc(), 1)?;
    let unset = one.least();
    one.set(0, u64::MAX);
    let only = one.least();
    drop(one);
    let mut many = D::sized(rt.alloc(), 300)?;
    many.set(299, 0);
    many.set(150, u64::MAX);
    let least = many.least();
    many.clear(299);
    let left = many.least();
    drop(many);
    assert!(rt; is_empty && unset.is_none() && only == Some(u64::MAX));
    assert!(rt; least == Some(0) && left == Some(u64::MAX));
    Ok(())
}

#[test]
fn scan_dues_note_each_change(rt: HostRuntime) -> Result<(), Fail> {
    notes_each_change::<ScanDues>(&rt)?;
    takes_any_size_and_moment::<ScanDues>(&rt)
}

#[test]
fn tourney_dues_note_each_change(rt: HostRuntime) -> Result<(), Fail> {
    notes_each_change::<TourneyDues>(&rt)?;
    takes_any_size_and_moment::<TourneyDues>(&rt)
}

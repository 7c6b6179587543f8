ghost use Rattle.std.specs.Prelude.{◌≡◌};
ghost use Rattle.vfa_fact.specs.Cells.{IsCell};

use crate::any_fact::AnyFact;
use crate::fact_calls::{includes, join, of_cell, of_cells, rank, single, widen};
use crate::{restrictions, widening};
use vfa_dom::Domain;
use vfa_fact::{Cell, Fact, Numbers, Parts, Test};
use vfa_word::Word;
use vfa_wrap::Wrapped;

/// Landmarks of width 8.
const MARKS: [u128; 7] = [0, 10, 100, 127, 128, 200, 255];

/// The cell of the numbers from `first` up to `last`, of width 8.
fn between(first: u128, last: u128, never_poison: bool) -> Cell
    ensures width { result.width ≡ 8 }
    ensures cell { IsCell result }
{
    let arc = Wrapped::new(Word::cut(first), Word::cut(last));
    let all: Fact<8> = Fact::any();
    let fact = Fact::sharp(all.known(), arc, &Test::any()).unwrap_or(all);
    Cell::of(&fact, never_poison)
}

/// The numbers with these ends, where these bits are known to be zero and none to be one.
fn ends(zeros: u128, first: u128, last: u128) -> Option<Numbers> {
    Some(Numbers {
        zeros,
        ones: 0,
        first,
        last,
    })
}

/// A cell of width 8 widened by another one.
fn widened(old: &Cell, new: &Cell, round: u32) -> Cell
    requires old { old.now.width ≡ 8 }
    requires new { new.now.width ≡ 8 }
{
    widening::widen(old, new, round, &MARKS)
}

fn is_marked(fact: &AnyFact) -> bool {
    match &fact.parts {
        Parts::One(cell) => cell.never_poison,
        Parts::Two(number, bit) => number.never_poison && bit.never_poison,
    }
}

#[test]
fn an_arc_that_grows_goes_on_to_landmarks_and_then_to_all_numbers(rt: HostRuntime) {
    let old = between(20, 50, true);
    let new = between(20, 60, false);
    assert!(rt; widened(&old, &new, 3).numbers == ends(0xc0, 20, 60));
    assert!(rt; widened(&old, &new, 4).numbers == ends(0x80, 20, 100));
    assert!(rt; widened(&old, &new, 8).numbers == ends(0x80, 20, 100));
    let last = widened(&old, &new, 9);
    assert!(rt; last.numbers == ends(0, 0, 255));
    assert!(rt; !last.never_poison);
    assert!(rt; widened(&old, &old, 9).numbers == old.numbers);
}

#[test]
fn what_has_no_numbers_is_widened_to_the_join(rt: HostRuntime) {
    let none = Cell::none(8);
    let new = between(20, 60, true);
    assert!(rt; widened(&none, &new, 9).numbers == ends(0xc0, 20, 60));
}

#[test]
fn the_second_part_of_a_pair_has_landmarks_of_its_own(rt: HostRuntime) {
    let old = of_cells(between(20, 50, true), Cell::literal(1, 0));
    let new = of_cells(between(20, 60, true), Cell::literal(1, 1));
    let wide = widen(&old, &new, 4, &MARKS);
    match &wide.parts {
        Parts::Two(number, bit) => {
            assert!(rt; number.numbers == ends(0x80, 20, 100));
            assert!(rt; bit.numbers == ends(0, 0, 1));
        }
        Parts::One(_) => assert!(rt; false),
    }
}

#[test]
fn ranks_count_known_bits_twice(rt: HostRuntime) {
    assert_eq!(rt; rank(&of_cell(Cell::none(8))), 19);
    assert_eq!(rt; rank(&of_cell(Cell::literal(8, 5))), 17);
    assert_eq!(rt; rank(&of_cell(between(20, 50, true))), 6);
    assert_eq!(rt; rank(&of_cell(Cell::any(8, false))), 0);
    assert_eq!(rt; rank(&of_cells(Cell::any(8, true), Cell::any(1, true))), 2);
}

#[test]
fn joins_and_inclusions_go_part_by_part(rt: HostRuntime) {
    let one = of_cells(Cell::literal(8, 4), Cell::literal(1, 0));
    let two = of_cells(Cell::literal(8, 12), Cell::literal(1, 0));
    let all = of_cells(Cell::any(8, false), Cell::any(1, false));
    assert!(rt; is_marked(&join(&one, &two)) && !is_marked(&join(&one, &all)));
    assert!(rt; includes(&all, &one) && !includes(&one, &all));
    assert!(rt; !includes(&one, &two));
    assert_eq!(rt; single(&one), None);
}

#[test]
fn numbers_that_agree_under_a_mask_are_kept(rt: HostRuntime) {
    let some = between(0, 20, false);
    let odd = restrictions::with_bits(&some, 3, 1).expect(&rt, "1, 5, 9, 13 and 17");
    let kept = odd.numbers.expect(&rt, "numbers");
    assert_eq!(rt; (kept.zeros, kept.ones), (0b1110_0010, 1));
    assert_eq!(rt; (kept.first, kept.last), (1, 17));
    assert!(rt; odd.never_poison);
    let four = Cell::literal(8, 4);
    assert!(rt; restrictions::with_bits(&four, 3, 1).is_none());
}

#[test]
fn numbers_whose_sum_lies_in_an_arc_are_kept(rt: HostRuntime) {
    let wide = between(200, 100, false);
    let sums = between(5, 20, false);
    let moved = restrictions::moved_from(&wide, &sums, 10).expect(&rt, "251 to 10");
    assert!(rt; moved.numbers == ends(0, 251, 10));
    assert!(rt; moved.never_poison);
    let none = Cell::none(8);
    assert!(rt; restrictions::moved_from(&wide, &none, 10).is_none());
}

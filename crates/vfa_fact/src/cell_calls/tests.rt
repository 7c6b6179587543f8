use crate::{Cell, Fact, Test};
use vfa_dom::{Domain, SetOf};
use vfa_ir::Pred;
use vfa_word::Word;
use vfa_wrap::Wrapped;

/// The fact of a number of width 8.
fn only(x: u128) -> Fact<8> {
    Fact::only(Word::cut(x))
}

/// The fact of the numbers from `first` up to `last`, of width 8.
fn between(first: u128, last: u128) -> Fact<8> {
    let arc = Wrapped::new(Word::cut(first), Word::cut(last));
    let any: Fact<8> = Fact::any();
    Fact::sharp(any.known(), arc, &Test::inside(arc)).unwrap_or(any)
}

#[test]
fn joins_numbers_and_marks(rt: HostRuntime) {
    let four = Cell::of(&only(4), true);
    let twelve = Cell::of(&only(12), true);
    let both = four.join(&twelve);
    let numbers = both.numbers.expect(&rt, "4 and 12");
    assert_eq!(rt; (numbers.zeros, numbers.ones), (0b1111_0011, 0b100));
    assert_eq!(rt; (numbers.first, numbers.last), (4, 12));
    assert!(rt; both.never_poison);
    assert!(rt; !four.join(&Cell::of(&only(12), false)).never_poison);
}

#[test]
fn joins_only_poison(rt: HostRuntime) {
    let poison = Cell::none(8);
    let five = Cell::literal(8, 5);
    assert!(rt; !poison.never_poison && five.never_poison);
    let left = poison.join(&five);
    assert_eq!(rt; left.single(), Some(5));
    assert!(rt; !left.never_poison);
    let right = five.join(&poison);
    assert_eq!(rt; right.single(), Some(5));
    assert!(rt; !right.never_poison);
    let none = poison.join(&poison);
    assert!(rt; none.numbers.is_none() && !none.never_poison);
    let same = five.join(&five);
    assert!(rt; same.never_poison && same.numbers == five.numbers);
}

#[test]
fn compares_and_decides(rt: HostRuntime) {
    let wide = Cell::of(&between(0, 200), false);
    let small = Cell::of(&between(9, 20), false);
    let rest = wide.compare(Pred::Ugt, &small).expect(&rt, "10 and more");
    let numbers = rest.numbers.expect(&rt, "10 and more");
    assert_eq!(rt; (numbers.first, numbers.last), (10, 200));
    assert!(rt; rest.never_poison);
    assert!(rt; small.compare(Pred::Ugt, &wide).is_some());
    assert_eq!(rt;
        Cell::decide(
            Pred::Ult,
            &Cell::of(&between(0, 4), true),
            &Cell::of(&between(5, 9), true)
        ),
        Some(true)
    );
    assert_eq!(rt; Cell::decide(Pred::Ult, &small, &wide), None);
}

#[test]
fn ends_of_cells(rt: HostRuntime) {
    let ends = Cell::of(&between(250, 4), false)
        .ends()
        .expect(&rt, "there are numbers");
    assert_eq!(rt; (ends.lo, ends.hi), (0, 255));
    assert_eq!(rt; (ends.slo, ends.shi), (-6, 4));
    let fact: Fact<8> = Cell::of(&only(7), false).typed().expect(&rt, "7");
    assert_eq!(rt; fact.arc().first().bits(), 7);
}

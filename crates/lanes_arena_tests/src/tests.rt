//! Values and texts by number, with ample memory.
use crate::shared::{Named, read_twice};
use lanes_arena::{Arena, ArenaFault, Bytes, Memory, Names, Row};

#[test]
fn values_keep_their_numbers(rt: HostRuntime) {
    let mut squares: Arena<u64> = Arena::new(rt.alloc());
    assert!(rt; squares.reserve(3) == Ok(()));
    assert!(rt; squares.reserve(2) == Ok(()));
    let zero = squares.push(0);
    let one = squares.push(1);
    let two = squares.push(4);
    assert!(rt; squares.len() == 3);
    assert!(rt; (zero.number(), one.number(), two.number()) == (0, 1, 2));
    assert!(rt; zero != one && one == one);
    *squares.get_mut(two) += 5;
    assert!(rt; *squares.get(two) == 9 && *squares.get(one) == 1);
    assert!(rt; squares.reserve(u32::MAX as usize - 2) == Err(ArenaFault::Full));
    assert!(rt; squares.reserve(1) == Ok(()) && squares.len() == 3);
}

#[test]
fn each_text_has_one_number(rt: HostRuntime) {
    let mut names = Names::new(rt.alloc());
    let words = [b"print".as_slice(), b"", b"a\0b", b"print", b"", b"x"];
    let wanted = [0, 1, 2, 0, 1, 3];
    for (word, number) in words.iter().zip(wanted) {
        let id = names.name(word).expect(&rt, "there is memory");
        assert!(rt; id.number() == number);
    }
    let print = names.find(b"print").expect(&rt, "it was named");
    assert!(rt; names.find(b"a").is_none());
    assert!(rt; print.number() == 0);
}

/// The text of the number that it gets.
fn text_again<'a>(names: &'a mut Names, text: &[u8]) -> Result<&'a [u8], Memory> {
    let id = names.name(text)?;
    Ok(names.text(id))
}

#[test]
fn a_name_gives_its_text(rt: HostRuntime) {
    let mut names = Names::new(rt.alloc());
    assert!(rt; text_again(&mut names, b"one") == Ok(b"one".as_slice()));
    assert!(rt; text_again(&mut names, b"two") == Ok(b"two".as_slice()));
    assert!(rt; text_again(&mut names, b"one") == Ok(b"one".as_slice()));
}

#[test]
fn parts_and_copies_of_a_text_are_its_bytes(rt: HostRuntime) -> Result<(), Memory> {
    let text = Bytes::of(rt.alloc(), b"local x")?;
    let name = text.part(6, 7)?;
    let word = text.part(0, 5)?.part(1, 5)?;
    let again = word.copy()?;
    assert!(rt; name.as_slice() == b"x".as_slice());
    assert!(rt; word.as_slice() == b"ocal".as_slice() && again == word);
    assert!(rt; text.part(7, 7)?.as_slice() == b"".as_slice());
    assert!(rt; text.as_slice() == b"local x".as_slice());
    Ok(())
}

#[test]
fn a_row_keeps_its_values_in_order(rt: HostRuntime) -> Result<(), Memory> {
    let mut row: Row<u64> = Row::new(rt.alloc());
    assert!(rt; row.is_empty());
    row.push(4)?;
    row.push(2)?;
    assert!(rt; !row.is_empty() && row.as_slice() == [4, 2].as_slice());
    let mut values = row.into_vec();
    values.push(1)?;
    assert!(rt; Row::of(values).as_slice() == [4, 2, 1].as_slice());
    Ok(())
}

#[test]
fn two_threads_read_one_value(rt: HostRuntime) -> Result<(), Memory> {
    let mut values = Row::new(rt.alloc());
    values.push(4)?;
    let name = Bytes::of(rt.alloc(), b"print")?;
    let seen = read_twice(&rt, rt.alloc(), Named { name, values })?;
    assert!(rt; seen == ((5, 1), (5, 1)));
    Ok(())
}

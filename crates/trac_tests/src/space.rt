//! The three lists of a block.
use std::process::Abort;
use std::test::Fail;
use trac_space::{Cell, Mode, Space, are_characters, make_block};

fn is_byte(cell: Option<Cell>, byte: u8) -> bool {
    match cell {
        Some(Cell::Byte(b)) => b == byte,
        _ => false,
    }
}

fn are_bytes(cells: &[Cell], text: &[u8]) -> bool {
    if cells.len() != text.len() {
        return false;
    }
    for (cell, byte) in cells.iter().zip(text) {
        if !is_byte(Some(*cell), *byte) {
            return false;
        }
    }
    true
}

fn is_call(cell: Option<Cell>, mode: Mode, number: u32) -> bool {
    match cell {
        Some(Cell::Call(m, n)) => m == mode && n == number,
        _ => false,
    }
}

// How many arguments the innermost open call has.
fn arguments(space: &Space) -> Option<u32> {
    match space.last_call() {
        Some(call) => Some(space.arguments(call, space.neutral_len())),
        None => None,
    }
}

fn argument(space: &Space, k: u32) -> Option<(u32, u32)> {
    match space.last_call() {
        Some(call) => space.argument(call, space.neutral_len(), k),
        None => None,
    }
}

#[test]
fn block_of_bytes(rt: HostRuntime) -> Result<(), Fail> {
    let block = make_block(rt.alloc(), 5)?;
    assert_eq!(rt; block.len(), 5);
    for cell in &block {
        assert!(rt; is_byte(Some(*cell), 0));
    }
    assert!(rt; make_block(rt.alloc(), 0)?.is_empty());
    Ok(())
}

#[test]
fn numbers_of_call_marks(rt: HostRuntime) {
    let mut block = [Cell::Gap(7); 8];
    let mut space = Space::over(&mut block);
    assert!(rt; space.push_neutral(Cell::Call(Mode::Active, 9)));
    assert!(rt; space.push_neutral(Cell::Byte(97)));
    assert!(rt; space.push_neutral(Cell::Comma));
    assert!(rt; space.push_neutral(Cell::Call(Mode::Neutral, 9)));
    assert!(rt; space.push_neutral(Cell::Byte(98)));
    assert!(rt; is_call(space.neutral_at(0), Mode::Active, 0));
    assert!(rt; is_call(space.neutral_at(3), Mode::Neutral, 3));
    assert!(rt; space.last_call() == Some(3));
    space.drop_neutral(2, 4);
    assert!(rt; is_call(space.neutral_at(0), Mode::Active, 0));
    assert!(rt; is_byte(space.neutral_at(1), 97));
    assert!(rt; is_byte(space.neutral_at(2), 98));
    assert!(rt; space.last_call() == Some(0));
    space.cut_neutral(0);
    assert!(rt; space.last_call().is_none());
}

fn moves_to_the_store(rt: &impl Abort, block: &mut [Cell; 3]) {
    let mut space = Space::over(block);
    assert!(rt; space.load_active(b"C"));
    assert!(rt; space.push_neutral(Cell::Byte(b'A')));
    space.neutral_to_store(0);
    assert!(rt; space.push_neutral(Cell::Byte(b'B')));
    assert!(rt; !space.push_neutral(Cell::Byte(b'D')));
    space.neutral_to_store(0);
    assert!(rt; is_byte(space.store_at(0), b'A'));
    assert!(rt; is_byte(space.store_at(1), b'B'));
    assert!(rt; space.neutral_len() == 0);
    assert!(rt; is_byte(space.active_at(0), b'C'));
}

fn moves_to_the_active_string(rt: &impl Abort, block: &mut [Cell; 3]) {
    let mut space = Space::over(block);
    assert!(rt; space.load_active(b"C"));
    assert!(rt; space.push_neutral(Cell::Byte(b'A')));
    space.neutral_to_store(0);
    assert!(rt; space.push_neutral(Cell::Byte(b'B')));
    space.neutral_to_active(0);
    assert!(rt; is_byte(space.store_at(0), b'A'));
    assert!(rt; space.neutral_len() == 0);
    assert!(rt; is_byte(space.active_at(0), b'B'));
    assert!(rt; is_byte(space.active_at(1), b'C'));
}

#[test]
fn moves_with_no_free_cell(rt: HostRuntime) {
    let mut block = [Cell::Gap(7); 3];
    moves_to_the_store(&rt, &mut block);
    moves_to_the_active_string(&rt, &mut block);
    assert!(rt; are_bytes(&block, b"ABC"));
}

#[test]
fn the_store_is_opened(rt: HostRuntime) {
    let mut block = [Cell::Gap(7); 16];
    let mut space = Space::over(&mut block);
    assert!(rt; space.push_bytes(b"ABCDEFGHI"));
    space.open_store(2);
    space.write_store(0, Cell::Byte(b'X'));
    space.write_part(1, 8, 9);
    assert!(rt; space.store_len() == 2);
    assert!(rt; are_bytes(space.store_part(0, 2), b"XI"));
    assert!(rt; are_bytes(space.neutral_part(0, 9), b"ABCDEFGHI"));
}

#[test]
fn the_mode_of_a_call(rt: HostRuntime) {
    let mut block = [Cell::Gap(7); 4];
    let mut space = Space::over(&mut block);
    space.put_neutral(Cell::Call(Mode::Active, 9));
    assert!(rt; matches!(space.call_mode(0), Mode::Active));
    space.put_neutral(Cell::Call(Mode::Neutral, 9));
    assert!(rt; matches!(space.call_mode(1), Mode::Neutral));
}

#[test]
fn eight_characters(rt: HostRuntime) {
    let mut cells = [Cell::Byte(0); 9];
    assert!(rt; are_characters(&cells, 1));
    cells[0] = Cell::Comma;
    assert!(rt; are_characters(&cells, 1));
    assert!(rt; !are_characters(&cells, 0));
}

#[test]
fn block_after_use(rt: HostRuntime) -> Result<(), Fail> {
    let mut block = make_block(rt.alloc(), 3)?;
    assert_eq!(rt; block.len(), 3);
    let mut space = Space::over(&mut block);
    assert!(rt; space.push_neutral(Cell::Head(1)));
    space.neutral_to_store(0);
    assert!(rt; matches!(block[0], Cell::Head(1)));
    Ok(())
}

#[test]
fn from_active_to_neutral(rt: HostRuntime) {
    let mut block = [Cell::Gap(7); 6];
    let mut space = Space::over(&mut block);
    assert!(rt; space.load_active(b"ABCDE"));
    assert!(rt; space.active_len() == 5);
    assert!(rt; are_bytes(space.active_part(1, 3), b"BC"));
    assert!(rt; are_bytes(space.active_part(0, 5), b"ABCDE"));
    assert!(rt; space.active_part(5, 5).is_empty());
    space.drop_active(1);
    assert!(rt; is_byte(space.active_at(0), b'B'));
    assert!(rt; space.free() == 2);
    assert!(rt; space.push_neutral(Cell::Byte(b'x')));
    space.active_to_neutral(2);
    assert!(rt; space.neutral_len() == 3);
    assert!(rt; are_bytes(space.neutral_part(0, 3), b"xBC"));
    assert!(rt; are_bytes(space.active_part(0, 2), b"DE"));
    space.drop_active(2);
    assert!(rt; space.active_at(0).is_none());
}

#[test]
fn from_active_to_neutral_with_no_free_cell(rt: HostRuntime) {
    let mut block = [Cell::Gap(7); 4];
    {
        let mut space = Space::over(&mut block);
        assert!(rt; space.load_active(b"ABC"));
        assert!(rt; space.push_neutral(Cell::Call(Mode::Active, 0)));
        assert!(rt; space.free() == 0);
        space.active_to_neutral(3);
        assert!(rt; space.active_len() == 0);
        assert!(rt; are_bytes(space.neutral_part(1, 4), b"ABC"));
        assert!(rt; space.last_call() == Some(0));
    }
    {
        let mut space = Space::over(&mut block);
        assert!(rt; space.load_active(b"ABC"));
        space.active_to_neutral(2);
        assert!(rt; are_bytes(space.neutral_part(0, 2), b"AB"));
        assert!(rt; are_bytes(space.active_part(0, 1), b"C"));
    }
}

#[test]
fn arguments_of_a_call(rt: HostRuntime) {
    let mut block = [Cell::Gap(7); 9];
    let mut space = Space::over(&mut block);
    assert!(rt; arguments(&space).is_none());
    // #(ps,a,bc and what stands before it
    assert!(rt; space.push_bytes(b"x"));
    assert!(rt; space.push_neutral(Cell::Call(Mode::Active, 0)));
    assert!(rt; space.push_bytes(b"ps"));
    assert!(rt; space.push_neutral(Cell::Comma));
    assert!(rt; space.push_bytes(b"a"));
    assert!(rt; space.push_neutral(Cell::Comma));
    assert!(rt; space.push_bytes(b"bc"));
    assert!(rt; space.last_call() == Some(1));
    assert!(rt; arguments(&space) == Some(3));
    assert!(rt; argument(&space, 0) == Some((2, 4)));
    assert!(rt; argument(&space, 1) == Some((5, 6)));
    assert!(rt; argument(&space, 2) == Some((7, 9)));
    assert!(rt; argument(&space, 3).is_none());
    space.clear_neutral();
    assert!(rt; space.last_call().is_none());
    assert!(rt; space.neutral_len() == 0);
}

#[test]
fn text_behind_neutral(rt: HostRuntime) {
    let mut block = [Cell::Gap(7); 6];
    let mut space = Space::over(&mut block);
    assert!(rt; space.load_active(b"z"));
    assert!(rt; space.push_neutral(Cell::Call(Mode::Active, 0)));
    assert!(rt; space.push_bytes(b"abc"));
    assert!(rt; are_bytes(space.neutral_part(1, 4), b"abc"));
    assert!(rt; space.last_call() == Some(0));
    assert!(rt; !space.push_bytes(b"de"));
    assert!(rt; space.neutral_len() == 4);
    assert!(rt; space.push_bytes(b"d"));
    assert!(rt; are_bytes(space.neutral_part(1, 5), b"abcd"));
    assert!(rt; is_byte(space.active_at(0), b'z'));
    assert!(rt; space.push_bytes(b""));
    assert!(rt; space.free() == 0);
}

#[test]
fn copies_and_the_store(rt: HostRuntime) {
    let mut block = [Cell::Gap(7); 8];
    let mut space = Space::over(&mut block);
    assert!(rt; space.room() == 8);
    assert!(rt; space.push_neutral(Cell::Byte(b'a')));
    assert!(rt; space.push_neutral(Cell::Byte(b'b')));
    assert!(rt; space.push_neutral(Cell::Byte(b'c')));
    space.neutral_to_store(0);
    assert!(rt; space.store_len() == 3);
    assert!(rt; space.copy_store(1, 3));
    assert!(rt; are_bytes(space.neutral_part(0, 2), b"bc"));
    assert!(rt; space.neutral_len() == 2);
    assert!(rt; space.copy_neutral(0, 1));
    assert!(rt; are_bytes(space.neutral_part(0, 3), b"bcb"));
    assert!(rt; space.used() == 6);
    assert!(rt; !space.copy_store(0, 3));
    assert!(rt; !space.load_active(b"xyz"));
    assert!(rt; space.load_active(b"xy"));
    assert!(rt; space.free() == 0);
    assert!(rt; space.store_len() == 3);
    space.write_store(1, Cell::Gap(4));
    assert!(rt; matches!(space.store_at(1), Some(Cell::Gap(4))));
    space.remove_store(0, 2);
    assert!(rt; are_bytes(space.store_part(0, 1), b"c"));
    assert!(rt; are_bytes(space.neutral_part(0, 3), b"bcb"));
    space.clear_active();
    assert!(rt; space.active_len() == 0);
    assert!(rt; space.take_active().is_none());
    assert!(rt; space.free() == 4);
}

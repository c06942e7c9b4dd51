//! The cells of a modelled disk.
ghost use Rattle.std.specs.Prelude.{◌≡◌, ◌≤◌, ◌+◌, length};
ghost use Rattle.boot_store.specs.Moment.{bytes_of, kept_cell, synced, synced_cell, written};
ghost use Rattle.boot_store.specs.Cells.{crashed, crashed_cell, lost, lost_cell, read_once, shown_cell};

use crate::{Cell, Hold};

/// Overwrites cells from index `at` on with these bytes, which the next sync keeps.
pub fn write_cells(cells: &mut [Cell], at: usize, bytes: &[u8])
    requires { at + length bytes.now ≤ length cells.old }
    ensures { cells.new ≡ written at bytes.now cells.old }
{
    for (i, byte) in bytes.iter().enumerate() {
        cells[at + i] = Cell {
            byte: *byte,
            hold: Hold::Loose,
        };
    }
}

fn kept_cell(byte: u8) -> Cell
    ensures { result ≡ kept_cell byte }
{
    Cell {
        byte,
        hold: Hold::Kept,
    }
}

fn synced_cell(cell: Cell) -> Cell
    ensures { result ≡ synced_cell cell }
{
    match cell.hold {
        Hold::Kept | Hold::Loose => kept_cell(cell.byte),
        Hold::Lost => cell,
    }
}

fn lost_cell(cell: Cell) -> Cell
    ensures { result ≡ lost_cell cell }
{
    match cell.hold {
        Hold::Kept => cell,
        Hold::Loose | Hold::Lost => Cell {
            byte: cell.byte,
            hold: Hold::Lost,
        },
    }
}

fn crashed_cell(any: u8, cell: Cell) -> Cell
    ensures { result ≡ crashed_cell any cell }
{
    match cell.hold {
        Hold::Kept => cell,
        Hold::Loose | Hold::Lost => kept_cell(any),
    }
}

fn shown_cell(any: u8, cell: Cell) -> Cell
    ensures { result ≡ shown_cell any cell }
{
    match cell.hold {
        Hold::Kept | Hold::Loose => cell,
        Hold::Lost => kept_cell(any),
    }
}

/// Changes the cells as a sync that succeeds does.
pub fn sync_cells(cells: &mut [Cell])
    ensures { cells.new ≡ synced cells.old }
{
    for cell in cells.iter_mut() {
        *cell = synced_cell(*cell);
    }
}

/// Changes the cells as a sync that fails does.
pub fn lose_cells(cells: &mut [Cell])
    ensures { cells.new ≡ lost cells.old }
{
    for cell in cells.iter_mut() {
        *cell = lost_cell(*cell);
    }
}

/// Changes the cells as a crash does. A byte that isn't kept becomes the one at its place in `any`.
pub fn crash_cells(cells: &mut [Cell], any: &[u8])
    requires { length cells.old ≡ length any.now }
    ensures { cells.new ≡ crashed any.now cells.old }
{
    for (i, cell) in cells.iter_mut().enumerate() {
        *cell = crashed_cell(any[i], *cell);
    }
}

/// Changes the cells as a read does: a byte that is lost becomes the one at its place in `any`, and
/// is kept.
pub fn show_cells(cells: &mut [Cell], any: &[u8])
    requires { length cells.old ≡ length any.now }
    ensures { cells.new ≡ read_once any.now cells.old }
{
    for (i, cell) in cells.iter_mut().enumerate() {
        *cell = shown_cell(any[i], *cell);
    }
}

/// Copies the cells' bytes into the buffer.
pub fn read_cells(cells: &[Cell], room: &mut [u8])
    requires { length room.old ≡ length cells.now }
    ensures { room.new ≡ bytes_of cells.now }
{
    for (i, cell) in cells.iter().enumerate() {
        room[i] = cell.byte;
    }
}

//! Items that include a file.

ghost use Rattle.std.specs.Prelude.{◌≡◌, map};
ghost use Rattle.std.specs.List.{list_any};
ghost use Rattle.std.specs.Str.{bytes_eq};
ghost use Rattle.ms_syntax.specs.Tree.{item_view};
ghost use Rattle.ms_declarations.specs.Include as spec;

use ms_syntax::{Item, Place};

/// Whether a file may be included. Such a file adds nothing.
fn is_known(file: &[u8]) -> bool
    ensures { result ≡ list_any (bytes_eq file.now) spec.known_files }
{
    if file == b"globals.mzn".as_slice() {
        true
    } else if file == b"minisearch.mzn".as_slice() {
        true
    } else if file == b"all_different.mzn".as_slice() {
        true
    } else if file == b"alldifferent.mzn".as_slice() {
        true
    } else if file == b"table.mzn".as_slice() {
        true
    } else if file == b"count.mzn".as_slice() {
        true
    } else if file == b"cumulative.mzn".as_slice() {
        true
    } else if file == b"circuit.mzn".as_slice() {
        true
    } else {
        false
    }
}

/// The place of the first item that includes a file that may not be included.
pub fn first_include(items: &[Item]) -> Option<Place>
    ensures { result ≡ spec.first_include (map item_view items.now) }
{
    for item in items {
        if let Some(place) = unknown_file(item) {
            return Some(place);
        }
    }
    None
}

fn unknown_file(item: &Item) -> Option<Place>
    ensures { result ≡ spec.unknown_file (item_view item.now) }
{
    match item {
        Item::Include(place, file) => {
            if is_known(file.as_slice()) {
                None
            } else {
                Some(*place)
            }
        }
        _ => None,
    }
}

/// Whether one of the items is a solve item.
pub fn has_solve(items: &[Item]) -> bool
    ensures { result ≡ spec.has_solve (map item_view items.now) }
{
    for item in items {
        if is_solve(item) {
            return true;
        }
    }
    false
}

fn is_solve(item: &Item) -> bool
    ensures { result ≡ spec.is_solve (item_view item.now) }
{
    match item {
        Item::Solve(_, _, _) => true,
        _ => false,
    }
}

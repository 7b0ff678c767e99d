// Where the arguments of a case stand, by its first octet, the entry. Every entry has two lent buffers, here in capitals:
//   1 read       form, source, CANONICAL, TABLE
//   2 write      form, CANONICAL, length, OUT
//   3 replace    form, text, CANONICAL, TABLE, length, nodes, node
//   4 same       A, a_length, B, b_length, default_hint
//   5 hint       CANONICAL, length, TABLE, nodes, node, default_hint
//   6 data       CANONICAL, length, TABLE, nodes, node
use crate::wire::{octet, past, slice_end};

// The first lent buffer.
pub fn first(case: &[u8]) -> usize {
    match octet(case, 0) {
        1 | 3 => slice_end(case, 5),
        2 => 5,
        _ => 1,
    }
}

// The second, where the first ends at `at`.
pub fn second(case: &[u8], at: usize) -> usize {
    match octet(case, 0) {
        1 | 3 => at,
        _ => past(case, at, 8),
    }
}

// The end of the last argument, where the second lent buffer ends at `at`.
pub fn last(case: &[u8], at: usize) -> usize {
    match octet(case, 0) {
        1 | 2 => at,
        3 => past(case, at, 24),
        4 => slice_end(case, past(case, at, 8)),
        5 => slice_end(case, past(case, at, 16)),
        _ => past(case, at, 16),
    }
}

// The most octets that the second lent buffer may have, where it is one of octets.
pub fn most(case: &[u8]) -> usize {
    match octet(case, 0) {
        2 => 40000,
        _ => 16500,
    }
}

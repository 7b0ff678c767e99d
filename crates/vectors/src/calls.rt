// The entries under test, each with the values that a line of `expected` has.
use answers::{Part, Reading, Refusal};
use cases::wire::part;

// The answer's number and the entry's values. The number 0 to 8 is the refusal's; for hint and data 1 says that a part is shown. There
// is none where the entry that shows octets and the one that tells their place do not agree.
#[derive(Drop)]
pub struct Answer {
    pub number: Option<u32>,
    pub first: usize,
    pub second: usize,
}

fn told(number: u32, first: usize, second: usize) -> Answer {
    Answer {
        number: Some(number),
        first,
        second,
    }
}

fn refused(refusal: Refusal) -> Answer {
    told(refusal.number(), 0, 0)
}

fn of_reading(reading: Reading) -> Answer {
    match reading {
        Ok(sizes) => told(0, sizes.length, sizes.nodes),
        Err(refusal) => refused(refusal),
    }
}

pub fn read(form: u32, source: &[u8], canonical: &mut [u8], table: &mut [u32]) -> Answer {
    of_reading(etglavino::read(form, source, canonical, table))
}

pub fn write(form: u32, canonical: &[u8], length: usize, out: &mut [u8]) -> Answer {
    match etglavino::write(form, canonical, length, out) {
        Ok(octets) => told(0, octets, 0),
        Err(refusal) => refused(refusal),
    }
}

pub fn replace(
    form: u32,
    text: &[u8],
    canonical: &mut [u8],
    table: &mut [u32],
    length: usize,
    nodes: usize,
    node: usize,
) -> Answer {
    of_reading(etglavino::replace(form, text, canonical, table, length, nodes, node))
}

pub fn same(a: &[u8], a_length: usize, b: &[u8], b_length: usize, default_hint: &[u8]) -> Answer {
    match etglavino::same(a, a_length, b, b_length, default_hint) {
        Ok(same) => told(0, same as usize, 0),
        Err(refusal) => refused(refusal),
    }
}

// Where a part is, if the octets shown are those that stand there.
fn of_place(place: Option<Part>, canonical: &[u8], shown: &[u8], otherwise: &[u8]) -> Answer {
    let (number, first, second, there) = match place {
        Some(p) => (1, p.start, p.end, part(canonical, p.start, p.end)),
        None => (0, 0, 0, otherwise),
    };
    Answer {
        number: if there == shown { Some(number) } else { None },
        first,
        second,
    }
}

pub fn hint<'a>(
    canonical: &'a [u8],
    length: usize,
    table: &[u32],
    nodes: usize,
    node: usize,
    default_hint: &'a [u8],
) -> Answer {
    let place = etglavino::hint_place(canonical, length, table, nodes, node);
    let shown = etglavino::hint(canonical, length, table, nodes, node, default_hint);
    of_place(place, canonical, shown, default_hint)
}

pub fn data(canonical: &[u8], length: usize, table: &[u32], nodes: usize, node: usize) -> Answer {
    let place = etglavino::data_place(canonical, length, table, nodes, node);
    let shown = etglavino::data(canonical, length, table, nodes, node);
    of_place(place, canonical, shown, b"")
}

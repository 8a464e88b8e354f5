//! Numbers with their faults, and the words and lines of short texts.

use sf_lex::{
    Gap, NumberFault, Scan, Word, count_fields, last_line, read_area, read_decimal, read_plain,
    read_signed, read_whole, split_word,
};

/// The greatest decimal that is asked for.
const LIMIT: u64 = 9_000_000_000_000_000;

/// Decimals by a scale, each at its limit or with its first fault.
const DECIMALS: [(&[u8], u64, Result<u64, NumberFault>); 6] = [
    (b"2.50", 10, Ok(25)),
    (b".5", 1, Err(NumberFault::NotWhole)),
    (b"1.1234567", 1, Err(NumberFault::TooManyDigits)),
    (b"9000000000000000.0", 1, Ok(LIMIT)),
    (b"9000000000000001", 1, Err(NumberFault::TooLarge)),
    (b"1e3", 1, Err(NumberFault::NotNumber)),
];

/// Whole numbers with zeros in front and, where they are plain, without, each at its limit.
const WHOLES: [(&[u8], bool, u64, Option<u64>); 6] = [
    (b"00000000000000065535", false, 65_535, Some(65_535)),
    (b"000000000000000000001", false, 65_535, None),
    (b"18446744073709551615", true, u64::MAX, Some(u64::MAX)),
    (b"18446744073709551616", true, u64::MAX, None),
    (b"0", true, 0, Some(0)),
    (b"01", true, 9, None),
];

/// The whole number that a word is, plain or with zeros in front.
fn whole(word: &[u8], plain: bool, limit: u64) -> Option<u64> {
    if plain {
        read_plain(word, limit)
    } else {
        read_whole(word, limit)
    }
}

/// Decimals, areas, coordinates and whole numbers.
#[test]
fn numbers(rt: HostRuntime) {
    for (word, scale, read) in DECIMALS {
        assert!(rt; read_decimal(word, scale, LIMIT) == read, "{read:?}");
    }
    for (word, plain, limit, read) in WHOLES {
        assert!(rt; whole(word, plain, limit) == read, "{read:?}");
    }
    assert!(rt; read_area(b"2.3", 1, LIMIT) == Ok(3));
    assert!(rt; read_signed(b"-1.5", 10, LIMIT) == Ok(-15));
}

/// Whether a word or a line is this text, at this place, and begins in the line of this number.
fn is_at(word: Option<Word<'_>>, text: &[u8], from: usize, line: u64) -> bool {
    match word {
        Some(word) => word.text == text && word.from == from && word.line == line,
        None => false,
    }
}

/// Words and lines come one after another, each with the number of its line.
#[test]
fn words_and_lines(rt: HostRuntime) {
    let text = b"ab c\r\n\n\td\n \n";
    let mut scan = Scan::new(text);
    assert!(rt; is_at(scan.next_word(), b"ab", 0, 1));
    assert!(rt; is_at(scan.next_line(), b" c\r", 2, 1));
    assert!(rt; is_at(scan.next_word(), b"d", 8, 3));
    assert!(rt; scan.next_word().is_none());
    assert!(rt; last_line(text) == 3 && last_line(b" \n") == 0);
    assert!(rt; count_fields(b"(1, 2)=(3", Gap::Sizes) == 3);
    assert!(rt; split_word(b" a:b", Gap::Colons).0 == b"a".as_slice());
}
